//! Runs scripts whose outcome is known beforehand, and tells of each whether the program says just
//! that. The file `rows` lists them; it lies in the folder in which the program runs.
#![tactic(auto)]

mod compare;
mod rows;
mod runs;

use anyhow::Result;
use rows::told_row;
use std::fs;

fn main(rt: HostRuntime) -> Result<()> {
    let rows = fs::read_to_string(&rt, "rows")?;
    for line in rows.as_str().lines() {
        if !line.is_empty() {
            let told = told_row(&rt, line)?;
            println!(rt; "{told}")?;
        }
    }
    Ok(())
}
