//! Runs live scripts whose outcome is known beforehand, each many times, and tells of each whether
//! every run says just that. The file `rows` lists them; it lies in the folder in which the program
//! runs. Then two workers of different nodes meet while each makes a piece.
#![tactic(auto)]

mod meeting;
mod rows;
mod runs;

use anyhow::Result;
use meeting::told_meeting;
use rows::told_row;
use std::fs;

fn main(rt: HostRuntime) -> Result<()> {
    let rows = fs::read_to_string(&rt, "rows")?;
    for line in rows.as_str().lines() {
        let told = told_row(&rt, line)?;
        println!(rt; "{told}")?;
    }
    let told = told_meeting(&rt)?;
    println!(rt; "{told}")?;
    Ok(())
}
