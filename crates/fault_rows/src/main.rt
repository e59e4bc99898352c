//! Runs scripts many times, each time with another fault: with each read failing, with each write
//! failing, cut off at each byte, and past the length that is read. It tells of each whether all went
//! as it should. The file `tables` lists them; it lies in the folder in which the program runs.
#![tactic(auto)]

mod cuts;
mod faults;
mod runs;
mod tables;

use anyhow::Result;
use std::fs;
use tables::told_table;

fn main(rt: HostRuntime) -> Result<()> {
    let tables = fs::read_to_string(&rt, "tables")?;
    for line in tables.as_str().lines() {
        let told = told_table(&rt, line)?;
        println!(rt; "{told}")?;
    }
    Ok(())
}
