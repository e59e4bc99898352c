//! Compares the reports and briefs of journals with what is expected of them, and copies of commands
//! with what they are copies of. The file `runs` lists the journals, and the script `commands.grid`
//! has the commands; all files lie in the folder in which the program runs.
#![tactic(auto)]

mod commands;
mod runs;

use anyhow::Result;
use commands::{tell_commands, told_serve};
use runs::told_run;
use std::fs;

fn main(rt: HostRuntime) -> Result<()> {
    let alloc = rt.alloc();
    let script = fs::read_to_string(&rt, "commands.grid")?;
    let told = tell_commands(alloc, script.as_str())?;
    print!(rt; "{told}")?;
    let told = told_serve(alloc)?;
    println!(rt; "{told}")?;
    let rows = fs::read_to_string(&rt, "runs")?;
    for row in rows.as_str().lines() {
        let told = told_run(&rt, row)?;
        println!(rt; "{told}")?;
    }
    Ok(())
}
