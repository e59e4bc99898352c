//! Compares texts of events, and texts of none, with what is expected of them, and tells of each row
//! of the file `events` whether it is so. The file lies in the folder in which the program runs.
#![tactic(auto)]

mod events;

use anyhow::Result;
use events::told_event;
use std::fs;

fn main(rt: HostRuntime) -> Result<()> {
    let alloc = rt.alloc();
    let rows = fs::read_to_string(&rt, "events")?;
    for row in rows.as_str().lines() {
        let told = told_event(alloc, row)?;
        println!(rt; "{told}")?;
    }
    Ok(())
}
