//! Looks at moments of runs whose outcome is known beforehand, and tells of each whether it is just
//! that. The file `departures` lists scripts in whose call nodes depart at each moment; the file
//! `parts` lists moments of runs, with what is booked then. Both lie in the folder in which the program
//! runs.
#![tactic(auto)]

mod departures;
mod parts;
mod runs;

use anyhow::Result;
use departures::told_departures;
use parts::told_part;
use std::fs;

fn main(rt: HostRuntime) -> Result<()> {
    let departures = fs::read_to_string(&rt, "departures")?;
    for line in departures.as_str().lines() {
        let told = told_departures(&rt, line)?;
        println!(rt; "{told}")?;
    }
    let parts = fs::read_to_string(&rt, "parts")?;
    for line in parts.as_str().lines() {
        let told = told_part(&rt, line)?;
        println!(rt; "{told}")?;
    }
    Ok(())
}
