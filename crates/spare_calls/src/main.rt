//! Calls of the libraries that the program doesn't make, each with memory enough. A line tells what
//! each gives.
#![tactic(auto)]

mod hashes;
mod streams;
mod walks;

use anyhow::Result;
use delivery_mode::Guarantee;
use hashes::{told_least, told_union};
use streams::{told_sink, told_source};
use walks::told_walk;

fn main(rt: HostRuntime) -> Result<()> {
    let alloc = rt.alloc();
    for guarantee in [Guarantee::Exact, Guarantee::AtLeast, Guarantee::AtMost] {
        let told = told_walk(alloc, guarantee)?;
        println!(rt; "{guarantee:?}: {told}")?;
    }
    let told = told_union(alloc)?;
    println!(rt; "union and prune: {told}")?;
    let told = told_least(alloc)?;
    println!(rt; "least: {told}")?;
    let told = told_source(alloc)?;
    println!(rt; "safe source: {told}")?;
    let told = told_sink(alloc)?;
    println!(rt; "safe sink: {told}")?;
    Ok(())
}
