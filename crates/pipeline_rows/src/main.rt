//! Compares the values of pipelines over entries with what is expected, and tells of each row of the
//! file `pipelines` whether it is so. The file lies in the folder in which the program runs.
#![tactic(auto)]

mod pipelines;

use anyhow::Result;
use pipelines::told_pipeline;
use std::fs;

fn main(rt: HostRuntime) -> Result<()> {
    let alloc = rt.alloc();
    let rows = fs::read_to_string(&rt, "pipelines")?;
    for row in rows.as_str().lines() {
        let told = told_pipeline(alloc, row)?;
        println!(rt; "{told}")?;
    }
    Ok(())
}
