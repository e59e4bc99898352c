//! Compares what is told of scripts with what is expected: why and at which line one is refused, or
//! how much one that is read has. The file `rows` has the scripts; it lies in the folder in which the
//! program runs. The program prints each row that is told otherwise, and how many rows there are.
#![tactic(auto)]

mod rows;

use anyhow::Result;
use rows::{is_told, told_row};
use std::fs;

fn main(rt: HostRuntime) -> Result<()> {
    let alloc = rt.alloc();
    let file = fs::read_to_string(&rt, "rows")?;
    let rows = file.as_str().trim_end_matches('\n');
    let mut count: u32 = 0;
    for row in rows.split("\n> ") {
        let told = told_row(alloc, row)?;
        if !is_told(row, told.as_str()) {
            println!(rt; "{row}\nis told as {told}")?;
        }
        count = count.wrapping_add(1);
    }
    println!(rt; "{count} rows")?;
    Ok(())
}
