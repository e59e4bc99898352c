//! Reads a pipeline from each line of standard input, and prints how many operations it has and
//! whether it is written as it was read, or where the line stops being a pipeline's text. Its stored
//! run has texts of each form, long and deep ones, and each front of one. The measure of reading and
//! printing runs it.
#![tactic(auto)]

use anyhow::Result;
use pipeline_parse::{ParseFault, parse_pipeline, print_pipeline};
use std::alloc::Global;

/// How many bytes a pipeline's text may have.
const LONGEST: usize = 1024;

fn main(rt: HostRuntime) -> Result<()> {
    for line in rt.lines(rt.alloc()) {
        let told = tell(rt.alloc(), line?.as_str())?;
        println!(rt; "{told}")?;
    }
    Ok(())
}

/// What is told of one line.
fn tell(alloc: Global, line: &str) -> Result<String> {
    let text = line.as_bytes();
    if text.len() > LONGEST {
        return Ok(format!(in alloc; "longer than {LONGEST} bytes")?);
    }
    match parse_pipeline(alloc, text) {
        Ok(pipeline) => {
            let count = pipeline.ops.len();
            let written = print_pipeline(alloc, &pipeline)?;
            Ok(if written.as_slice() == text {
                format!(in alloc; "{count} operations, written as it was read")?
            } else {
                format!(in alloc; "{count} operations, written otherwise")?
            })
        }
        Err(ParseFault::Syntax { at }) => Ok(format!(in alloc; "no pipeline behind {at} bytes")?),
        Err(ParseFault::NoMemory) => Err(ParseFault::NoMemory.into()),
    }
}
