//! Copies standard input to standard output through a source and a sink. It shows that both work
//! end to end, and is what the measure of the two runs.
#![tactic(auto)]

use anyhow::Result;
use grid_io::{StdSink, StdSource, read_all, write_all};
use std::io;

fn main(rt: HostRuntime) -> Result<()> {
    let mut source = StdSource::new(rt.reader());
    let mut sink = StdSink::new(io::writer(&rt));
    let bytes = read_all(rt.alloc(), &mut source, usize::MAX)?;
    write_all(&mut sink, bytes.as_slice())?;
    Ok(())
}
