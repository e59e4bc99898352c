//! Sources and sinks that never fail.

use anyhow::Result;
use grid_base::Bytes;
use grid_io::{SafeSink, SafeSource, read_all, write_all};
use std::alloc::Global;

/// How many bytes are read of nine, with room for nine and for eight.
pub fn told_source(alloc: Global) -> Result<String> {
    let (whole, none) = (read_of_nine(alloc, 9)?, read_of_nine(alloc, 8)?);
    Ok(format!(in alloc; "{whole} read with room for 9, {none} with room for 8")?)
}

/// How many bytes are read of nine, with room for `limit`.
fn read_of_nine(alloc: Global, limit: usize) -> Result<usize> {
    let mut bytes = Bytes::new(alloc);
    bytes.extend(b"nine byte")?;
    let mut source = SafeSource::new(bytes, 4);
    match read_all(alloc, &mut source, limit) {
        Ok(bytes) => Ok(bytes.len()),
        Err(_) => Ok(0),
    }
}

/// Whether nine bytes are written.
pub fn told_sink(alloc: Global) -> Result<String> {
    let mut sink = SafeSink::new(4);
    let written = write_all(&mut sink, b"nine byte").is_ok();
    Ok(format!(in alloc; "{written}")?)
}
