//! Runs whose reads or writes fail, one after the other.

use crate::runs::{READ, WRITTEN, run};
use grid_base::{Bytes, NoMemory, Text};
use grid_shell::Status;
use std::alloc::Global;
use std::sync::Wait;
use std::thread::Threads;

/// A read that fails ends the run: nothing is written, and nothing happens. The number of the first
/// read of which this isn't true, or of the first one that the run doesn't need though its failure
/// matters.
pub fn first_read<R: Threads + Wait + Sync>(
    rt: &R,
    alloc: Global,
    words: &[Text],
    script: &[u8],
) -> Result<Option<u32>, NoMemory> {
    let mut number = 1u32;
    for _piece in script.chunks(READ) {
        if !is_read_fault(rt, alloc, words, script, number)? {
            return Ok(Some(number));
        }
        number = number.wrapping_add(1);
    }
    // one more read finds the end
    if !is_read_fault(rt, alloc, words, script, number)? {
        return Ok(Some(number));
    }
    number = number.wrapping_add(1);
    let end = run(rt, alloc, words, script, number, 0)?;
    if end.status != Status::Done {
        return Ok(Some(number));
    }
    Ok(None)
}

/// Whether nothing is written and nothing happens where a read fails.
fn is_read_fault<R: Threads + Wait + Sync>(
    rt: &R,
    alloc: Global,
    words: &[Text],
    script: &[u8],
    number: u32,
) -> Result<bool, NoMemory> {
    let end = run(rt, alloc, words, script, number, 0)?;
    if end.status != Status::ReadFault {
        return Ok(false);
    }
    if !end.written().is_empty() {
        return Ok(false);
    }
    Ok(end.journal.is_empty())
}

/// A write that fails ends the run, and what was written before is a front of the whole. The number
/// of the first write of which this isn't true, or of the first one that the run doesn't need though
/// its failure matters.
pub fn first_write<R: Threads + Wait + Sync>(
    rt: &R,
    alloc: Global,
    words: &[Text],
    script: &[u8],
) -> Result<Option<u32>, NoMemory> {
    let whole = run(rt, alloc, words, script, 0, 0)?;
    let mut before = Bytes::new(alloc);
    let mut number = 1u32;
    for piece in whole.written().chunks(WRITTEN) {
        let end = run(rt, alloc, words, script, 0, number)?;
        if end.status != Status::WriteFault {
            return Ok(Some(number));
        }
        if end.written() != before.as_slice() {
            return Ok(Some(number));
        }
        before.extend(piece)?;
        number = number.wrapping_add(1);
    }
    let end = run(rt, alloc, words, script, 0, number)?;
    if end.status != Status::Done {
        return Ok(Some(number));
    }
    Ok(None)
}
