//! Scripts that are cut off, and scripts that are too long.

use crate::runs::run;
use grid_base::limits::LONGEST_SCRIPT;
use grid_base::{Bytes, NoMemory, Text};
use grid_shell::Status;
use std::alloc::Global;
use std::sync::Wait;
use std::thread::Threads;

/// How many lines the settings of a script take, its first line included.
const SETTINGS: u32 = 7;

/// A script that ends with a whole line, its settings complete, is run; any other front of a script
/// is refused at its last line, or the one that is missing. The length of the first front of which
/// this isn't true.
pub fn first_cut<R: Threads + Wait + Sync>(
    rt: &R,
    alloc: Global,
    words: &[Text],
    script: &[u8],
) -> Result<Option<u32>, NoMemory> {
    let mut front = Bytes::new(alloc);
    let mut length = 0u32;
    let mut line = 1u32;
    if !refuses(rt, alloc, words, b"", line)? {
        return Ok(Some(length));
    }
    for byte in script {
        front.push(*byte)?;
        length = length.wrapping_add(1);
        if *byte == b'\n' {
            line = line.wrapping_add(1);
        }
        let told = if *byte == b'\n' && line > SETTINGS {
            runs(rt, alloc, words, front.as_slice())?
        } else {
            refuses(rt, alloc, words, front.as_slice(), line)?
        };
        if !told {
            return Ok(Some(length));
        }
    }
    Ok(None)
}

/// Whether the script is run.
fn runs<R: Threads + Wait + Sync>(
    rt: &R,
    alloc: Global,
    words: &[Text],
    script: &[u8],
) -> Result<bool, NoMemory> {
    let end = run(rt, alloc, words, script, 0, 0)?;
    Ok(end.status == Status::Done)
}

/// Whether the script is refused, as the line is none.
fn refuses<R: Threads + Wait + Sync>(
    rt: &R,
    alloc: Global,
    words: &[Text],
    script: &[u8],
    line: u32,
) -> Result<bool, NoMemory> {
    let end = run(rt, alloc, words, script, 0, 0)?;
    if end.status != Status::ScriptRefused {
        return Ok(false);
    }
    let wanted = format!(in alloc; "refused {line} Syntax\n")?;
    Ok(end.written() == wanted.as_bytes())
}

/// A script of one byte more than may be is refused as a whole. Its length, where this isn't true.
pub fn first_length<R: Threads + Wait + Sync>(
    rt: &R,
    alloc: Global,
    words: &[Text],
    script: &[u8],
) -> Result<Option<u32>, NoMemory> {
    let mut long = Bytes::new(alloc);
    long.extend(script)?;
    for _ in long.len()..=LONGEST_SCRIPT {
        long.push(b';')?;
    }
    let end = run(rt, alloc, words, long.as_slice(), 0, 0)?;
    if end.status != Status::ScriptRefused {
        return Ok(Some(4_194_305));
    }
    if end.written() != b"refused 0 TooLong\n".as_slice() {
        return Ok(Some(4_194_305));
    }
    Ok(None)
}
