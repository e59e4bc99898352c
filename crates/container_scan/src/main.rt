//! Fills one segment of a container with as many entries as standard input says, and scans it in
//! batches of ten from end to end.
#![tactic(auto)]

use anyhow::{Context, Result};
use container_seg::Container;
use grid_base::{Datum, Key, NoMemory, NodeId, SegmentId, Stamped};
use std::alloc::Global;
use std::io;

/// The key of a number: a letter and seven digits.
fn key_of(number: u32) -> Option<Key> {
    let mut bytes = *b"k0000000";
    let mut rest = number;
    for place in (1..8usize).rev() {
        bytes[place] = b'0' + (rest % 10) as u8;
        rest /= 10;
    }
    Key::new(&bytes).ok()
}

/// A container of so many entries in one segment, put in an order far from that of their keys.
fn filled(alloc: Global, count: u32) -> Result<Container, NoMemory> {
    let mut container = Container::new(alloc, NodeId::new(0))?;
    for number in 0..count {
        let scattered = (u64::from(number) * 7919 % u64::from(count)) as u32;
        if let Some(key) = key_of(scattered) {
            let stamped = Stamped {
                value: Datum::Int(i64::from(number)),
                until: None,
            };
            if container.admits(&stamped) {
                let _ = container.put(alloc, SegmentId::new(0), key, stamped)?;
            }
        }
    }
    Ok(container)
}

/// How many entries a scan in batches of ten reads.
fn scanned(alloc: Global, container: &Container) -> Result<u64, NoMemory> {
    let mut after: Option<Key> = None;
    let mut read: u64 = 0;
    for _ in 0..u32::MAX {
        let batch = container.scan(alloc, SegmentId::new(0), after.as_ref(), 10)?;
        read = read.wrapping_add(batch.entries.len() as u64);
        if batch.last {
            return Ok(read);
        }
        if let Some(entry) = batch.entries.as_slice().last() {
            after = Some(entry.key);
        }
    }
    Ok(read)
}

fn main(rt: HostRuntime) -> Result<()> {
    let text = io::read_to_string(rt.alloc(), rt.reader())?;
    let count = text
        .as_str()
        .trim()
        .parse::<u32>()
        .context("reading the number of entries")?;
    let container = filled(rt.alloc(), count)?;
    let read = scanned(rt.alloc(), &container)?;
    println!(rt; "{read} entries")?;
    Ok(())
}
