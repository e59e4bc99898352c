//! Readers of hashes and of topologies from the front of a text.

ghost use Rattle.std.specs.Prelude.{◌≡◌, ◌≤◌, ◌+◌, length};
ghost use Rattle.topology_phase.specs.Owners.{among};
ghost use Rattle.event_texts.specs.Answers.{Gives, GivesInto};
ghost use Rattle.event_texts.specs.Reading as spec;
ghost use Rattle.event_texts.specs.Reading.{begins_number, hash_in, more, no_bar, number, pending_in, phase_in, topology_in};

use crate::event_fault::EventFault;
use crate::read_values::read_u32;
use grid_base::{NodeId, TopologyId};
use pipeline_parse::reading::{is_digit, read_literal, read_number};
use std::alloc::Global;
use topology_phase::{Hash, Owners, Phase, Topology};

/// Whether a text begins with a digit.
pub(crate) fn begins_number(text: &[u8]) -> bool
    ensures { result ≡ begins_number text.now }
{
    match text.split_first() {
        None => false,
        Some((byte, _)) => is_digit(*byte),
    }
}

/// Reads a node.
fn read_node(text: &[u8]) -> Result<(u8, &[u8]), EventFault>
    ensures { Gives result (number 255 text.now) }
{
    let (number, rest) = read_number(255, text)?;
    Ok((number as u8, rest))
}

/// Reads the owners of a segment.
fn read_owners(text: &[u8]) -> Result<(Owners, &[u8]), EventFault>
    ensures read { Gives result (spec.owners text.now) }
{
    if !begins_number(text) {
        return Ok((Owners::new(), text));
    }
    let (node, rest) = read_node(text)?;
    let mut owners = Owners::new();
    owners.add(NodeId::new(node));
    read_more_owners(owners, rest, 3)
}

/// Reads further owners, so many at most.
fn read_more_owners(owners: Owners, text: &[u8], room: u8) -> Result<(Owners, &[u8]), EventFault>
    requires { length owners + room ≤ 4 }
    ensures { Gives result (more 44 (number 255) among room owners text.now) }
{
    if room == 0 {
        return Ok((owners, text));
    }
    match read_literal(",", text) {
        Ok(rest) => {
            let (number, rest) = read_node(rest)?;
            let node = NodeId::new(number);
            if owners.has(node) {
                return Err(EventFault::BadEvent);
            }
            let mut owners = owners;
            owners.add(node);
            read_more_owners(owners, rest, room - 1)
        }
        Err(_) => Ok((owners, text)),
    }
}

/// Reads further segments, so many at most, and puts them behind those of a hash.
fn read_more_rows<'a>(hash: &mut Hash, text: &'a [u8], room: u8) -> Result<&'a [u8], EventFault>
    requires { length hash.old + room ≤ 256 }
    ensures { GivesInto hash.new result (more 59 spec.owners no_bar room hash.old text.now) }
{
    if room == 0 {
        return Ok(text);
    }
    match read_literal(";", text) {
        Ok(rest) => {
            let (owners, rest) = match read_owners(rest) {
                Ok(read) => read,
                Err(fault) => return Err(fault),
            };
            hash.push(owners)?;
            read_more_rows(hash, rest, room - 1)
        }
        Err(_) => Ok(text),
    }
}

/// Reads a hash behind a blank.
#[tactic(auto, unfolding(crate::specs::Reading::hash_in))]
fn read_hash<'a>(alloc: Global, text: &'a [u8]) -> Result<(Hash, &'a [u8]), EventFault>
    ensures { Gives result (hash_in text.now) }
{
    let rest = read_literal(" ", text)?;
    let (owners, rest) = match read_owners(rest) {
        Ok(read) => read,
        Err(fault) => return Err(fault),
    };
    let mut hash = Hash::new(alloc);
    hash.push(owners)?;
    match read_more_rows(&mut hash, rest, 255) {
        Ok(rest) => Ok((hash, rest)),
        Err(fault) => Err(fault),
    }
}

/// Reads a phase behind a blank.
#[tactic(auto, unfolding(crate::specs::Reading::phase_in))]
fn read_phase(text: &[u8]) -> Result<(Phase, &[u8]), EventFault>
    ensures { Gives result (phase_in text.now) }
{
    let text = read_literal(" ", text)?;
    if let Ok(rest) = read_literal("NO_REBALANCE", text) {
        return Ok((Phase::NoRebalance, rest));
    }
    if let Ok(rest) = read_literal("READ_OLD_WRITE_ALL", text) {
        return Ok((Phase::ReadOld, rest));
    }
    if let Ok(rest) = read_literal("READ_ALL_WRITE_ALL", text) {
        return Ok((Phase::ReadAll, rest));
    }
    let rest = read_literal("READ_NEW_WRITE_ALL", text)?;
    Ok((Phase::ReadNew, rest))
}

/// Reads the pending hash of a phase, where it has one.
fn read_pending<'a>(
    alloc: Global,
    phase: Phase,
    text: &'a [u8],
) -> Result<(Option<Hash>, &'a [u8]), EventFault>
    ensures { Gives result (pending_in phase text.now) }
{
    match phase {
        Phase::NoRebalance => Ok((None, text)),
        Phase::ReadOld | Phase::ReadAll | Phase::ReadNew => {
            let (pending, rest) = read_hash(alloc, text)?;
            Ok((Some(pending), rest))
        }
    }
}

/// Reads a topology, each part behind a blank.
#[tactic(auto, unfolding(crate::specs::Reading::topology_in))]
pub(crate) fn read_topology<'a>(
    alloc: Global,
    text: &'a [u8],
) -> Result<(Topology, &'a [u8]), EventFault>
    ensures { Gives result (topology_in text.now) }
{
    let (id, rest) = read_u32(text)?;
    let (phase, rest) = read_phase(rest)?;
    let (current, rest) = read_hash(alloc, rest)?;
    let (pending, rest) = read_pending(alloc, phase, rest)?;
    match Topology::try_new(TopologyId::new(id), phase, current, pending) {
        Some(topology) => Ok((topology, rest)),
        None => Err(EventFault::BadEvent),
    }
}
