//! Writing hashes and topologies at the end of a text. Each call fails only where memory runs out.

ghost use Rattle.std.specs.Prelude.{◌≡◌, ◌<◌, ◌∷◌, ◌++◌, [], true, false, length, OnOk, decimal, slice_index_or};
ghost use Rattle.std.specs.List.{list_all};
ghost use Rattle.topology_phase.specs.Owners.{owners_at};
ghost use Rattle.topology_phase.specs.Phases.{same_phase};
ghost use Rattle.topology_phase.specs.Topologies.{Topology};
ghost use Rattle.event_texts.specs.Fits.{are_owners, is_u8, topology_fits};
ghost use Rattle.event_texts.specs.Topologies.{hash_text, owners_text, pending_text, phase_text, topology_text};
ghost use Rattle.event_texts.specs.Words.{between};

use crate::words::add_number;
use grid_base::{Bytes, NoMemory, SegmentId};
use topology_phase::{Hash, Owners, Phase, Topology};

/// Adds a topology.
#[tactic(auto, unfolding(crate::specs::Topologies::topology_text))]
pub(crate) fn add_topology(out: &mut Bytes, topology: &Topology) -> Result<(), NoMemory>
    ensures text { OnOk result (out.new.list ≡ out.old.list ++ topology_text topology.now) }
    ensures keeps { OnOk result (topology_fits topology.now ≡ true) }
{
    // Only the proof reads the number of segments, with which the type tells what it keeps.
    let _segments = topology.segments();
    add_number(out, u64::from(topology.id().number()))?;
    out.push(b' ')?;
    add_phase(out, topology.phase())?;
    out.push(b' ')?;
    add_hash(out, topology.current())?;
    add_pending(out, topology)
}

/// Adds the pending hash of a topology behind a blank, where there is one.
fn add_pending(out: &mut Bytes, topology: &Topology) -> Result<(), NoMemory>
    ensures text { OnOk result (out.new.list ≡ out.old.list ++ pending_text topology.now.phase topology.now.pending) }
    ensures keeps { OnOk result (same_phase topology.now.phase Phase.NoRebalance ≡ false → list_all are_owners topology.now.pending ≡ true) }
{
    let Some(pending) = topology.pending() else {
        return Ok(());
    };
    out.push(b' ')?;
    add_hash(out, pending)?;
    Ok(())
}

/// Adds the word of a phase.
pub fn add_phase(out: &mut Bytes, phase: Phase) -> Result<(), NoMemory>
    ensures { OnOk result (out.new.list ≡ out.old.list ++ phase_text phase) }
{
    match phase {
        Phase::NoRebalance => out.extend(b"NO_REBALANCE"),
        Phase::ReadOld => out.extend(b"READ_OLD_WRITE_ALL"),
        Phase::ReadAll => out.extend(b"READ_ALL_WRITE_ALL"),
        Phase::ReadNew => out.extend(b"READ_NEW_WRITE_ALL"),
    }
}

/// Adds the owners of all segments, with a semicolon between each two.
pub fn add_hash(out: &mut Bytes, hash: &Hash) -> Result<(), NoMemory>
    ensures text { OnOk result (out.new.list ≡ out.old.list ++ hash_text hash.now) }
    ensures keeps { OnOk result (list_all are_owners hash.now ≡ true) }
{
    for segment in 0..hash.segments() {
        add_between(out, b';', segment as u32)?;
        add_owners(out, hash.owners(SegmentId::new(segment)))?;
    }
    Ok(())
}

/// Adds owners, with a comma between each two.
fn add_owners(out: &mut Bytes, owners: Owners) -> Result<(), NoMemory>
    ensures text { OnOk result (out.new.list ≡ out.old.list ++ owners_text owners) }
    ensures keeps { OnOk result (are_owners owners ≡ true) }
{
    for place in 0..owners.len() {
        add_between(out, b',', place as u32)?;
        add_owner(out, owners, place)?;
    }
    Ok(())
}

/// Adds the owner at a place.
fn add_owner(out: &mut Bytes, owners: Owners, place: u8) -> Result<(), NoMemory>
    requires { place < length owners }
    ensures text { OnOk result (out.new.list ≡ out.old.list ++ decimal (slice_index_or owners place 0)) }
    ensures keeps { OnOk result (is_u8 (slice_index_or owners place 0) ≡ true) }
{
    let Some(node) = owners.get(place) else {
        return Ok(());
    };
    add_number(out, u64::from(node.number()))
}

/// Adds the byte that stands before each text of a row but the first.
pub fn add_between(out: &mut Bytes, byte: u8, place: u32) -> Result<(), NoMemory>
    ensures { OnOk result (out.new.list ≡ out.old.list ++ between byte place) }
{
    if place == 0 {
        return Ok(());
    }
    out.push(byte)
}
