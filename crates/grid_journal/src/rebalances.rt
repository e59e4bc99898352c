//! What the rebalances of a journal move.

ghost use Rattle.std.specs.Prelude.{◌≡◌, ◌∷◌, ◌++◌, [], true, false, map, length, reverse, OnOk, decimal};
ghost use Rattle.grid_event.specs.Configs.{is_config};
ghost use Rattle.topology_phase.specs.Phases.{same_phase};
ghost use Rattle.grid_journal.specs.Rebalances.{least_line, least_lines, least_text, load_text, loads_text, told_least};
ghost use Rattle.grid_journal.specs.Reports.{line};
ghost use Rattle.grid_journal.specs.Standing.{event_line, standing_members, standing_topology, with_member};
ghost use Rattle.event_texts.specs.Words.{each_behind};

use crate::membership::Membership;
use event_texts::{add_number, add_number_word};
use grid_base::{Bytes, NoMemory, NodeId};
use grid_event::{Config, Event, Journal};
use hash_factory::{load, moved};
use std::alloc::Global;
use topology_phase::{Aim, Hash, Phase, Topology};

/// Adds a line for each rebalance of a journal with these settings, where the aim is the least
/// hash. The only failure is that memory runs out.
pub(crate) fn add_rebalances(
    alloc: Global,
    out: &mut Bytes,
    config: &Config,
    journal: &Journal,
) -> Result<(), NoMemory>
    requires { is_config config.now ≡ true }
    ensures { OnOk result (out.new.list ≡ out.old.list ++ told_least config.now (reverse journal.now.history.events)) }
{
    match config.aim {
        Aim::Create => Ok(()),
        Aim::Least => add_least_lines(alloc, out, config, journal),
    }
}

/// Adds a line for each rebalance of a journal with these settings.
fn add_least_lines(
    alloc: Global,
    out: &mut Bytes,
    config: &Config,
    journal: &Journal,
) -> Result<(), NoMemory>
    requires { is_config config.now ≡ true }
    ensures { OnOk result (out.new.list ≡ out.old.list ++ least_lines config.now (reverse journal.now.history.events)) }
{
    let mut membership = Membership::new(alloc, config)?;
    for place in 0..journal.len() {
        if let Some(event) = journal.event(place + 1) {
            add_event(alloc, out, &membership, event)?;
            membership.note(alloc, event)?;
        }
    }
    Ok(())
}

/// Adds a line where an event begins a rebalance.
fn add_event(
    alloc: Global,
    out: &mut Bytes,
    membership: &Membership,
    event: &Event,
) -> Result<(), NoMemory>
    ensures { OnOk result (out.new.list ≡ out.old.list ++ event_line membership.now event.now) }
{
    match event {
        Event::Announce(topology) => add_least_line(alloc, out, membership, topology.get()),
        _ => Ok(()),
    }
}

/// Adds a line where a topology begins a rebalance.
fn add_least_line(
    alloc: Global,
    out: &mut Bytes,
    membership: &Membership,
    topology: &Topology,
) -> Result<(), NoMemory>
    ensures { OnOk result (out.new.list ≡ out.old.list ++ least_line (standing_members membership.now) (standing_topology membership.now).phase topology.now) }
{
    if !membership.rests() || !topology.phase().is(Phase::ReadOld) {
        return Ok(());
    }
    let nodes = membership.live(alloc)?;
    add_least(out, nodes.as_slice(), topology)?;
    out.push(b'\n')
}

/// Adds how many primaries a rebalance moves, and the loads of the live nodes.
#[tactic(auto, unfolding(crate::specs::Rebalances::least_text))]
fn add_least(out: &mut Bytes, live: &[u8], topology: &Topology) -> Result<(), NoMemory>
    requires { same_phase topology.now.phase Phase.NoRebalance ≡ false }
    ensures { OnOk result (out.new.list ≡ out.old.list ++ least_text live.now topology.now) }
{
    let Some(pending) = topology.pending() else {
        return Ok(());
    };
    out.extend(b"least")?;
    add_number_word(out, u64::from(topology.id().number()))?;
    add_number_word(out, u64::from(moved(topology.current(), pending)))?;
    out.push(b' ')?;
    add_loads(out, live, topology.current(), pending)
}

/// Adds the loads of nodes, with a comma between each two.
fn add_loads(out: &mut Bytes, nodes: &[u8], hash: &Hash, after: &Hash) -> Result<(), NoMemory>
    ensures { OnOk result (out.new.list ≡ out.old.list ++ loads_text hash.now after.now nodes.now) }
{
    let Some((first, others)) = nodes.split_first() else {
        return Ok(());
    };
    add_load(out, *first, hash, after)?;
    add_other_loads(out, others, hash, after)?;
    Ok(())
}

/// Adds the loads of nodes, each behind a comma.
fn add_other_loads(out: &mut Bytes, nodes: &[u8], hash: &Hash, after: &Hash) -> Result<(), NoMemory>
    ensures { OnOk result (out.new.list ≡ out.old.list ++ each_behind 44 (map (load_text hash.now after.now) nodes.now)) }
{
    for node in nodes {
        out.push(b',')?;
        add_load(out, *node, hash, after)?;
    }
    Ok(())
}

/// Adds a node with its loads by two hashes.
fn add_load(out: &mut Bytes, node: u8, hash: &Hash, after: &Hash) -> Result<(), NoMemory>
    ensures { OnOk result (out.new.list ≡ out.old.list ++ load_text hash.now after.now node) }
{
    let id = NodeId::new(node);
    add_number(out, u64::from(node))?;
    out.push(b':')?;
    add_number(out, u64::from(load(hash, id)))?;
    out.push(b'>')?;
    add_number(out, u64::from(load(after, id)))?;
    Ok(())
}
