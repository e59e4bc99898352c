//! Hashes that are joined, pruned and compared.

ghost use Rattle.std.specs.Prelude.{◌≡◌, ◌≤◌, [], ◌∷◌, length, IfOk};

use anyhow::{Context, Result};
use grid_base::{NoMemory, NodeId, NodeSet, SegmentId};
use hash_factory::{Least, check_least, create, prune, rebalance_least, union};
use std::alloc::Global;
use topology_phase::{Hash, Members, Owners};

/// How many owners the union of two hashes has for a segment, and how many are left of one where
/// only node 2 lives.
pub fn told_union(alloc: Global) -> Result<String> {
    let both = united(alloc, pair(0, 1), pair(2, 0))?;
    let hash = single(alloc, pair(1, 2))?;
    let mut live = NodeSet::new();
    live.add(NodeId::new(2));
    let kept = prune(alloc, &hash, &live)?;
    let first = SegmentId::new(0);
    if both.segments() == 0 || kept.segments() == 0 {
        return Ok(format!(in alloc; "no segment")?);
    }
    let joined = both.owners(first).len();
    let left = kept.owners(first);
    let (count, node) = (left.len(), left.get(0));
    Ok(format!(in alloc; "{joined} owners, {count} left, {node:?}")?)
}

/// How many of eight primaries move where a fourth node joins three, whether this is shown to be
/// least, and whether the created hash, which moves more, is.
pub fn told_least(alloc: Global) -> Result<String> {
    let hash = created(alloc, 3)?.context("no member")?;
    let nodes = first_nodes(4);
    if Members::new(&nodes).len() == 0 {
        return Ok(format!(in alloc; "no member")?);
    }
    let mut least = rebalance_least(alloc, &hash, &nodes, 1)?;
    let moved = least.moved;
    let is_least = is_shown(&hash, &nodes, &least);
    least.hash = created(alloc, 4)?.context("no member")?;
    let is_least_too = is_shown(&hash, &nodes, &least);
    Ok(format!(in alloc; "{moved} moved, {is_least}; the created hash, {is_least_too}")?)
}

/// Whether a rebalance is shown to move least, where that may be asked.
fn is_shown(hash: &Hash, nodes: &NodeSet, least: &Least) -> bool {
    if Members::new(nodes).len() == 0 || hash.segments() != least.hash.segments() {
        return false;
    }
    check_least(hash, nodes, least)
}

/// The owners of these two nodes.
fn pair(first: u8, second: u8) -> Owners
    ensures { length result ≤ 2 }
{
    let mut owners = Owners::new();
    owners.add(NodeId::new(first));
    if !owners.has(NodeId::new(second)) && owners.len() < 8 {
        owners.add(NodeId::new(second));
    }
    owners
}

/// The hash of these owners for one segment.
fn single(alloc: Global, owners: Owners) -> Result<Hash, NoMemory>
    ensures { IfOk result (λ hash. hash ≡ owners ∷ []) }
{
    let mut hash = Hash::new(alloc);
    hash.push(owners)?;
    Ok(hash)
}

/// The union of two hashes of one segment.
fn united(alloc: Global, first: Owners, second: Owners) -> Result<Hash, NoMemory>
    requires few { length first ≤ 4 }
    requires few_more { length second ≤ 4 }
{
    let first = single(alloc, first)?;
    let second = single(alloc, second)?;
    union(alloc, &first, &second)
}

/// The nodes below `count`.
fn first_nodes(count: u8) -> NodeSet {
    let mut nodes = NodeSet::new();
    for number in 0..count.min(16) {
        nodes.add(NodeId::new(number));
    }
    nodes
}

/// The created hash of eight segments over the nodes below `count`, where there is one.
fn created(alloc: Global, count: u8) -> Result<Option<Hash>, NoMemory> {
    let nodes = first_nodes(count);
    if Members::new(&nodes).len() == 0 {
        return Ok(None);
    }
    Ok(Some(create(alloc, &nodes, 8, 1)?))
}
