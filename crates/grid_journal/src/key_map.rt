//! The map of a cluster.

ghost use Rattle.std.specs.Prelude.{◌≡◌, ◌<◌, ◌≤◌, ◌&&◌, ℕ, Option, not, true, Some, OnOk};
ghost use Rattle.std.specs.FinMap as map;
ghost use Rattle.grid_event.specs.Maps.{is_ahead, stays};
ghost use Rattle.grid_journal.specs.Lasting.{lasting, lasts};
ghost use Rattle.grid_journal.specs.Standing.{loses_key};

use crate::membership::Membership;
use grid_base::{Key, NoMemory, NodeId, Stamped};
use std::alloc::Global;
use std::collections::BTreeMap;
use std::marker::Model;

/// Values with their deadlines, by keys. Contracts see the finite map of the keys whose deadline the
/// clock hasn't reached. The others stay in the tree, so that a tick goes over no key.
#[derive(Drop)]
pub(crate) struct KeyMap {
    tree: BTreeMap<Key, Stamped>,
    reached: Option<u64>,
}

impl Model for KeyMap {
    ghost use Rattle.std.specs.Coded.{coded_list, coded_ℕ};
    ghost use Rattle.std.specs.FinMap as map;
    ghost use Rattle.grid_base.specs.contracts.stamped.Stamped as stamped;
    ghost use Rattle.grid_event.specs.Maps.{ClusterMap};
    ghost use Rattle.grid_journal.specs.Lasting.{lasting};

    ghost Value = { ClusterMap };

    ghost coded = { map.code (coded_list coded_ℕ) stamped.the_row.coded };

    ghost view = { λ a. lasting a.reached (map.from_entries a.tree.entries) };
}

impl KeyMap {
    /// No keys. It takes no memory.
    pub(crate) fn new(alloc: Global) -> KeyMap
        ensures { result ≡ map.empty }
    {
        KeyMap {
            tree: BTreeMap::new(alloc),
            reached: None,
        }
    }

    /// Sets what stands at the key. The only failure is that memory runs out.
    pub(crate) fn put(&mut self, key: Key, stamped: Stamped) -> Result<(), NoMemory>
        ensures { OnOk result (self.new ≡ map.insert self.old key stamped) }
    {
        self.reached = make_way(&mut self.tree, self.reached, stamped.until);
        let _ = self.tree.insert(key, stamped)?;
        Ok(())
    }

    /// Takes the key out, where it is there.
    pub(crate) fn remove(&mut self, key: &Key)
        ensures { self.new ≡ map.remove self.old key.now }
    {
        let _ = self.tree.remove(key);
    }

    /// How many keys there are.
    pub(crate) fn len(&self) -> usize
        ensures { result ≡ map.len self.now }
    {
        count(&self.tree, self.reached)
    }

    /// Takes the keys out whose deadline isn't above the clock.
    pub(crate) fn drop_expired(&mut self, clock: u64)
        ensures { self.new ≡ map.retain_keys self.old (λ key. stays clock (map.get self.old key)) }
    {
        self.reached = Some(later(self.reached, clock));
    }

    /// Takes the keys out that the departure of the node loses.
    pub(crate) fn drop_lost(&mut self, membership: &Membership, node: NodeId)
        requires some { 0 < membership.now.config.segments }
        requires few { membership.now.config.segments ≤ 256 }
        ensures { self.new ≡ map.retain_keys self.old (λ key. not (loses_key membership.now node key)) }
    {
        self.tree
            .retain(|key, _stamped| !membership.loses_key(node, key));
    }
}

/// Lets a deadline stand that is written now, and answers which clock is reached then: where the
/// deadline is reached already, the keys whose deadline is reached go, and no clock is.
fn make_way(
    tree: &mut BTreeMap<Key, Stamped>,
    reached: Option<u64>,
    until: Option<u32>,
) -> Option<u64>
    ensures same { lasting result (map.from_entries tree.new.entries) ≡ lasting reached (map.from_entries tree.old.entries) }
    ensures lasts { lasts result until ≡ true }
{
    if lasts(reached, until) {
        return reached;
    }
    tree.retain(|_key, stamped| lasts(reached, stamped.until));
    None
}

/// How many keys of a tree have a deadline that isn't reached.
fn count(tree: &BTreeMap<Key, Stamped>, reached: Option<u64>) -> usize
    ensures { result ≡ map.len (lasting reached (map.from_entries tree.now.entries)) }
{
    let mut count = tree.len();
    let mut left = tree.range(..);
    while let Some((_key, stamped)) = left.next() {
        if !lasts(reached, stamped.until) {
            count -= 1;
        }
    }
    count
}

/// The later one of two clocks, of which the first may be none.
fn later(reached: Option<u64>, clock: u64) -> u64
    ensures { (until : Option ℕ) → lasts (Some result) until ≡ (lasts reached until && is_ahead clock until) }
{
    match reached {
        Some(before) if clock < before => before,
        _ => clock,
    }
}

/// Whether a deadline is none, or isn't reached by the clock; without a clock none is.
fn lasts(reached: Option<u64>, until: Option<u32>) -> bool
    ensures { result ≡ lasts reached until }
{
    match (reached, until) {
        (Some(clock), Some(until)) => clock < u64::from(until),
        _ => true,
    }
}
