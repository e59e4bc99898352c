//! One transfer.

ghost use Rattle.std.specs.Prelude.{◌≡◌, ℕ, ◌&&◌, not, is_some, is_none, IfOk, OnOk, OnErr, None, Some};
ghost use Rattle.std.specs.FinSet as set;
ghost use Rattle.std.specs.Option.{option_copied, option_map};
ghost use Rattle.state_transfer.specs.Calls.{are_lasting};
ghost use Rattle.state_transfer.specs.Changes.{unexpired};
ghost use Rattle.state_transfer.specs.Chunks.{begun, last_sent, may_send, with_chunk};
ghost use Rattle.state_transfer.specs.Copying.{has_ended};
ghost use Rattle.state_transfer.specs.Leaving.{outlives};
ghost use Rattle.container_seg.specs.Lifespans.{outlasts};

use grid_base::{Chunk, Key, NoMemory, NodeId, StampedEntry};
use std::alloc::Global;
use std::collections::BTreeSet;
use std::marker::Model;

/// A transfer of a segment to a receiver: the node that provides it, the last key that was sent,
/// the chunk that flies, whether the last chunk was sent, and the keys that are touched.
#[derive(Drop)]
pub(crate) struct Transfer {
    provider: NodeId,
    sent: Option<Key>,
    flying: Option<Vec<StampedEntry>>,
    // At a clock that this deadline outlasts, nothing that flies has expired.
    soonest: Option<u32>,
    last: bool,
    touched: BTreeSet<Key>,
}

impl Model for Transfer {
    ghost use Rattle.std.specs.Coded.{codes, coded_list, coded_ℕ};
    ghost use Rattle.std.specs.FinSet as set;
    ghost use Rattle.container_seg.specs.Places.{key_cmp};
    ghost use Rattle.state_transfer.specs.Copying.{Transfer};
    ghost use Rattle.state_transfer.specs.Lying.{seen, IsSoonest};

    ghost Value = { Transfer };

    ghost coded = { Prim.hlevel (codes, set.code {R = key_cmp} (coded_list coded_ℕ)) };

    ghost view = { seen };

    ghost invariant = { λ a. IsSoonest a.soonest (seen a).flying };
}

impl Transfer {
    /// The transfer whose first chunk flies.
    pub(crate) fn begun(alloc: Global, provider: NodeId, chunk: Chunk) -> Transfer
        ensures { result ≡ with_chunk chunk (begun None provider) }
    {
        let mut transfer = Transfer {
            provider,
            sent: None,
            flying: None,
            soonest: None,
            last: false,
            touched: BTreeSet::new(alloc),
        };
        transfer.send(chunk);
        transfer
    }

    /// The node that provides the transfer.
    pub(crate) fn provider(&self) -> NodeId
        ensures { result ≡ self.now.provider }
    {
        self.provider
    }

    /// The last key that was sent, where there is one.
    pub(crate) fn sent(&self) -> Option<&Key>
        ensures { option_copied result ≡ self.now.sent }
    {
        self.sent.as_ref()
    }

    /// Whether a chunk flies.
    pub(crate) fn flies(&self) -> bool
        ensures { result ≡ is_some self.now.flying }
    {
        self.flying.is_some()
    }

    /// Whether the transfer has ended.
    pub(crate) fn has_ended(&self) -> bool
        ensures { result ≡ has_ended self.now }
    {
        self.last && self.flying.is_none()
    }

    /// Whether a further chunk may be sent.
    pub(crate) fn may_send(&self) -> bool
        ensures { result ≡ may_send (Some self.now) }
    {
        !self.last && self.flying.is_none()
    }

    /// Whether the transfer has ended, or another node provides it.
    pub(crate) fn outlives(&self, provider: NodeId) -> bool
        ensures { result ≡ outlives provider (Some self.now) }
    {
        self.has_ended() || self.provider != provider
    }

    /// Whether the key is touched.
    pub(crate) fn touches(&self, key: &Key) -> bool
        ensures { result ≡ set.contains self.now.touched key.now }
    {
        self.touched.contains(key)
    }

    /// The entries that fly, where a chunk does.
    pub(crate) fn flying(&self) -> Option<&[StampedEntry]>
        ensures { option_copied result ≡ self.now.flying }
    {
        match &self.flying {
            Some(entries) => Some(entries.as_slice()),
            None => None,
        }
    }

    /// Sends a chunk.
    pub(crate) fn send(&mut self, chunk: Chunk)
        ensures { self.new ≡ with_chunk chunk self.old }
    {
        let Chunk { entries, last } = chunk;
        let entries = entries.into_vec();
        self.sent = last_sent(&entries, self.sent);
        self.soonest = soonest(&entries);
        self.flying = Some(entries);
        self.last = last;
    }

    /// Nothing flies from then on.
    pub(crate) fn land(&mut self)
        ensures { self.new ≡ record self.old { flying = None } }
    {
        self.flying = None;
    }

    /// Touches a key, and says whether it wasn't touched before. The only failure is that memory
    /// runs out, and the transfer is then as before.
    pub(crate) fn mark(&mut self, key: Key) -> Result<bool, NoMemory>
        ensures marked { IfOk result (λ marked. marked ≡ not (set.contains self.old.touched key)) }
        ensures ok { OnOk result (self.new ≡ record self.old { touched = set.insert self.old.touched key }) }
        ensures err { OnErr result (self.new ≡ self.old) }
    {
        let marked = self.touched.insert(key)?;
        Ok(marked)
    }

    /// Makes a key untouched.
    pub(crate) fn unmark(&mut self, key: &Key)
        ensures { self.new ≡ record self.old { touched = set.remove self.old.touched key.now } }
    {
        let _ = self.touched.remove(key);
    }

    /// Drops what has expired from the chunk that flies.
    pub(crate) fn tick(&mut self, clock: u32)
        ensures { self.new ≡ record self.old { flying = option_map (unexpired clock) self.old.flying } }
    {
        if outlasts(clock, self.soonest) {
            return;
        }
        if let Some(entries) = &mut self.flying {
            drop_expired(entries, clock);
            self.soonest = soonest(entries);
        }
    }
}

/// The last key of some entries, or where there are none the key before.
fn last_sent(entries: &[StampedEntry], sent: Option<Key>) -> Option<Key>
    ensures { result ≡ last_sent entries.now sent }
{
    match entries.last() {
        Some(entry) => Some(entry.key),
        None => sent,
    }
}

/// The soonest deadline of some entries, where one of them has a deadline.
fn soonest(entries: &[StampedEntry]) -> Option<u32>
    ensures { (clock : ℕ) → outlasts clock result ≡ are_lasting clock entries.now }
{
    let mut soonest = None;
    for entry in entries {
        soonest = sooner(soonest, entry.stamped.until);
    }
    soonest
}

/// The sooner of two deadlines.
fn sooner(left: Option<u32>, right: Option<u32>) -> Option<u32>
    ensures { (clock : ℕ) → outlasts clock result ≡ (outlasts clock left && outlasts clock right) }
{
    match (left, right) {
        (Some(left), Some(right)) => Some(left.min(right)),
        (left, None) => left,
        (None, right) => right,
    }
}

/// Drops the entries that have expired.
fn drop_expired(entries: &mut Vec<StampedEntry>, clock: u32)
    ensures { entries.new.items ≡ unexpired clock entries.old.items }
{
    entries.retain(|entry| outlasts(clock, entry.stamped.until));
}

/// Whether a deadline is none, or above the clock.
fn outlasts(clock: u32, until: Option<u32>) -> bool
    ensures { result ≡ outlasts clock until }
{
    match until {
        None => true,
        Some(until) => clock < until,
    }
}
