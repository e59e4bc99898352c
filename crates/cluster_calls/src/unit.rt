//! A unit as it is kept.

ghost use Rattle.std.specs.Prelude.{◌≡◌, ◌≤◌, ◌==◌, ◌&&◌, ◌++◌, true, false, None, Some, is_none, is_some, OnErr, OnOk};
ghost use Rattle.std.specs.Option.{option_copied};
ghost use Rattle.local_publisher.specs.Units.{asked_unit, begun, ended, extended};
ghost use Rattle.cluster_model.specs.State.{is_asked, is_ended, is_of, is_on, is_open_unit, is_running, with_loss};
ghost use Rattle.cluster_calls.specs.Calling.{may_begin, may_end, may_read};

use grid_base::{Batch, CallId, Entries, Entry, NoMemory, NodeId, SegmentId, TopologyId, UnitId};
use local_publisher::UnitState;
use std::alloc::Global;
use std::marker::Model;

/// One segment asked of one node for a call, with what was read for it; and for a walk, the place
/// among the entries read from which on they fly to the originator. Contracts see the flying
/// entries.
#[derive(Debug, Drop)]
pub struct Unit {
    work: local_publisher::Unit,
    flying: Option<usize>,
}

impl Model for Unit {
    ghost use Rattle.std.specs.Prelude.{◌≤◌, length, drop, IfSome};
    ghost use Rattle.std.specs.Option.{option_map};
    ghost use Rattle.cluster_model.specs.State as states;

    ghost Value = { states.Unit };

    ghost view = { λ unit. record { work = unit.work; flying = option_map (λ from. drop from unit.work.entries) unit.flying } };

    ghost invariant = { λ unit. IfSome unit.flying (λ from. from ≤ length unit.work.entries) };
}

impl Unit {
    /// A unit that was just asked, and for which nothing was read. It takes no memory.
    pub(crate) fn asked(
        alloc: Global,
        id: UnitId,
        call: CallId,
        segment: SegmentId,
        node: NodeId,
        asked_at: TopologyId,
    ) -> Unit
        ensures { result ≡ record { work = asked_unit id call segment node asked_at; flying = None } }
    {
        Unit {
            work: local_publisher::Unit::asked(alloc, id, call, segment, node, asked_at),
            flying: None,
        }
    }

    /// The unit, without what flies: its number, call, segment, node and stage, and what was read.
    pub fn work(&self) -> &local_publisher::Unit
        ensures { result.now ≡ self.now.work }
    {
        &self.work
    }

    /// The entries that fly to the originator, where a batch does.
    pub fn flying(&self) -> Option<&[Entry]>
        ensures { option_copied result ≡ self.now.flying }
    {
        match self.flying {
            None => None,
            Some(from) => Some(&self.work.entries.as_slice()[from..]),
        }
    }

    /// Whether a batch flies.
    pub fn flies(&self) -> bool
        ensures { result ≡ is_some self.now.flying }
    {
        self.flying.is_some()
    }

    /// Whether the unit is asked or runs.
    pub fn is_open(&self) -> bool
        ensures { result ≡ is_open_unit self.now }
    {
        self.work.state.is_open()
    }

    /// Whether the unit is asked.
    pub fn is_asked(&self) -> bool
        ensures { result ≡ is_asked self.now.work.state }
    {
        matches!(self.work.state, UnitState::Asked)
    }

    /// Whether the unit runs.
    pub fn is_running(&self) -> bool
        ensures { result ≡ is_running self.now.work.state }
    {
        matches!(self.work.state, UnitState::Running)
    }

    /// Whether the unit has ended.
    pub fn is_ended(&self) -> bool
        ensures { result ≡ is_ended self.now.work.state }
    {
        matches!(self.work.state, UnitState::Ended)
    }

    /// The number.
    pub fn id(&self) -> UnitId
        ensures { result ≡ self.now.work.id }
    {
        self.work.id
    }

    /// The call for which the unit asks.
    pub fn call(&self) -> CallId
        ensures { result ≡ self.now.work.call }
    {
        self.work.call
    }

    /// The segment.
    pub fn segment(&self) -> SegmentId
        ensures { result ≡ self.now.work.segment }
    {
        self.work.segment
    }

    /// The node that is asked.
    pub fn node(&self) -> NodeId
        ensures { result ≡ self.now.work.node }
    {
        self.work.node
    }

    /// Whether the node is asked.
    pub fn is_at(&self, node: NodeId) -> bool
        ensures { result ≡ (self.now.work.node == node) }
    {
        self.work.node == node
    }

    /// The stage.
    pub fn state(&self) -> UnitState
        ensures { result ≡ self.now.work.state }
    {
        self.work.state
    }

    /// Whether the unit is one of the call.
    pub fn is_of(&self, call: CallId) -> bool
        ensures { result ≡ is_of call self.now }
    {
        self.work.call == call
    }

    /// The unit, which is asked, and not by a later topology than `at`, runs, or it is refused at
    /// the topology `at`.
    pub(crate) fn begin(&mut self, runs: bool, at: TopologyId)
        requires { may_begin at self.old ≡ true }
        ensures { self.new ≡ record self.old { work = begun self.old.work runs at } }
    {
        self.work.begin(runs, at);
    }

    /// The unit, which runs and has more to read, has read the batch. After want of memory it is
    /// as before.
    pub(crate) fn scan(&mut self, batch: Batch) -> Result<(), NoMemory>
        requires { may_read self.old ≡ true }
        ensures ok { OnOk result (self.new ≡ record self.old { work = extended self.old.work batch }) }
        ensures err { OnErr result (self.new ≡ self.old) }
    {
        self.work.scan(batch)
    }

    /// The unit, which runs and has more to read, has read the batch, which flies. After want of
    /// memory it is as before.
    pub(crate) fn fetch(&mut self, batch: Batch) -> Result<(), NoMemory>
        requires { may_read self.old ≡ true }
        ensures ok { OnOk result (self.new ≡ record { work = extended self.old.work batch; flying = Some batch.entries }) }
        ensures err { OnErr result (self.new ≡ self.old) }
    {
        let from = self.work.entries.len();
        self.work.scan(batch)?;
        self.flying = Some(from);
        Ok(())
    }

    /// Nothing of the unit flies any longer.
    pub(crate) fn land(&mut self)
        ensures { self.new ≡ record self.old { flying = None } }
    {
        self.flying = None;
    }

    /// The unit, which has read its last batch, has ended.
    pub(crate) fn end(&mut self)
        requires { may_end self.old ≡ true }
        ensures { self.new ≡ record self.old { work = ended self.old.work } }
    {
        self.work.done();
    }

    /// The unit, which is open, is lost, at a topology or by a departure, and what flew is gone.
    pub(crate) fn mark_lost(&mut self, at: Option<TopologyId>)
        requires { is_open_unit self.old ≡ true }
        ensures { self.new ≡ with_loss at self.old }
    {
        self.work.mark_lost(at);
        self.land();
    }
}
