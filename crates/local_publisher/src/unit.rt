//! A unit of a call.

ghost use Rattle.std.specs.Prelude.{◌≡◌, ◌≤◌, true, false, IfOk, OnOk, OnErr};
ghost use Rattle.local_publisher.specs.Stages.{is_open};

use crate::unit_state::UnitState;
use grid_base::{Batch, CallId, Entries, NoMemory, NodeId, SegmentId, TopologyId, UnitId};
use std::alloc::Global;
use std::marker::Model;

/// One segment of a call, asked of one node. Contracts see the list of its entries, without the
/// list's spare places.
#[derive(Debug, Drop)]
pub struct Unit {
    /// The number of the unit.
    pub id: UnitId,
    /// The call for which the segment is asked.
    pub call: CallId,
    /// The segment.
    pub segment: SegmentId,
    /// The node that is asked.
    pub node: NodeId,
    /// The topology that the originator of the call had installed when it asked.
    pub asked_at: TopologyId,
    /// The stage of the unit.
    pub state: UnitState,
    /// The entries read so far, in the order of reading.
    pub entries: Entries,
    /// Whether the last entries of the segment were read.
    pub last: bool,
}

impl Model for Unit {
    ghost use Rattle.local_publisher.specs.Work.{Work};

    ghost Value = { Work };

    ghost view = { λ unit. record { id = unit.id; call = unit.call; segment = unit.segment; node = unit.node; asked_at = unit.asked_at; state = unit.state; entries = unit.entries.list; last = unit.last } };
}

impl Unit {
    ghost use Rattle.local_publisher.specs.Units.{asked_unit, begun, extended, lost, ended};

    /// A unit that was just asked, and for which nothing was read. It takes no memory.
    pub fn asked(
        alloc: Global,
        id: UnitId,
        call: CallId,
        segment: SegmentId,
        node: NodeId,
        asked_at: TopologyId,
    ) -> Unit
        ensures { result ≡ asked_unit id call segment node asked_at }
    {
        Unit {
            id,
            call,
            segment,
            node,
            asked_at,
            state: UnitState::Asked,
            entries: Entries::new(alloc),
            last: false,
        }
    }

    /// The node begins with the unit, which was asked, under the topology `at` that it has
    /// installed and that isn't below the one at which it was asked. The unit runs where `runs` says
    /// that the node reads the segment. Else it is refused.
    pub fn begin(&mut self, runs: bool, at: TopologyId)
        requires asked { self.old.state ≡ UnitState.Asked }
        requires installed { self.old.asked_at ≤ at }
        ensures { self.new ≡ begun self.old runs at }
    {
        if runs {
            self.state = UnitState::Running;
            return;
        }
        self.state = UnitState::Refused(at);
    }

    /// Puts the entries of `batch` behind those of the unit, which runs and of which the last
    /// entries weren't read. It fails only where memory runs out, and then the unit is as before.
    pub fn scan(&mut self, batch: Batch) -> Result<(), NoMemory>
        requires running { self.old.state ≡ UnitState.Running }
        requires unread { self.old.last ≡ false }
        ensures ok { OnOk result (self.new ≡ extended self.old batch) }
        ensures err { OnErr result (self.new ≡ self.old) }
    {
        let last = batch.last;
        self.entries.append(batch.entries)?;
        self.last = last;
        Ok(())
    }

    /// The unit, which is open, is lost: by the installation of the topology `at`, or by the
    /// departure of the node where there is none. What was read stays in it.
    pub fn mark_lost(&mut self, at: Option<TopologyId>)
        requires { is_open self.old.state ≡ true }
        ensures { self.new ≡ lost self.old at }
    {
        self.state = UnitState::Lost(at);
    }

    /// The unit, which runs and of which the last entries were read, has ended.
    pub fn done(&mut self)
        requires running { self.old.state ≡ UnitState.Running }
        requires whole { self.old.last ≡ true }
        ensures { self.new ≡ ended self.old }
    {
        self.state = UnitState::Ended;
    }

    /// An equal unit. The only failure is that memory runs out.
    pub fn copy(&self, alloc: Global) -> Result<Unit, NoMemory>
        ensures { IfOk result (λ copy. copy ≡ self.now) }
    {
        let entries = self.entries.copy(alloc)?;
        Ok(Unit {
            id: self.id,
            call: self.call,
            segment: self.segment,
            node: self.node,
            asked_at: self.asked_at,
            state: self.state,
            entries,
            last: self.last,
        })
    }
}
