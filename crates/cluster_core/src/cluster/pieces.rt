//! The pieces that are booked for reductions, and units of theirs that end.

ghost use Rattle.std.specs.Prelude.{◌≡◌, true, None, Some, is_some, IfOk, IfSome, IsErrOf, OnErr, OnOk};
ghost use Rattle.std.specs.Option.{option_copied};
ghost use Rattle.grid_event.specs.declared.event.Event.TheVariants as events;
ghost use Rattle.cluster_model.specs.Step.{after};
ghost use Rattle.cluster_model.specs.Units.{can_end, ended_unit};
ghost use Rattle.cluster_core.specs.Parts.{is_ready, is_ready_behind, part_of, piece_of, ready_at, ready_behind};
ghost use Rattle.pipeline_split.specs.Pieces as pieces;

use crate::apply_fault::ApplyFault;
use crate::cluster::Core;
use crate::same::same_entries;
use cluster_calls::Unit;
use grid_base::{CallId, Entries, NoMemory, NodeId, SegmentId, UnitId};
use pipeline_split::{Piece, Remote, split};
use std::alloc::Global;

impl Core {
    /// Borrows the piece booked for a segment of a reduction that isn't answered. It is the piece of
    /// what units of the call read that ended there, and of what lost units read where the guarantee
    /// keeps it. None comes exactly where the call is no such reduction, or has no such unit. It takes
    /// no memory.
    pub fn part(&self, call: CallId, segment: SegmentId) -> Option<&Piece>
        ensures { option_copied result ≡ part_of self.now call segment }
    {
        self.calls.part(call, segment)
    }

    /// The least unit of a reduction at the node that may end. None comes exactly where there is
    /// none. It takes no memory.
    pub fn ready(&self, node: NodeId) -> Option<UnitId>
        ensures { result ≡ ready_at self.now node }
    {
        self.ready_behind(node, UnitId::new(0))
    }

    /// The least unit of a reduction with a number above this one that is at the node and may end;
    /// it has a piece. None comes exactly where there is none. It takes no memory.
    pub fn ready_behind(&self, node: NodeId, number: UnitId) -> Option<UnitId>
        ensures least { result ≡ ready_behind self.now node number }
        ensures piece { IfSome result (λ unit. is_some (piece_of self.now unit) ≡ true) }
    {
        let units = self.calls.waiting();
        for unit in units {
            if self.is_ready_behind(node, number, unit) {
                return Some(unit.work().id);
            }
        }
        None
    }

    /// Whether the unit has a number above this one, is at the node, its call is a reduction, and it
    /// may end.
    fn is_ready_behind(&self, node: NodeId, number: UnitId, unit: &Unit) -> bool
        ensures { result ≡ is_ready_behind self.now node number unit.now }
    {
        let is_behind = number.number() < unit.work().id.number();
        if !is_behind {
            return false;
        }
        self.is_ready(node, unit)
    }

    /// Whether the unit is at the node, its call is a reduction, and it may end.
    fn is_ready(&self, node: NodeId, unit: &Unit) -> bool
        ensures { result ≡ is_ready self.now node unit.now }
    {
        if unit.node() != node {
            return false;
        }
        if self.walks(unit.call()) {
            return false;
        }
        self.unit_can_end(unit)
    }

    /// Whether the unit is there, its call is a reduction with this remote half, and these are the
    /// entries that it read; then the piece that the half makes of them is the unit's own. The only
    /// failure is that memory runs out.
    pub fn has_read(
        &self,
        alloc: Global,
        number: UnitId,
        remote: &Remote,
        entries: &Entries,
    ) -> Result<bool, NoMemory>
        ensures { IfOk result (λ has. has ≡ true → piece_of self.now number ≡ Some (pieces.piece remote.now entries.now.list)) }
    {
        let Some(unit) = self.unit(number) else {
            return Ok(false);
        };
        let Some(call) = self.call(unit.call()) else {
            return Ok(false);
        };
        if call.is_walk() {
            return Ok(false);
        }
        let halves = split(alloc, &call.request().pipeline)?;
        if !halves.0.same(remote) {
            return Ok(false);
        }
        Ok(same_entries(unit.work().entries.as_slice(), entries.as_slice()))
    }

    /// Done of the unit happens, which is of a reduction and of which the piece is given; it isn't
    /// made of the entries again. Refused comes only where there is no such step; where there is
    /// none, the answer is Refused. After a fault the core is as before.
    pub fn apply_done(
        &mut self,
        alloc: Global,
        number: UnitId,
        piece: Piece,
    ) -> Result<(), ApplyFault>
        requires { piece_of self.old number ≡ Some piece }
        ensures ok { OnOk result (after self.old (events.Done number) ≡ Some self.new) }
        ensures refused { IsErrOf result ApplyFault.Refused → after self.old (events.Done number) ≡ None }
        ensures err { OnErr result (self.new ≡ self.old) }
    {
        if !self.can_end(number) {
            return Err(ApplyFault::Refused);
        }
        self.end_with(alloc, number, piece)?;
        Ok(())
    }

    /// The unit has ended, and its segment is complete for its call, which is a reduction; the piece
    /// of what it read is given. After want of memory the core is as before.
    fn end_with(&mut self, alloc: Global, number: UnitId, piece: Piece) -> Result<(), NoMemory>
        requires may { can_end self.old number ≡ true }
        requires piece { piece_of self.old number ≡ Some piece }
        ensures ok { OnOk result (self.new ≡ record self.old { calling = ended_unit self.old.calling number }) }
        ensures err { OnErr result (self.new ≡ self.old) }
    {
        self.calls.end_with(alloc, number, piece)?;
        Ok(())
    }
}
