//! What is booked of the units of reductions, and the answer that it comes to.

ghost use Rattle.std.specs.Prelude.{◌≡◌, ◌<◌, ◌||◌, true, not, length, slice_get, IfOk, Some};
ghost use Rattle.std.specs.Option.{option_copied};
ghost use Rattle.local_publisher.specs.Units.{ended};
ghost use Rattle.pipeline_eval.specs.Pipes.{pipe};
ghost use Rattle.pipeline_split.specs.Halves.{remote_of};
ghost use Rattle.pipeline_split.specs.Pieces as pieces;
ghost use Rattle.cluster_model.specs.State as states;
ghost use Rattle.cluster_model.specs.State.{call_of, with_loss};
ghost use Rattle.cluster_model.specs.Calls.{all_complete, has_open};
ghost use Rattle.cluster_model.specs.Answers.{evidence_of};
ghost use Rattle.cluster_calls.specs.Calling.{is_one};
ghost use Rattle.cluster_calls.specs.Parts.{booking_in, is_parted, part_in};

use crate::calls::Calls;
use grid_base::{CallId, NoMemory, SegmentId, TopologyId};
use pipeline_expr::Answer;
use pipeline_split::Piece;
use std::alloc::Global;

impl Calls {
    /// Borrows the piece booked for a segment of a reduction that isn't answered. It is the piece of
    /// what units of the call read that ended there, and of what lost units read where the guarantee
    /// keeps it. None comes exactly where the call is no such reduction, or has no such unit. It takes
    /// no memory.
    pub fn part(&self, number: CallId, segment: SegmentId) -> Option<&Piece>
        ensures { option_copied result ≡ part_in self.now number segment }
    {
        if segment.number() >= self.segments {
            return None;
        }
        match self.table.get(number) {
            None => None,
            Some(row) => match &row.parts {
                None => None,
                Some(parts) => parts.booked(segment),
            },
        }
    }

    /// The answer of a reduction that isn't answered, and of which every segment is complete or no
    /// unit is open: that of its pipeline over its evidence, finished from what is booked. The only
    /// failure is that memory runs out; pieces that don't fit, as none of a typed pipeline, are
    /// want of memory.
    pub fn answer_of(&self, alloc: Global, number: CallId) -> Result<Answer, NoMemory>
        requires parted { is_one is_parted (call_of self.now number) ≡ true }
        requires whole { (all_complete self.now number || not (has_open self.now number)) ≡ true }
        ensures { IfOk result (λ answer. (call : states.Call) → call_of self.now number ≡ Some call → answer ≡ pipe call.request.pipeline (evidence_of self.now number call)) }
    {
        let Some(row) = self.table.get(number) else {
            return Err(NoMemory);
        };
        match &row.parts {
            None => Err(NoMemory),
            Some(parts) => parts.answer(alloc, self.segments),
        }
    }

    /// What is to be booked once the unit at the place has ended, of what it read. The only failure
    /// is that memory runs out.
    pub(crate) fn booking(&self, alloc: Global, place: usize) -> Result<Option<Piece>, NoMemory>
        requires { place < length self.now.units }
        ensures { IfOk result (λ made. (u : states.Unit) → slice_get self.now.units place ≡ Some u → made ≡ booking_in self.now (record u { work = ended u.work })) }
    {
        let unit = &self.units[place];
        let Some(row) = self.table.get(unit.call()) else {
            return Ok(None);
        };
        let Some(parts) = &row.parts else {
            return Ok(None);
        };
        let made = parts.with_entries(alloc, unit.segment(), &unit.work().entries)?;
        Ok(Some(made))
    }

    /// What is to be booked once the unit at the place has ended, of which the piece is given. The
    /// only failure is that memory runs out.
    pub(crate) fn booking_with(
        &self,
        alloc: Global,
        place: usize,
        piece: Piece,
    ) -> Result<Option<Piece>, NoMemory>
        requires place { place < length self.now.units }
        requires piece { (u : states.Unit) (call : states.Call) → slice_get self.now.units place ≡ Some u → call_of self.now u.work.call ≡ Some call → piece ≡ pieces.piece (remote_of call.request.pipeline) u.work.entries }
        ensures { IfOk result (λ made. (u : states.Unit) → slice_get self.now.units place ≡ Some u → made ≡ booking_in self.now (record u { work = ended u.work })) }
    {
        let unit = &self.units[place];
        let Some(row) = self.table.get(unit.call()) else {
            return Ok(None);
        };
        let Some(parts) = &row.parts else {
            return Ok(None);
        };
        let made = parts.with_piece(alloc, unit.segment(), piece)?;
        Ok(Some(made))
    }

    /// What is to be booked once the unit at the place is lost. The only failure is that memory
    /// runs out.
    pub(crate) fn loss(
        &self,
        alloc: Global,
        place: usize,
        at: Option<TopologyId>,
    ) -> Result<Option<Piece>, NoMemory>
        requires { place < length self.now.units }
        ensures { IfOk result (λ made. (u : states.Unit) → slice_get self.now.units place ≡ Some u → made ≡ booking_in self.now (with_loss at u)) }
    {
        let unit = &self.units[place];
        let Some(call) = self.call(unit.call()) else {
            return Ok(None);
        };
        if !call.request().guarantee.keeps_lost() {
            return Ok(None);
        }
        self.booking(alloc, place)
    }
}
