//! The reduction of a call.

ghost use Rattle.std.specs.Prelude.{◌≡◌, ◌<◌, true, IfOk, OnOk, OnErr};
ghost use Rattle.std.specs.List.{fold};
ghost use Rattle.std.specs.Option.{option_copied, option_map};
ghost use Rattle.reduce_cluster.specs.Reduced.{nothing_booked, segments_of, booked_for, share_of, with_share, with_complete, missing_of, shares_of, all_fit};

use crate::shares::{copied, joined_all, least_unmarked, put_behind, unmarked, vacant};
use grid_base::{NoMemory, Part, SegmentId};
use std::alloc::Global;
use std::marker::Model;

/// What is booked for the segments of a call, and which of them are complete. Contracts see the
/// join of the parts of each segment, and one mark a segment.
#[derive(Drop)]
pub struct Reduction<P: Part> {
    booked: Vec<Option<P>>,
    complete: Vec<bool>,
}

impl<P: Part> Model for Reduction<P> {
    ghost use Rattle.std.specs.Prelude.{◌≡◌, ◌<◌, ◌^◌, length};
    ghost use Rattle.reduce_cluster.specs.Reduced.{Reduced, reduced_code};
    ghost use Rattle.reduce_cluster.specs.Shares.{plain_shares};

    ghost Value = { Reduced P };

    ghost coded = { reduced_code P.code };

    ghost view = { λ a. record { booked = plain_shares P.plain a.booked.items; complete = a.complete.items } };

    ghost invariant = { λ a. (length a.booked.items ≡ length a.complete.items) × (length a.complete.items < 2 ^ 16) };
}

impl<P: Part> Reduction<P> {
    /// Nothing is booked for any of so many segments, and none is complete. The only failure is that
    /// memory runs out.
    pub fn new(alloc: Global, segments: u16) -> Result<Reduction<P>, NoMemory>
        ensures { IfOk result (λ made. made ≡ nothing_booked segments) }
    {
        let booked = vacant(alloc, usize::from(segments))?;
        let complete = unmarked(alloc, usize::from(segments))?;
        Ok(Reduction { booked, complete })
    }

    /// Puts `part` behind what is booked for the segment, which it fits. The only failure is that
    /// memory runs out; then `part` is gone, and nothing else has changed.
    pub fn book(&mut self, segment: SegmentId, part: P) -> Result<(), NoMemory>
        requires within { segment < segments_of self.old }
        requires fits { P.fitting (share_of P.nothing self.old segment) (P.plain part) ≡ true }
        ensures ok { OnOk result (self.new ≡ with_share self.old segment (P.joined (share_of P.nothing self.old segment) (P.plain part))) }
        ensures err { OnErr result (self.new ≡ self.old) }
    {
        let place = usize::from(segment.number());
        put_behind(&mut self.booked[place], part)?;
        Ok(())
    }

    /// What would be booked for the segment after `part`, which fits what is booked for it. It
    /// changes nothing, and the only failure is that memory runs out.
    pub fn joined(&self, alloc: Global, segment: SegmentId, part: P) -> Result<P, NoMemory>
        requires within { segment < segments_of self.now }
        requires fits { P.fitting (share_of P.nothing self.now segment) (P.plain part) ≡ true }
        ensures { IfOk result (λ joined. P.plain joined ≡ P.joined (share_of P.nothing self.now segment) (P.plain part)) }
    {
        let place = usize::from(segment.number());
        match &self.booked[place] {
            Some(share) => {
                let mut joined = share.copy(alloc)?;
                joined.join(part)?;
                Ok(joined)
            }
            None => Ok(part),
        }
    }

    /// Makes `joined` the one part that is booked for the segment. It takes no memory.
    pub fn place(&mut self, segment: SegmentId, joined: P)
        requires { segment < segments_of self.old }
        ensures { self.new ≡ with_share self.old segment (P.plain joined) }
    {
        let place = usize::from(segment.number());
        self.booked[place] = Some(joined);
    }

    /// Lends the join of the parts that are booked for the segment. None comes exactly where no part
    /// is. It takes no memory.
    pub fn booked(&self, segment: SegmentId) -> Option<&P>
        requires { segment < segments_of self.now }
        ensures { option_map P.plain (option_copied result) ≡ booked_for self.now segment }
    {
        let place = usize::from(segment.number());
        self.booked[place].as_ref()
    }

    /// The segment is complete. It takes no memory.
    pub fn complete(&mut self, segment: SegmentId)
        requires { segment < segments_of self.old }
        ensures { self.new ≡ with_complete self.old segment }
    {
        let place = usize::from(segment.number());
        self.complete[place] = true;
    }

    /// The least segment that isn't complete. None comes exactly where all are. It takes no memory.
    pub fn missing(&self) -> Option<SegmentId>
        ensures { result ≡ missing_of self.now }
    {
        least_unmarked(&self.complete)
    }

    /// The join of all booked parts, segments ascending. Each of them fits the join of those before
    /// it. The only failure is that memory runs out.
    pub fn outcome(&self, alloc: Global) -> Result<P, NoMemory>
        requires { all_fit P.fitting P.joined P.nothing (shares_of self.now) ≡ true }
        ensures { IfOk result (λ outcome. P.plain outcome ≡ fold P.joined P.nothing (shares_of self.now)) }
    {
        joined_all(alloc, &self.booked)
    }

    /// An equal reduction. The only failure is that memory runs out.
    pub fn copy(&self, alloc: Global) -> Result<Reduction<P>, NoMemory>
        ensures { IfOk result (λ copy. copy ≡ self.now) }
    {
        let booked = copied(alloc, &self.booked)?;
        let complete = self.complete.clone()?;
        Ok(Reduction { booked, complete })
    }
}
