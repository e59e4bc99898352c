//! What is booked of the units of a reduction.

ghost use Rattle.std.specs.Prelude.{◌≡◌, ◌<◌, true, length, IfOk, OnOk, unwrap_or};
ghost use Rattle.std.specs.Option.{option_copied};
ghost use Rattle.pipeline_split.specs.Pieces.{finished, fitting, joined, piece};
ghost use Rattle.reduce_cluster.specs.Reduced.{booked_for, segments_of, share_of};
ghost use Rattle.cluster_calls.specs.Parts.{all_joined, is_within, made_parts, no_parts, with_booking, with_part};

use grid_base::{Entries, NoMemory, SegmentId};
use grid_event::{End, Request};
use pipeline_expr::Answer;
use pipeline_split::{Local, Piece, Remote, finish, piece_of, split};
use reduce_cluster::Reduction;
use std::alloc::Global;

/// The halves of a reduction's pipeline, and by segment the piece of what units read there, of
/// those that ended, and of lost ones too where the guarantee keeps what they read.
#[derive(Drop)]
pub(crate) struct Parts {
    remote: Remote,
    local: Local,
    booked: Reduction<Piece>,
}

impl Parts {
    /// Nothing is booked for any of so many segments. The only failure is that memory runs out.
    fn new(alloc: Global, segments: u16, request: &Request) -> Result<Parts, NoMemory>
        ensures { IfOk result (λ parts. parts ≡ no_parts segments request.now) }
    {
        let (remote, local) = split(alloc, &request.pipeline)?;
        let booked = Reduction::new(alloc, segments)?;
        Ok(Parts {
            remote,
            local,
            booked,
        })
    }

    /// Lends what is booked for the segment. It takes no memory.
    pub(crate) fn booked(&self, segment: SegmentId) -> Option<&Piece>
        requires { segment < segments_of self.now.booked }
        ensures { option_copied result ≡ booked_for self.now.booked segment }
    {
        self.booked.booked(segment)
    }

    /// What is booked for the segment, with the piece of these entries behind it. The only failure
    /// is that memory runs out; a piece that doesn't fit, as no piece of a typed pipeline, is want
    /// of memory.
    pub(crate) fn with_entries(
        &self,
        alloc: Global,
        segment: SegmentId,
        entries: &Entries,
    ) -> Result<Piece, NoMemory>
        requires { segment < segments_of self.now.booked }
        ensures { IfOk result (λ more. more ≡ joined (share_of Piece.Nothing self.now.booked segment) (piece self.now.remote entries.now.list)) }
    {
        let made = piece_of(alloc, &self.remote, entries)?;
        self.with_piece(alloc, segment, made)
    }

    /// What is booked for the segment, with this piece behind it. The only failure is that memory
    /// runs out; a piece that doesn't fit, as no piece of a typed pipeline, is want of memory.
    pub(crate) fn with_piece(
        &self,
        alloc: Global,
        segment: SegmentId,
        made: Piece,
    ) -> Result<Piece, NoMemory>
        requires { segment < segments_of self.now.booked }
        ensures { IfOk result (λ more. more ≡ joined (share_of Piece.Nothing self.now.booked segment) made) }
    {
        if !self.fits(segment, &made) {
            return Err(NoMemory);
        }
        self.booked.joined(alloc, segment, made)
    }

    /// Whether the piece fits what is booked for the segment.
    fn fits(&self, segment: SegmentId, made: &Piece) -> bool
        requires { segment < segments_of self.now.booked }
        ensures { result ≡ fitting (share_of Piece.Nothing self.now.booked segment) made.now }
    {
        match self.booked(segment) {
            None => true,
            Some(share) => share.fits(made),
        }
    }

    /// The piece is the one that is booked for the segment. It takes no memory.
    fn place(&mut self, segment: SegmentId, made: Piece)
        requires { segment < segments_of self.old.booked }
        ensures { self.new ≡ with_part segment made self.old }
    {
        self.booked.place(segment, made);
    }

    /// The answer of the pieces that are booked for the segments, of which there are so many. The
    /// only failure is that memory runs out; pieces that don't fit, as none of a typed pipeline,
    /// are want of memory.
    pub(crate) fn answer(&self, alloc: Global, segments: u16) -> Result<Answer, NoMemory>
        requires wide { segments_of self.now.booked ≡ segments }
        requires long { length self.now.booked.booked ≡ segments }
        ensures { IfOk result (λ answer. answer ≡ finished self.now.local (all_joined Piece.Nothing self.now.booked.booked)) }
    {
        let all = self.all(alloc, segments)?;
        finish(alloc, &self.local, all)
    }

    /// The join of the pieces that are booked for the segments, ascending.
    fn all(&self, alloc: Global, segments: u16) -> Result<Piece, NoMemory>
        requires wide { segments_of self.now.booked ≡ segments }
        requires long { length self.now.booked.booked ≡ segments }
        ensures { IfOk result (λ all. all ≡ all_joined Piece.Nothing self.now.booked.booked) }
    {
        let mut all = Piece::empty();
        for segment in 0..segments {
            put_behind(alloc, &mut all, self.booked(SegmentId::new(segment)))?;
        }
        Ok(all)
    }
}

/// Puts a share, where there is one, behind a piece.
fn put_behind(alloc: Global, all: &mut Piece, share: Option<&Piece>) -> Result<(), NoMemory>
    ensures { OnOk result (all.new ≡ joined all.old (unwrap_or (option_copied share.entry) Piece.Nothing)) }
{
    let Some(share) = share else {
        return Ok(());
    };
    if !all.fits(share) {
        return Err(NoMemory);
    }
    let more = share.copy(alloc)?;
    all.join(more)
}

/// What is kept of a request that was just made: of a walk nothing, and of a reduction that nothing
/// is booked. The only failure is that memory runs out.
pub(crate) fn made_parts(
    alloc: Global,
    segments: u16,
    request: &Request,
) -> Result<Option<Parts>, NoMemory>
    ensures { IfOk result (λ parts. parts ≡ made_parts segments request.now) }
{
    if matches!(request.pipeline.end, End::Each) {
        return Ok(None);
    }
    let parts = Parts::new(alloc, segments, request)?;
    Ok(Some(parts))
}

/// Where there is a piece and pieces are booked, it is the one that is booked for the segment. It
/// takes no memory.
pub(crate) fn book(parts: &mut Option<Parts>, segment: SegmentId, made: Option<Piece>)
    requires { is_within segment parts.old ≡ true }
    ensures { parts.new ≡ with_booking segment made parts.old }
{
    let Some(made) = made else {
        return;
    };
    if let Some(parts) = parts {
        parts.place(segment, made);
    }
}
