//! A call as it is kept.

ghost use Rattle.std.specs.Prelude.{◌≡◌, ◌+◌, ◌<◌, cond, length, Some, is_none, IfOk, OnErr, OnOk};
ghost use Rattle.std.specs.FinSet as set_of;
ghost use Rattle.std.specs.List.{range_with_len};
ghost use Rattle.std.specs.Option.{option_copied};
ghost use Rattle.cluster_model.specs.Calls.{granted, new_call};
ghost use Rattle.cluster_model.specs.State.{is_exact, is_walk};
ghost use Rattle.cluster_model.specs.Units.{further_items, passing};
ghost use Rattle.seen_keys.specs.Passed.{all_passed};
ghost use Rattle.cluster_calls.specs.Calling.{with_taken};

use crate::feeding::{entries_behind, items_behind};
use crate::taken::{Taken, taken_from};
use crate::unit::Unit;
use grid_base::{Entries, Entry, Items, NoMemory, NodeId, SegmentId, Sequence};
use grid_event::{End, Guarantee, Outcome, Request};
use pipeline_feed::Feed;
use seen_keys::Seen;
use segment_hash::SegmentSet;
use std::alloc::Global;
use std::marker::Model;

/// A call: where it was made and what it asks for; the rounds made, and the numbers of the last
/// round's units; for a walk the entries taken and how many items were given; the segments that are
/// noted as lost; and its outcome once it is answered. Its pipeline was fed the first `fed` entries
/// taken, of which it makes `shown` items: those are all entries, unless memory ran out.
#[derive(Drop)]
pub struct Call {
    originator: NodeId,
    request: Request,
    rounds: u8,
    start: u32,
    count: u32,
    taken: Sequence<Taken>,
    seen: Seen,
    given: u64,
    feed: Feed,
    fed: usize,
    shown: u64,
    lost: SegmentSet,
    outcome: Option<Outcome>,
}

impl Model for Call {
    ghost use Rattle.std.specs.Coded.{codes, coded_ℕ};
    ghost use Rattle.std.specs.FinSet as set_of;
    ghost use Rattle.std.specs.Ordering.{nat_cmp};
    ghost use Rattle.std.specs.List.{range_with_len};
    ghost use Rattle.pipeline_expr.specs.contracts.expr.Expr as exprs;
    ghost use Rattle.cluster_model.specs.State as states;
    ghost use Rattle.cluster_calls.specs.Takings.{IsTaking};

    ghost Value = { states.Call };

    ghost coded = { Prim.hlevel (codes, set_of.code {R = nat_cmp} coded_ℕ, exprs.the_row.coded) };

    ghost view = { λ call. record {
      originator = call.originator;
      request = call.request;
      rounds = call.rounds;
      last_round = range_with_len call.start call.count;
      taken = call.taken.list;
      given = call.given;
      lost = call.lost;
      outcome = call.outcome;
    } };

    ghost invariant = { λ call. IsTaking call.request call.taken.list call.seen call.given call.feed call.fed call.shown };
}

impl Call {
    /// A call that was just made. The only failure is that memory runs out.
    pub(crate) fn new(alloc: Global, originator: NodeId, request: Request) -> Result<Call, NoMemory>
        ensures { IfOk result (λ call. call ≡ new_call originator request) }
    {
        let seen = Seen::new(alloc)?;
        let feed = Feed::new(alloc, &request.pipeline)?;
        Ok(Call {
            originator,
            request,
            rounds: 0,
            start: 1,
            count: 0,
            taken: Sequence::new(alloc),
            seen,
            given: 0,
            feed,
            fed: 0,
            shown: 0,
            lost: SegmentSet::new(),
            outcome: None,
        })
    }

    /// The node at which the call was made.
    pub fn originator(&self) -> NodeId
        ensures { result ≡ self.now.originator }
    {
        self.originator
    }

    /// What the call asks for.
    pub fn request(&self) -> &Request
        ensures { result.now ≡ self.now.request }
    {
        &self.request
    }

    /// How many rounds were made.
    pub fn rounds(&self) -> u8
        ensures { result ≡ self.now.rounds }
    {
        self.rounds
    }

    /// How many rounds are granted: as many as the call states, and one at most once.
    pub fn granted(&self) -> u8
        ensures { result ≡ granted self.now }
    {
        if self.request.guarantee.asks_again() {
            return self.request.rounds;
        }
        1
    }

    /// The number of the first unit of the last round, and how many units that round has.
    pub(crate) fn last_round(&self) -> (u32, u32)
        ensures { self.now.last_round ≡ range_with_len result.0 result.1 }
    {
        (self.start, self.count)
    }

    /// The entries taken, in the order of taking.
    pub fn taken(&self) -> &[Taken]
        ensures { result.now ≡ self.now.taken }
    {
        self.taken.as_slice()
    }

    /// How many items were given.
    pub fn given(&self) -> u64
        ensures { result ≡ self.now.given }
    {
        self.given
    }

    /// The segments that are noted as lost.
    pub fn lost(&self) -> &SegmentSet
        ensures { result.now ≡ self.now.lost }
    {
        &self.lost
    }

    /// The outcome, where the call is answered.
    pub fn outcome(&self) -> Option<&Outcome>
        ensures { option_copied result ≡ self.now.outcome }
    {
        self.outcome.as_ref()
    }

    /// Whether the call isn't answered.
    pub fn is_unanswered(&self) -> bool
        ensures { result ≡ is_none self.now.outcome }
    {
        self.outcome.is_none()
    }

    /// Whether the call is for exactly once.
    pub fn is_exact(&self) -> bool
        ensures { result ≡ is_exact self.now.request.guarantee }
    {
        matches!(self.request.guarantee, Guarantee::Exact)
    }

    /// Whether the call is a walk, which gives its elements one after another.
    pub fn is_walk(&self) -> bool
        ensures { result ≡ is_walk self.now.request }
    {
        matches!(self.request.pipeline.end, End::Each)
    }

    /// One more round is made, of `count` units from the number `start` on.
    pub(crate) fn start_round(&mut self, start: u32, count: u32)
        requires { self.old.rounds < granted self.old }
        ensures { self.new ≡ record self.old { rounds = self.old.rounds + 1; last_round = range_with_len start count } }
    {
        self.rounds += 1;
        self.start = start;
        self.count = count;
    }

    /// The entries of the batch that are taken of it: exactly once those whose keys weren't taken
    /// before from the unit's segment, and else all. The only failure is that memory runs out.
    pub fn passing(&self, alloc: Global, unit: &Unit, batch: &[Entry]) -> Result<Entries, NoMemory>
        ensures { IfOk result (λ entries. entries.list ≡ passing self.now unit.now batch.now) }
    {
        let segment = unit.work().segment;
        let exact = self.is_exact();
        let mut entries = Entries::new(alloc);
        for entry in batch {
            if !exact || !self.seen.passed(segment, &entry.key) {
                entries.push(entry.copy(alloc)?)?;
            }
        }
        Ok(entries)
    }

    /// The items that the pipeline makes of the entries, behind those that were given before. It
    /// evaluates what wasn't fed before. The only failure is that memory runs out.
    pub fn further(&self, alloc: Global, entries: &[Entry]) -> Result<Items, NoMemory>
        ensures { IfOk result (λ items. items.list ≡ further_items self.now entries.now) }
    {
        let unfed = entries_behind(alloc, &self.taken.as_slice()[self.fed..], entries)?;
        let made = self
            .feed
            .further(alloc, &self.request.pipeline, unfed.as_slice())?;
        items_behind(alloc, made, self.given - self.shown)
    }

    /// The entries are taken from the segment, and so many items given, which are those that the
    /// pipeline makes of them. After want of memory the call is as before; more items than 64 bits
    /// count are want of memory.
    pub(crate) fn take(
        &mut self,
        alloc: Global,
        segment: SegmentId,
        entries: &[Entry],
        given: u64,
    ) -> Result<(), NoMemory>
        requires { given ≡ length (further_items self.old entries.now) }
        ensures ok { OnOk result (self.new ≡ with_taken segment entries.now given self.old) }
        ensures err { OnErr result (self.new ≡ self.old) }
    {
        if given > u64::MAX - self.given {
            return Err(NoMemory);
        }
        let more = taken_from(alloc, segment, entries)?;
        self.taken.reserve(more.len())?;
        note_keys(
            &mut self.seen,
            self.request.guarantee,
            alloc,
            segment,
            entries,
        )?;
        if self.taken.append(more).is_err() {
            unreachable!();
        }
        self.given += given;
        self.catch_up(alloc);
        Ok(())
    }

    /// The pipeline is fed the entries taken that it wasn't fed yet. Where memory runs out it stays
    /// behind, and is fed them later.
    fn catch_up(&mut self, alloc: Global)
        ensures { self.new ≡ self.old }
    {
        let Ok(unfed) = entries_behind(alloc, &self.taken.as_slice()[self.fed..], &[]) else {
            return;
        };
        if self
            .feed
            .feed(alloc, &self.request.pipeline, unfed.as_slice())
            .is_err()
        {
            return;
        }
        self.fed = self.taken.len();
        self.shown = self.given;
    }

    /// The call is answered.
    pub(crate) fn answer(&mut self, outcome: Outcome)
        ensures { self.new ≡ record self.old { outcome = Some outcome } }
    {
        self.outcome = Some(outcome);
    }

    /// The segment, which is below 256, is noted as lost.
    pub(crate) fn note(&mut self, segment: SegmentId)
        requires { segment < 256 }
        ensures { self.new ≡ record self.old { lost = set_of.insert self.old.lost segment } }
    {
        self.lost.add(segment);
    }
}

/// The keys of the entries have passed in the segment, where the guarantee is exactly once. After
/// want of memory none has.
fn note_keys(
    seen: &mut Seen,
    guarantee: Guarantee,
    alloc: Global,
    segment: SegmentId,
    entries: &[Entry],
) -> Result<(), NoMemory>
    ensures ok { OnOk result (seen.new ≡ cond (is_exact guarantee) (all_passed seen.old segment entries.now) seen.old) }
    ensures err { OnErr result (seen.new ≡ seen.old) }
{
    match guarantee {
        Guarantee::Exact => seen.pass_each(alloc, segment, entries),
        Guarantee::AtLeast => Ok(()),
        Guarantee::AtMost => Ok(()),
    }
}
