//! The calls by number.

ghost use Rattle.std.specs.Prelude.{◌≡◌, ◌<◌, ◌^◌, true, not, cond, length, Some, is_none, ◌&&◌, OnErr, OnOk};
ghost use Rattle.std.specs.FinMap as map_of;
ghost use Rattle.std.specs.FinSet as set_of;
ghost use Rattle.std.specs.List.{filter};
ghost use Rattle.std.specs.Option.{option_copied};
ghost use Rattle.cluster_model.specs.Topologies.{all_noted};
ghost use Rattle.cluster_model.specs.Units.{further_items};
ghost use Rattle.cluster_calls.specs.Calling.{is_one};
ghost use Rattle.cluster_calls.specs.Rows.{MayAsk, changes_row, each_row, may_close, may_end_one, notes, with_outcome, with_row_asks, with_row_end, with_row_taken, with_row_without_open};

use crate::call::Call;
use crate::parts::book;
use crate::row::Row;
use crate::tally::Tally;
use grid_base::{CallId, Entry, NoMemory, SegmentId};
use grid_event::{Ask, Outcome};
use indexmap::IndexMap;
use pipeline_split::Piece;
use segment_hash::SegmentSet;
use std::alloc::Global;
use std::marker::Model;

/// The calls with their tallies, by the calls' numbers. Contracts see the finite map.
#[derive(Drop)]
pub struct Table {
    rows: IndexMap<u32, Row>,
}

impl Model for Table {
    ghost use Rattle.std.specs.Coded.{codes, coded_ℕ};
    ghost use Rattle.std.specs.FinMap as map_of;
    ghost use Rattle.std.specs.FinSet as set_of;
    ghost use Rattle.std.specs.List.{filter};
    ghost use Rattle.std.specs.Ordering.{nat_cmp};
    ghost use Rattle.cluster_calls.specs.contracts.row.Row as row;
    ghost use Rattle.cluster_calls.specs.Rows.{Rows};

    ghost Value = { Rows };

    ghost coded = { map_of.code {R = nat_cmp} coded_ℕ row.the_row.coded };

    ghost view = { λ a. map_of.from_entries a.rows.entries };
}

impl Table {
    /// No calls. It takes no memory.
    pub(crate) fn new(alloc: Global) -> Table
        ensures { result ≡ map_of.empty }
    {
        Table {
            rows: IndexMap::new(alloc),
        }
    }

    /// The row of the call, where the call is there.
    pub(crate) fn get(&self, number: CallId) -> Option<&Row>
        ensures { option_copied result ≡ map_of.get self.now number }
    {
        self.rows.get(&number.number())
    }

    /// Puts the row of the call. After want of memory all is as before.
    pub(crate) fn insert(&mut self, number: CallId, row: Row) -> Result<(), NoMemory>
        ensures ok { OnOk result (self.new ≡ map_of.insert self.old number row) }
        ensures err { OnErr result (self.new ≡ self.old) }
    {
        self.rows.insert(number.number(), row)?;
        Ok(())
    }

    /// A round of the call asks for these units, which are numbered on from `start`.
    pub(crate) fn ask(&mut self, number: CallId, start: u32, asks: &[Ask])
        requires may { (row : Row) → map_of.get self.old number ≡ Some row → MayAsk asks.now row }
        requires few { length asks.now < 2 ^ 32 }
        ensures { self.new ≡ changes_row number (with_row_asks start asks.now) self.old }
    {
        if let Some(row) = self.rows.get_mut(&number.number()) {
            row.call.start_round(start, asks.len() as u32);
            row.tally.ask(asks);
            return;
        }
    }

    /// An open unit of the call is open no longer, and its segment isn't complete by it. Where
    /// there is a piece, it is booked for the segment.
    pub(crate) fn close(&mut self, number: CallId, segment: SegmentId, made: Option<Piece>)
        requires { is_one (may_close segment) (map_of.get self.old number) ≡ true }
        ensures { self.new ≡ changes_row number (with_row_without_open segment made) self.old }
    {
        if let Some(row) = self.rows.get_mut(&number.number()) {
            row.tally.close();
            book(&mut row.parts, segment, made);
            return;
        }
    }

    /// An open unit of the call has ended, by which its segment, which is below 256, is complete.
    /// Where there is a piece, it is booked for the segment.
    pub(crate) fn end(&mut self, number: CallId, segment: SegmentId, made: Option<Piece>)
        requires some { is_one (may_end_one segment) (map_of.get self.old number) ≡ true }
        requires within { segment < 256 }
        ensures { self.new ≡ changes_row number (with_row_end segment made) self.old }
    {
        if let Some(row) = self.rows.get_mut(&number.number()) {
            row.tally.end(segment);
            book(&mut row.parts, segment, made);
            return;
        }
    }

    /// The call takes the entries from the segment, and so many items are given, which are those
    /// that its pipeline makes of them. After want of memory all is as before.
    pub(crate) fn take(
        &mut self,
        alloc: Global,
        number: CallId,
        segment: SegmentId,
        entries: &[Entry],
        given: u64,
    ) -> Result<(), NoMemory>
        requires { (row : Row) → map_of.get self.old number ≡ Some row → given ≡ length (further_items row.call entries.now) }
        ensures ok { OnOk result (self.new ≡ changes_row number (with_row_taken segment entries.now given) self.old) }
        ensures err { OnErr result (self.new ≡ self.old) }
    {
        if let Some(row) = self.rows.get_mut(&number.number()) {
            return row.call.take(alloc, segment, entries, given);
        }
        Ok(())
    }

    /// The call is answered, and nothing is booked for it any longer.
    pub(crate) fn answer(&mut self, number: CallId, outcome: Outcome)
        ensures { self.new ≡ changes_row number (with_outcome outcome) self.old }
    {
        if let Some(row) = self.rows.get_mut(&number.number()) {
            row.call.answer(outcome);
            row.parts = None;
            return;
        }
    }

    /// Each call that isn't answered and asks again notes those of the lost segments that aren't
    /// complete for it.
    pub(crate) fn note(&mut self, lost: &SegmentSet)
        ensures { self.new ≡ each_row (notes lost.now) self.old }
    {
        self.rows.retain(|_number, row| noted(row, lost));
    }
}

/// Notes the losses in a row, which stays.
fn noted(row: &mut Row, lost: &SegmentSet) -> bool
    ensures stays { result ≡ true }
    ensures noted { row.new ≡ notes lost.now row.old }
{
    if !row.call.is_unanswered() {
        return true;
    }
    if !row.call.request().guarantee.asks_again() {
        return true;
    }
    note_all(&mut row.call, &row.tally, lost);
    true
}

/// The call notes those of the lost segments that aren't complete by the tally.
fn note_all(call: &mut Call, tally: &Tally, lost: &SegmentSet)
    ensures { call.new ≡ record call.old { lost = all_noted (filter (λ segment. not (set_of.contains tally.now.complete segment)) (set_of.items lost.now)) call.old.lost } }
{
    let Some(first) = lost.next_from(SegmentId::new(0)) else {
        return;
    };
    for number in first.number()..256 {
        note_one(call, tally, lost, SegmentId::new(number));
    }
}

/// The call notes the segment, which is below 256, where it is lost and isn't complete by the
/// tally.
fn note_one(call: &mut Call, tally: &Tally, lost: &SegmentSet, segment: SegmentId)
    requires { segment < 256 }
    ensures { call.new ≡ record call.old { lost = cond (set_of.contains lost.now segment && not (set_of.contains tally.now.complete segment)) (set_of.insert call.old.lost segment) call.old.lost } }
{
    if !lost.has(segment) {
        return;
    }
    if tally.is_complete(segment) {
        return;
    }
    call.note(segment);
}
