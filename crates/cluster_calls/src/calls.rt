//! The calls of a cluster and their units: what is kept, and the questions about it.

ghost use Rattle.std.specs.Prelude.{◌≡◌, ◌+◌, ◌-◌, ◌<◌, ◌≤◌, ◌^◌, true, Some, drop, is_some, length, nat_le, take};
ghost use Rattle.std.specs.List.{filter, list_all};
ghost use Rattle.std.specs.Option.{option_copied};
ghost use Rattle.cluster_model.specs.Answers.{first_of};
ghost use Rattle.cluster_model.specs.Commands.{is_unanswered, newest_unit, open_units};
ghost use Rattle.cluster_model.specs.State as states;
ghost use Rattle.cluster_model.specs.State.{call_of, is_open_unit, no_calls, unit_of};
ghost use Rattle.cluster_model.specs.Topologies.{is_complete};
ghost use Rattle.cluster_model.specs.Units.{read_by};
ghost use Rattle.suspect_retry.specs.Rounds.{closed_at};
ghost use Rattle.cluster_model.specs.Calls.{all_complete, has_open};
ghost use Rattle.cluster_calls.specs.Calling.{AreNumbered, IsRest, NoneWaits, caught_up, incomplete_from, is_waiting, round_units};

mod booking;
mod losses;
mod reading;
mod rounds;

use crate::call::Call;
use crate::table::Table;
use crate::unit::Unit;
use grid_base::{CallId, SegmentId, TopologyId, UnitId};
use loss_listener::Listeners;
use std::alloc::Global;
use std::marker::Model;
use suspect_retry::closed_at;

/// The calls of a cluster and their units. A unit's number is its place, counted from 1. The open
/// units, and no other, are registered as listeners at their nodes and segments. Of the first `past`
/// units each is closed, or its call is answered, and stays so.
#[derive(Drop)]
pub struct Calls {
    segments: u16,
    units: Vec<Unit>,
    table: Table,
    listeners: Listeners,
    read: u64,
    past: usize,
}

impl Model for Calls {
    ghost use Rattle.std.specs.Coded.{codes, coded_ℕ};
    ghost use Rattle.std.specs.FinMap as map_of;
    ghost use Rattle.std.specs.Ordering.{nat_cmp};
    ghost use Rattle.cluster_calls.specs.contracts.call.Call as call;
    ghost use Rattle.cluster_calls.specs.contracts.unit.Unit as unit;
    ghost use Rattle.cluster_model.specs.State.{Calling};

    ghost Value = { Calling };

    ghost coded = { Prim.hlevel (codes, map_of.code {R = nat_cmp} coded_ℕ call.the_row.coded) };

    ghost use Rattle.cluster_calls.specs.Insides.{IsCalls, calling_of};

    ghost view = { calling_of };

    ghost invariant = { IsCalls };
}

impl Calls {
    /// No calls yet, in a cluster of at most 256 segments. It takes no memory.
    pub fn new(alloc: Global, segments: u16) -> Calls
        requires { segments ≤ 256 }
        ensures { result ≡ no_calls segments }
    {
        Calls {
            segments,
            units: Vec::new(alloc),
            table: Table::new(alloc),
            listeners: Listeners::empty(alloc),
            read: 0,
            past: 0,
        }
    }

    /// The call of that number, where there is one.
    pub fn call(&self, number: CallId) -> Option<&Call>
        ensures { option_copied result ≡ call_of self.now number }
    {
        match self.table.get(number) {
            None => None,
            Some(row) => Some(&row.call),
        }
    }

    /// How many segments there are, at most 256.
    pub fn segments(&self) -> u16
        ensures segments { result ≡ self.now.segments }
        ensures few { self.now.segments ≤ 256 }
    {
        self.segments
    }

    /// All units, in the order of their numbers, of which there are fewer than 2^32.
    pub fn units(&self) -> &[Unit]
        ensures units { result.now ≡ self.now.units }
        ensures numbered { AreNumbered self.now.units }
        ensures few { length self.now.units < 2 ^ 32 }
    {
        self.units.as_slice()
    }

    /// The unit of that number, where there is one. Its call is there.
    pub fn unit(&self, number: UnitId) -> Option<&Unit>
        ensures unit { option_copied result ≡ unit_of self.now number }
        ensures within { (unit : states.Unit) → unit_of self.now number ≡ Some unit → unit.work.segment < self.now.segments }
        ensures called { (unit : states.Unit) → unit_of self.now number ≡ Some unit → is_some (call_of self.now unit.work.call) ≡ true }
    {
        let units = self.units.as_slice();
        if number.number() == 0 {
            return None;
        }
        units.get(place_of(number))
    }

    /// The units of the call's last round, by ascending segment. The open ones among them are all
    /// open units of the call.
    pub fn last_round(&self, number: CallId) -> &[Unit]
        ensures units { (call : states.Call) → call_of self.now number ≡ Some call → result.now ≡ round_units self.now.units call }
        ensures unended { filter is_open_unit result.now ≡ open_units self.now number }
    {
        match self.table.get(number) {
            None => &[],
            Some(row) => {
                let (start, count) = row.call.last_round();
                numbered_on(self.units.as_slice(), start, count)
            }
        }
    }

    /// The units of the call's last round, by ascending segment, without some of the first ones.
    /// Where the call isn't answered, none of those is open.
    pub fn open_round(&self, number: CallId) -> &[Unit]
        ensures { is_unanswered (call_of self.now number) ≡ true → filter is_open_unit result.now ≡ open_units self.now number }
    {
        let round = self.last_round(number);
        let Some(first) = round.first() else {
            return round;
        };
        let before = self.past.saturating_sub(place_of(first.work().id));
        &round[before.min(round.len())..]
    }

    /// The units in the order of their numbers, without some of the first ones: each of those is
    /// closed, or its call is answered.
    pub fn waiting(&self) -> &[Unit]
        ensures { IsRest self.now result.now }
    {
        &self.units.as_slice()[self.past..]
    }

    /// Whether a unit of the call is open.
    pub fn has_open(&self, number: CallId) -> bool
        ensures { result ≡ has_open self.now number }
    {
        match self.table.get(number) {
            None => false,
            Some(row) => row.tally.has_open(),
        }
    }

    /// Whether the segment is complete for the call.
    pub fn is_complete(&self, number: CallId, segment: SegmentId) -> bool
        ensures { result ≡ is_complete self.now.units number segment }
    {
        if segment.number() >= self.segments {
            return false;
        }
        match self.table.get(number) {
            None => false,
            Some(row) => row.tally.is_complete(segment),
        }
    }

    /// Whether every segment is complete for the call.
    pub fn all_complete(&self, number: CallId) -> bool
        ensures { result ≡ all_complete self.now number }
    {
        match self.table.get(number) {
            None => self.segments == 0,
            Some(row) => row.tally.all_complete(),
        }
    }

    /// The least segment, not below this one, that is incomplete for the call.
    pub fn incomplete_from(&self, number: CallId, segment: SegmentId) -> Option<SegmentId>
        ensures { result ≡ first_of (incomplete_from segment (self.now.segments - segment) self.now.units number) }
    {
        for place in segment.number()..self.segments {
            let segment = SegmentId::new(place);
            if !self.is_complete(number, segment) {
                return Some(segment);
            }
        }
        None
    }

    /// The newest unit of the call on the segment, where there is one.
    pub fn newest(&self, number: CallId, segment: SegmentId) -> Option<&Unit>
        ensures { option_copied result ≡ newest_unit self.now number segment }
    {
        if segment.number() >= self.segments {
            return None;
        }
        match self.table.get(number) {
            None => None,
            Some(row) => self.unit(UnitId::new(row.tally.newest(segment))),
        }
    }

    /// Whether the topology with the number `installed` isn't older than any at which a unit of the
    /// call's last round was refused or was lost by an installation.
    pub fn has_caught_up(&self, number: CallId, installed: TopologyId) -> bool
        ensures { (call : states.Call) → call_of self.now number ≡ Some call → result ≡ caught_up self.now.units call installed }
    {
        are_closed_by(self.last_round(number), installed)
    }

    /// How many entries all units have read.
    pub fn read(&self) -> u64
        ensures { result ≡ read_by self.now.units }
    {
        self.read
    }

    /// The units that are closed, or whose calls are answered, are passed over, as far as no other
    /// one stands before them.
    fn move_on(&mut self)
        ensures { self.new ≡ self.old }
    {
        self.past = self.first_waiting();
    }

    /// The place of the first unit that is open and whose call isn't answered; where there is none,
    /// how many units there are.
    fn first_waiting(&self) -> usize
        ensures within { result ≤ length self.now.units }
        ensures none { NoneWaits self.now result }
    {
        let units = self.units.as_slice();
        for place in self.past..units.len() {
            if self.is_waiting(&units[place]) {
                return place;
            }
        }
        units.len()
    }

    /// Whether the unit is open, and its call isn't answered.
    fn is_waiting(&self, unit: &Unit) -> bool
        ensures { result ≡ is_waiting self.now unit.now }
    {
        if !unit.is_open() {
            return false;
        }
        match self.call(unit.call()) {
            None => false,
            Some(call) => call.is_unanswered(),
        }
    }
}

/// So many units, from the one with the number `start` on.
fn numbered_on(units: &[Unit], start: u32, count: u32) -> &[Unit]
    requires positive { 0 < count → 1 ≤ start }
    requires within { 0 < count → start + count ≤ length units.now + 1 }
    ensures { result.now ≡ take count (drop (start - 1) units.now) }
{
    if count == 0 {
        return &[];
    }
    let place = start as usize - 1;
    &units[place..place + count as usize]
}

/// Whether no unit was refused, or lost by an installation, at a later topology than this one.
fn are_closed_by(units: &[Unit], installed: TopologyId) -> bool
    ensures { result ≡ list_all (λ unit. nat_le (closed_at unit.work.state) installed) units.now }
{
    for unit in units {
        if installed.number() < closed_at(unit.state()) {
            return false;
        }
    }
    true
}

/// The place of the unit of that number, which is at least 1.
fn place_of(number: UnitId) -> usize
    ensures { result ≡ number - 1 }
{
    number.number().saturating_sub(1) as usize
}
