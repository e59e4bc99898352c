//! What becomes of a unit: it begins, it reads, its batches are taken, it ends.

ghost use Rattle.std.specs.Prelude.{◌≡◌, ◌+◌, ◌≤◌, true, length, slice_get, Some, is_some, OnErr, OnOk};
ghost use Rattle.grid_base.specs.declared.limits.TheConstants.{MOST_READ};
ghost use Rattle.local_publisher.specs.Units.{begun, ended, extended};
ghost use Rattle.pipeline_split.specs.Halves.{remote_of};
ghost use Rattle.pipeline_split.specs.Pieces as pieces;
ghost use Rattle.cluster_model.specs.State as states;
ghost use Rattle.cluster_model.specs.Units.{further_items, read_by};
ghost use Rattle.cluster_calls.specs.Parts.{booking_in};
ghost use Rattle.cluster_model.specs.State.{call_of, unit_of};
ghost use Rattle.cluster_calls.specs.Calling.{changes_unit, flies, is_one, may_begin, may_end, may_read, taking_of};

use crate::calls::{Calls, place_of};
use grid_base::{Batch, Entry, NoMemory, TopologyId, UnitId};
use pipeline_split::Piece;
use std::alloc::Global;

impl Calls {
    /// The unit, which is asked, and not by a later topology than `at`, runs, or it is refused at
    /// the topology `at`.
    pub fn begin(&mut self, unit: UnitId, runs: bool, at: TopologyId)
        requires { is_one (may_begin at) (unit_of self.old unit) ≡ true }
        ensures { self.new ≡ changes_unit unit (λ u. record u { work = begun u.work runs at }) self.old }
    {
        let place = place_of(unit);
        let unit = &mut self.units[place];
        let (id, call, segment) = (unit.id(), unit.call(), unit.segment());
        unit.begin(runs, at);
        if !runs {
            self.table.close(call, segment, None);
            self.listeners.end(id);
            self.move_on();
        }
    }

    /// The unit, which runs and has more to read, has read the batch. After want of memory all is
    /// as before.
    pub fn scan(&mut self, unit: UnitId, batch: Batch) -> Result<(), NoMemory>
        requires may { is_one may_read (unit_of self.old unit) ≡ true }
        requires few { read_by self.old.units + length batch.entries ≤ MOST_READ }
        ensures ok { OnOk result (self.new ≡ changes_unit unit (λ u. record u { work = extended u.work batch }) self.old) }
        ensures err { OnErr result (self.new ≡ self.old) }
    {
        let place = place_of(unit);
        let more = batch.entries.len() as u64;
        let unit = &mut self.units[place];
        unit.scan(batch)?;
        self.read += more;
        Ok(())
    }

    /// The unit, which runs and has more to read, has read the batch, which flies. After want of
    /// memory all is as before.
    pub fn fetch(&mut self, unit: UnitId, batch: Batch) -> Result<(), NoMemory>
        requires may { is_one may_read (unit_of self.old unit) ≡ true }
        requires few { read_by self.old.units + length batch.entries ≤ MOST_READ }
        ensures ok { OnOk result (self.new ≡ changes_unit unit (λ u. record { work = extended u.work batch; flying = Some batch.entries }) self.old) }
        ensures err { OnErr result (self.new ≡ self.old) }
    {
        let place = place_of(unit);
        let more = batch.entries.len() as u64;
        let unit = &mut self.units[place];
        unit.fetch(batch)?;
        self.read += more;
        Ok(())
    }

    /// What flies of the unit is taken: its call takes the entries, and so many items are given,
    /// which are those that its pipeline makes of them. After want of memory all is as before; more
    /// items than 64 bits count are want of memory.
    pub fn take(
        &mut self,
        alloc: Global,
        unit: UnitId,
        entries: &[Entry],
        given: u64,
    ) -> Result<(), NoMemory>
        requires flies { is_one flies (unit_of self.old unit) ≡ true }
        requires given { (u : states.Unit) (call : states.Call) → unit_of self.old unit ≡ Some u → call_of self.old u.work.call ≡ Some call → given ≡ length (further_items call entries.now) }
        ensures ok { OnOk result (self.new ≡ taking_of unit entries.now given (unit_of self.old unit) self.old) }
        ensures err { OnErr result (self.new ≡ self.old) }
    {
        let place = place_of(unit);
        let read = &self.units[place];
        let (call, segment) = (read.call(), read.segment());
        self.table.take(alloc, call, segment, entries, given)?;
        let unit = &mut self.units[place];
        unit.land();
        Ok(())
    }

    /// The unit, which has read its last batch, has ended: its segment is complete for its call,
    /// and of a reduction the piece of what the unit read is booked. After want of memory all is as
    /// before.
    pub fn end(&mut self, alloc: Global, unit: UnitId) -> Result<(), NoMemory>
        requires { is_one may_end (unit_of self.old unit) ≡ true }
        ensures ok { OnOk result (self.new ≡ changes_unit unit (λ u. record u { work = ended u.work }) self.old) }
        ensures err { OnErr result (self.new ≡ self.old) }
    {
        let made = self.booking(alloc, self.placed(unit))?;
        self.end_booked(unit, made);
        Ok(())
    }

    /// The unit, which has read its last batch, has ended, and of a reduction this piece, which is
    /// that of what the unit read, is booked. After want of memory all is as before.
    pub fn end_with(&mut self, alloc: Global, unit: UnitId, piece: Piece) -> Result<(), NoMemory>
        requires may { is_one may_end (unit_of self.old unit) ≡ true }
        requires piece { (u : states.Unit) (call : states.Call) → unit_of self.old unit ≡ Some u → call_of self.old u.work.call ≡ Some call → piece ≡ pieces.piece (remote_of call.request.pipeline) u.work.entries }
        ensures ok { OnOk result (self.new ≡ changes_unit unit (λ u. record u { work = ended u.work }) self.old) }
        ensures err { OnErr result (self.new ≡ self.old) }
    {
        let made = self.booking_with(alloc, self.placed(unit), piece)?;
        self.end_booked(unit, made);
        Ok(())
    }

    /// The place of the unit of that number, which is there.
    fn placed(&self, unit: UnitId) -> usize
        requires { is_some (unit_of self.now unit) ≡ true }
        ensures { slice_get self.now.units result ≡ unit_of self.now unit }
    {
        let _units = self.units.as_slice();
        place_of(unit)
    }

    /// The unit, which has read its last batch, has ended, and this is booked for its segment.
    fn end_booked(&mut self, unit: UnitId, made: Option<Piece>)
        requires may { is_one may_end (unit_of self.old unit) ≡ true }
        requires made { (u : states.Unit) → unit_of self.old unit ≡ Some u → made ≡ booking_in self.old (record u { work = ended u.work }) }
        ensures { self.new ≡ changes_unit unit (λ u. record u { work = ended u.work }) self.old }
    {
        let place = place_of(unit);
        let unit = &mut self.units[place];
        let (id, call, segment) = (unit.id(), unit.call(), unit.segment());
        unit.end();
        self.table.end(call, segment, made);
        self.listeners.end(id);
        self.move_on();
    }
}
