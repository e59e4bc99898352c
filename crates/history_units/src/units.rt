//! The table of units.

ghost use Rattle.std.specs.Prelude.{◌≡◌, ◌<◌, ◌∷◌, [], List, None, suc, length, true, MatchOption, OnErr, OnOk};
ghost use Rattle.std.specs.Option.{option_copied};
ghost use Rattle.grid_base.specs.declared.limits.TheConstants.{MOST_EVENTS};
ghost use Rattle.grid_event.specs.declared.config.Config as config_type;
ghost use Rattle.grid_event.specs.declared.event.Event as event_type;
ghost use Rattle.audit_clauses.specs.Shapes.{is_shaped};
ghost use Rattle.history_members.specs.Told.{AreMembersOf};
ghost use Rattle.history_units.specs.Rows.{unit_in};
ghost use Rattle.history_units.specs.Told.{AreUnitsOf, KnowsGone};

use crate::unit::Unit;
use grid_base::{NoMemory, UnitId};
use grid_event::Event;
use history_members::Members;
use std::alloc::Global;
use std::marker::Model;

/// What the events of a history tell of the units that rounds asked for. Contracts see the list of
/// the units, that of number 1 first.
#[derive(Drop)]
pub struct Units {
    pub(crate) rows: Vec<Unit>,
}

impl Model for Units {
    ghost use Rattle.std.specs.Prelude.{List};
    ghost use Rattle.std.specs.Coded.{coded_list};
    ghost use Rattle.history_units.specs.declared.unit.Unit as unit_type;
    ghost use Rattle.history_units.specs.contracts.unit.Unit as unit;

    ghost Value = { List unit_type.Unit };

    ghost coded = { coded_list unit.the_row.coded };

    ghost view = { λ a. a.rows.items };
}

impl Units {
    /// The units before all events. It takes no memory.
    pub fn new(alloc: Global) -> Units
        ensures units { AreUnitsOf [] result }
        ensures gone { (config : config_type.Config) → KnowsGone config [] result }
    {
        Units {
            rows: Vec::new(alloc),
        }
    }

    /// The unit of the number, where one was asked for.
    pub fn get(&self, number: UnitId) -> Option<&Unit>
        ensures { option_copied result ≡ unit_in self.now number }
    {
        match self.row_of(number) {
            Some(row) => self.rows.get(row),
            None => None,
        }
    }

    /// Where the unit of the number stands.
    pub(crate) fn row_of(&self, number: UnitId) -> Option<usize>
        ensures { MatchOption result (unit_in self.now number ≡ None) (λ row. (number ≡ suc row) × (row < length self.now)) }
    {
        let number = number.number() as usize;
        if number == 0 || self.rows.len() < number {
            return None;
        }
        Some(number - 1)
    }

    /// One event more, which fits the events so far and stands behind so many of them; the members
    /// are those before it. The only failure is that memory runs out; the table is as before then.
    pub fn note(
        &mut self,
        alloc: Global,
        members: &Members,
        place: u32,
        event: &Event,
    ) -> Result<(), NoMemory>
        ghost past: { List event_type.Event }
        requires members { AreMembersOf past members.now }
        requires units { AreUnitsOf past self.old }
        requires gone { KnowsGone members.now.config past self.old }
        requires placed { place ≡ length past }
        requires room { place < MOST_EVENTS }
        requires shaped { is_shaped members.now.config past event.now ≡ true }
        ensures units { OnOk result (AreUnitsOf (event.now ∷ past) self.new) }
        ensures gone { OnOk result (KnowsGone members.now.config (event.now ∷ past) self.new) }
        ensures err { OnErr result (self.new ≡ self.old) }
    {
        match event {
            Event::Round(round) => self.ask(alloc, place + 1, round.get())?,
            Event::Begin { unit, runs } => self.begin(members, place + 1, *unit, *runs),
            Event::Scan(scan) => self.scan(place + 1, scan.get().unit)?,
            Event::Done { unit } => self.end(members, *unit),
            _ => {}
        }
        Ok(())
    }
}
