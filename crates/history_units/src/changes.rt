//! What each kind of event changes in the table of units.

ghost use Rattle.std.specs.Prelude.{◌≡◌, ◌+◌, ◌<◌, ◌∷◌, ◌++◌, List, length, map, true, OnErr, OnOk};
ghost use Rattle.grid_base.specs.declared.limits.TheConstants.{MOST_EVENTS};
ghost use Rattle.grid_event.specs.declared.event.Event as event_type;
ghost use Rattle.grid_event.specs.declared.event.Event.TheVariants as events;
ghost use Rattle.audit_clauses.specs.Shapes.{is_shaped};
ghost use Rattle.history_members.specs.Told.{AreMembersOf};
ghost use Rattle.history_units.specs.Rows.{HasChanged, asked_unit, begun_unit, ended_unit, refused_unit, scanned_unit};
ghost use Rattle.history_units.specs.Told.{AreUnitsOf, KnowsGone};

use crate::places::Places;
use crate::unit::Unit;
use crate::units::Units;
use grid_base::{NoMemory, UnitId};
use grid_event::RoundEvent;
use history_members::Members;
use std::alloc::Global;

impl Units {
    /// A round asks for its units at the place. The only failure is that memory runs out; the
    /// table is as before then.
    pub(crate) fn ask(
        &mut self,
        alloc: Global,
        place: u32,
        round: &RoundEvent,
    ) -> Result<(), NoMemory>
        ensures ok { OnOk result (self.new ≡ self.old ++ map (asked_unit round.now place) round.now.asks) }
        ensures err { OnErr result (self.new ≡ self.old) }
    {
        self.rows.reserve(round.asks.len())?;
        for ask in round.asks.as_slice() {
            self.rows.push_reserved(Unit {
                call: round.call,
                id: round.id,
                ask: *ask,
                asked: place,
                begun: 0,
                refused: false,
                ended: false,
                gone: false,
                scans: Places::new(alloc),
            });
        }
        Ok(())
    }

    /// The unit begins to run at the place.
    fn run(&mut self, place: u32, number: UnitId)
        ensures { HasChanged number (begun_unit place) self.old self.new }
    {
        let Some(row) = self.row_of(number) else {
            return;
        };
        self.rows[row].begun = place;
    }

    /// The unit is refused, and is gone or isn't.
    fn refuse(&mut self, gone: bool, number: UnitId)
        ensures { HasChanged number (refused_unit gone) self.old self.new }
    {
        let Some(row) = self.row_of(number) else {
            return;
        };
        let unit = &mut self.rows[row];
        unit.refused = true;
        unit.gone = gone;
    }

    /// The unit ends, and is gone or isn't.
    fn close(&mut self, gone: bool, number: UnitId)
        ensures { HasChanged number (ended_unit gone) self.old self.new }
    {
        let Some(row) = self.row_of(number) else {
            return;
        };
        let unit = &mut self.rows[row];
        unit.ended = true;
        unit.gone = gone;
    }

    /// The unit scans at the place. The only failure is that memory runs out; the table is as
    /// before then.
    pub(crate) fn scan(&mut self, place: u32, number: UnitId) -> Result<(), NoMemory>
        ensures ok { OnOk result (HasChanged number (scanned_unit place) self.old self.new) }
        ensures err { OnErr result (self.new ≡ self.old) }
    {
        let Some(row) = self.row_of(number) else {
            return Ok(());
        };
        let unit = &mut self.rows[row];
        unit.scans.push(place)
    }

    /// The unit begins to run at the place, or is refused.
    pub(crate) fn begin(&mut self, members: &Members, place: u32, number: UnitId, runs: bool)
        ghost past: { List event_type.Event }
        requires members { AreMembersOf past members.now }
        requires units { AreUnitsOf past self.old }
        requires gone { KnowsGone members.now.config past self.old }
        requires placed { place ≡ length past + 1 }
        requires shaped { is_shaped members.now.config past (events.Begin number runs) ≡ true }
        ensures units { AreUnitsOf (events.Begin number runs ∷ past) self.new }
        ensures gone { KnowsGone members.now.config (events.Begin number runs ∷ past) self.new }
    {
        if runs {
            self.run(place, number);
        } else {
            let gone = self.is_gone(members, number);
            self.refuse(gone, number);
        }
    }

    /// The unit ends.
    pub(crate) fn end(&mut self, members: &Members, number: UnitId)
        ghost past: { List event_type.Event }
        requires members { AreMembersOf past members.now }
        requires units { AreUnitsOf past self.old }
        requires gone { KnowsGone members.now.config past self.old }
        requires shaped { is_shaped members.now.config past (events.Done number) ≡ true }
        ensures units { AreUnitsOf (events.Done number ∷ past) self.new }
        ensures gone { KnowsGone members.now.config (events.Done number ∷ past) self.new }
    {
        let gone = self.is_gone(members, number);
        self.close(gone, number);
    }
}
