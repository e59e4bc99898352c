//! What the table of units tells.

ghost use Rattle.std.specs.Prelude.{◌≡◌, ◌+◌, ◌<◌, ◌&&◌, ◌||◌, not, nat_lt, List};
ghost use Rattle.grid_event.specs.UnitHistories.{asker_of, has_begun, has_ended, was_refused};
ghost use Rattle.grid_event.specs.declared.event.Event as event_type;
ghost use Rattle.audit_clauses.specs.Shapes.{are_numbered, units_asked};
ghost use Rattle.history_members.specs.Dates.{departed_at, unread_at};
ghost use Rattle.history_members.specs.Told.{AreMembersOf};
ghost use Rattle.history_units.specs.Asks.{ask_of, is_gone_of};
ghost use Rattle.history_units.specs.Told.{AreUnitsOf, KnowsGone};

use crate::unit::Unit;
use crate::units::Units;
use grid_base::{CallId, UnitId};
use grid_event::Ask;
use history_members::Members;

impl Units {
    /// The call that asked for the unit, where one did.
    pub fn asker(&self, number: UnitId) -> Option<CallId>
        ghost past: { List event_type.Event }
        requires { AreUnitsOf past self.now }
        ensures { result ≡ asker_of past number }
    {
        match self.get(number) {
            Some(unit) => Some(unit.call),
            None => None,
        }
    }

    /// Whether the unit began to run.
    pub fn has_begun(&self, number: UnitId) -> bool
        ghost past: { List event_type.Event }
        requires { AreUnitsOf past self.now }
        ensures { result ≡ has_begun past number }
    {
        match self.get(number) {
            Some(unit) => 0 < unit.begun,
            None => false,
        }
    }

    /// Whether the unit was refused.
    pub fn was_refused(&self, number: UnitId) -> bool
        ghost past: { List event_type.Event }
        requires { AreUnitsOf past self.now }
        ensures { result ≡ was_refused past number }
    {
        match self.get(number) {
            Some(unit) => unit.refused,
            None => false,
        }
    }

    /// Whether the unit ended.
    pub fn has_ended(&self, number: UnitId) -> bool
        ghost past: { List event_type.Event }
        requires { AreUnitsOf past self.now }
        ensures { result ≡ has_ended past number }
    {
        match self.get(number) {
            Some(unit) => unit.ended,
            None => false,
        }
    }

    /// Whether the unit neither began nor was refused.
    pub fn is_waiting(&self, number: UnitId) -> bool
        ghost past: { List event_type.Event }
        requires { AreUnitsOf past self.now }
        ensures { result ≡ (not (has_begun past number) && not (was_refused past number)) }
    {
        !self.has_begun(number) && !self.was_refused(number)
    }

    /// Whether the unit began to run, and hasn't ended.
    pub fn is_running(&self, number: UnitId) -> bool
        ghost past: { List event_type.Event }
        requires { AreUnitsOf past self.now }
        ensures { result ≡ (has_begun past number && not (has_ended past number)) }
    {
        self.has_begun(number) && !self.has_ended(number)
    }

    /// Whether the unit is gone, where one was asked for; the members are those of the same events.
    pub fn is_gone(&self, members: &Members, number: UnitId) -> bool
        ghost past: { List event_type.Event }
        requires members { AreMembersOf past members.now }
        requires units { AreUnitsOf past self.now }
        requires gone { KnowsGone members.now.config past self.now }
        ensures { result ≡ is_gone_of members.now.config past (ask_of past number) }
    {
        match self.get(number) {
            Some(unit) if unit.refused || unit.ended => unit.gone,
            Some(unit) => has_left(members, unit),
            None => false,
        }
    }

    /// Whether the asks are for the next units, in order.
    pub fn fits_asks(&self, asks: &[Ask]) -> bool
        ghost past: { List event_type.Event }
        requires { AreUnitsOf past self.now }
        ensures { result ≡ are_numbered (units_asked past + 1) asks.now }
    {
        let mut next = self.rows.len() as u64 + 1;
        for ask in asks {
            if u64::from(ask.unit.number()) != next {
                return false;
            }
            next += 1;
        }
        true
    }
}

/// Whether the unit's node departed after the unit was asked for, or installed a topology by which
/// it doesn't read the segment after the unit began.
fn has_left(members: &Members, unit: &Unit) -> bool
    ghost past: { List event_type.Event }
    requires members { AreMembersOf past members.now }
    requires segment { unit.now.ask.segment < members.now.config.segments }
    ensures { result ≡ (nat_lt unit.now.asked (departed_at past unit.now.ask.node) || (nat_lt 0 unit.now.begun && nat_lt unit.now.begun (unread_at members.now.config past unit.now.ask.node unit.now.ask.segment))) }
{
    let Ask { segment, node, .. } = unit.ask;
    unit.asked < members.departed_at(node)
        || 0 < unit.begun && unit.begun < members.unread_at(node, segment)
}
