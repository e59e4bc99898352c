//! The laws. None does any work: a call of one hands what it ensures to the caller's proof.

ghost use Rattle.history_units.specs.Laws.{AsksAreUnits, GoneIsDated, PlacesTellEvents, ScansTellEntries};

/// A unit that was neither refused nor ended is gone where its node departed after the unit was
/// asked for, or installed a topology by which it doesn't read the segment after the unit began.
pub fn gone_is_dated()
    ensures { GoneIsDated }
{}

/// The entries that a unit scanned are those of the events at the places of its scans.
pub fn scans_tell_entries()
    ensures { ScansTellEntries }
{}

/// The events of a history have the places from 1 on.
pub fn places_tell_events()
    ensures { PlacesTellEvents }
{}

/// Each ask of each round is that of its unit.
pub fn asks_are_units()
    ensures { AsksAreUnits }
{}
