//! The laws. None does any work: a call of one hands what it ensures to the caller's proof.

ghost use Rattle.history_members.specs.Laws.{MovesAreTold};

/// The installations and departures of the span of a call that isn't answered are all of them so
/// far but for those before it was made.
pub fn moves_are_told()
    ensures { MovesAreTold }
{}
