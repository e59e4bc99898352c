//! Laws of the definitions, for proofs of others. The functions do nothing.

ghost use Rattle.cluster_model.specs.Laws.{CausesExcludeOneAnother, ChosenEventsMayHappen, EvidenceIsItsOwn, MapIsKeyByKey, OthersStay, StepsAreFunctional};

/// The event that a command chooses may happen.
pub fn chosen_events_may_happen()
    ensures { ChosenEventsMayHappen }
{}

/// An event has at most one state after it, and has one exactly where it may happen.
pub fn steps_are_functional()
    ensures { StepsAreFunctional }
{}

/// Each part of the state is changed by its kinds of events alone.
pub fn others_stay()
    ensures { OthersStay }
{}

/// What each event makes of the cluster's map, key by key.
pub fn map_is_key_by_key()
    ensures { MapIsKeyByKey }
{}

/// The evidence of a call has what its own units read, and nothing else.
pub fn evidence_is_its_own()
    ensures { EvidenceIsItsOwn }
{}

/// Two outcomes that are caused by the same past name the same cause.
pub fn causes_exclude_one_another()
    ensures { CausesExcludeOneAnother }
{}
