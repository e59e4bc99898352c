//! The laws. None does any work: a call of one hands what it ensures to the caller's proof.

ghost use Rattle.cluster_laws.specs.Laws.{
  AnsweredCallsStay,
  AnswersAreRight,
  CallsAreTold,
  CopiesHold,
  EventsKeepAll,
  EventsTellTheState,
  NoCallIsStuck,
  OneUnitStands,
  OutcomesAreCaused,
  StagesAreTold,
};
ghost use Rattle.cluster_laws.specs.Settled.{SettledIsAimed};
ghost use Rattle.cluster_model.specs.Completion.{Completion};

/// In every run of a cluster whose settings are in their limits, each live holder of a segment by
/// the newest topology has exactly the cluster map's part of it, with all deadlines; and each live
/// node that reads a segment by the topology that it has installed is such a holder.
pub fn copies_hold()
    ensures { CopiesHold }
{}

/// In every such run the live nodes, the newest topology, the topologies that nodes have
/// installed and the clock are those that the events alone tell.
pub fn events_tell_the_state()
    ensures { EventsTellTheState }
{}

/// In every such run all parts stand that each event keeps.
pub fn events_keep_all()
    ensures { EventsKeepAll }
{}

/// In every such run each unit that runs or has ended has read, once, each entry of its segment
/// that stood from its begin on and whose key isn't past the last key read; and nothing that stood
/// so is past the last key once the last batch was read.
pub fn units_are_completed()
    ensures { Completion }
{}

/// In every such run a unit's stage is Refused, Lost or Ended exactly where the events say that it
/// was refused, is gone or has ended; and an unanswered call that asks again has noted as lost
/// exactly the segments that a departure since it was made lost before they had ended for it.
pub fn stages_are_told()
    ensures { StagesAreTold }
{}

/// In every such run the outcome of each answered call is the first cause that applies to what went
/// before the answer, with what is further said of it. A call that asks again, and in whose span
/// nothing moved, is answered by a value or by its end; and a call with more rounds than one plus
/// what moved for it doesn't give up.
pub fn outcomes_are_caused()
    ensures { OutcomesAreCaused }
{}

/// After every such run that a journal holds, with at most 1,000,000 events and at most 2,000,000
/// entries and items, Drive of an unanswered call has an event, and Advance has one until the
/// topology is settled, and also as long as a live node reaches no live reader of some segment.
pub fn no_call_is_stuck()
    ensures { NoCallIsStuck }
{}

/// After every such run of at most 1,000,000 events, where the topology is settled the current hash
/// is the one that a rebalance leads to: with `hash create` that of the formula for the live nodes;
/// with `hash least` one that the live nodes lead evenly, in which each segment has as many owners
/// as the settings say or as there are live nodes, and from which nothing would move.
pub fn settled_is_aimed()
    ensures { SettledIsAimed }
{}

/// In every such run a call has at most one open unit on a segment, and none on a segment on which
/// a unit of it has ended.
pub fn one_unit_stands()
    ensures { OneUnitStands }
{}

/// In every such run the events tell what the cluster has of calls: what a call asks for, its
/// rounds, outcome, evidence, entries taken and number of items given, the units that its rounds
/// asked for, and the segments that are complete for it.
pub fn calls_are_told()
    ensures { CallsAreTold }
{}

/// In every such run an event after the answer of a call changes nothing of what is told of it: its
/// span, outcome, evidence, items given, rounds made and segments ended.
pub fn answered_calls_stay()
    ensures { AnsweredCallsStay }
{}

/// In every such run the answers of every call are right. A value is the plain pipeline over the
/// call's evidence, and a walk that ended has given the plain pipeline's list; in both cases the
/// evidence keeps what the call's guarantee says. And after each take the items given so far are
/// the plain pipeline's list of the entries taken so far, each of which was held in the call, and
/// none twice but for at least once.
pub fn answers_are_right()
    ensures { AnswersAreRight }
{}
