//! The answers of calls.

ghost use Rattle.std.specs.Prelude.{◌≡◌, true, None, Some, is_none, IfOk, OnErr, OnOk};
ghost use Rattle.cluster_model.specs.Answers.{answered, can_answer, first_of, given_up, is_whole, outcome_of, whole_outcome};
ghost use Rattle.cluster_model.specs.Calls.{incomplete};
ghost use Rattle.cluster_model.specs.State.{call_of};

use crate::cluster::{Core, first_lost};
use crate::same::same_outcome;
use cluster_calls::Call;
use grid_base::{CallId, NoMemory, SegmentId};
use grid_event::{AnswerEvent, Outcome};
use std::alloc::Global;

impl Core {
    /// Whether the call may be answered so. The only failure is that memory runs out.
    #[tactic(auto, unfolding(cluster_model::specs::Answers::can_answer))]
    pub(crate) fn can_answer(&self, alloc: Global, answer: &AnswerEvent) -> Result<bool, NoMemory>
        ensures { IfOk result (λ may. may ≡ can_answer self.now answer.now) }
    {
        let Some(call) = self.call(answer.call) else {
            return Ok(false);
        };
        if !call.is_unanswered() {
            return Ok(false);
        }
        match self.outcome(alloc, answer.call, call)? {
            None => Ok(false),
            Some(outcome) => Ok(same_outcome(&answer.outcome, &outcome)),
        }
    }

    /// The call is answered. After want of memory the core is as before.
    pub(crate) fn answer(&mut self, alloc: Global, answer: &AnswerEvent) -> Result<(), NoMemory>
        requires { can_answer self.old answer.now ≡ true }
        ensures ok { OnOk result (self.new ≡ record self.old { calling = answered self.old.calling answer.now }) }
        ensures err { OnErr result (self.new ≡ self.old) }
    {
        let outcome = answer.outcome.copy(alloc)?;
        self.calls.answer(answer.call, outcome);
        Ok(())
    }

    /// The outcome of the call, which isn't answered, at this moment. None comes exactly where it has none yet. The only
    /// failure is that memory runs out.
    #[tactic(auto, unfolding(cluster_model::specs::Answers::outcome_of))]
    pub(crate) fn outcome(
        &self,
        alloc: Global,
        number: CallId,
        call: &Call,
    ) -> Result<Option<Outcome>, NoMemory>
        requires there { call_of self.now.calling number ≡ Some call.now }
        requires unanswered { is_none call.now.outcome ≡ true }
        ensures { IfOk result (λ outcome. outcome ≡ outcome_of self.now number call.now) }
    {
        if !self.store.is_live(call.originator()) {
            return Ok(Some(Outcome::OriginatorLeft));
        }
        if let Some(segment) = first_lost(call) {
            return Ok(Some(Outcome::SegmentLost(segment)));
        }
        if self.is_whole(number, call) {
            let outcome = self.whole_outcome(alloc, number, call)?;
            return Ok(Some(outcome));
        }
        Ok(self.given_up(number, call))
    }

    /// Whether every segment is complete for the call; for a call that doesn't ask again, whether its
    /// round was made and no unit is open.
    fn is_whole(&self, number: CallId, call: &Call) -> bool
        requires { call_of self.now.calling number ≡ Some call.now }
        ensures { result ≡ is_whole self.now.calling number call.now }
    {
        if call.request().guarantee.asks_again() {
            return self.all_complete(number);
        }
        if call.rounds() == 0 {
            return false;
        }
        !self.has_open(number)
    }

    /// The outcome of a call that is whole and isn't answered: the value of its pipeline over its
    /// evidence, finished from what is booked, or the end of a walk. The only failure is that memory
    /// runs out.
    fn whole_outcome(&self, alloc: Global, number: CallId, call: &Call) -> Result<Outcome, NoMemory>
        requires there { call_of self.now.calling number ≡ Some call.now }
        requires unanswered { is_none call.now.outcome ≡ true }
        requires whole { is_whole self.now.calling number call.now ≡ true }
        ensures { IfOk result (λ outcome. outcome ≡ whole_outcome self.now.calling number call.now) }
    {
        if call.is_walk() {
            return Ok(Outcome::Ended);
        }
        let answer = self.calls.answer_of(alloc, number)?;
        Ok(Outcome::Value(answer))
    }

    /// The least segment that is incomplete for the call.
    fn first_incomplete(&self, number: CallId) -> Option<SegmentId>
        ensures { result ≡ first_of (incomplete self.now.calling number) }
    {
        self.calls.incomplete_from(number, SegmentId::new(0))
    }

    /// That the call gives up, where it asks again, all granted rounds were made and no unit is open.
    fn given_up(&self, number: CallId, call: &Call) -> Option<Outcome>
        requires { call_of self.now.calling number ≡ Some call.now }
        ensures { result ≡ given_up self.now.calling number call.now (first_of (incomplete self.now.calling number)) }
    {
        if !call.request().guarantee.asks_again() {
            return None;
        }
        if call.rounds() != call.granted() {
            return None;
        }
        if self.has_open(number) {
            return None;
        }
        let suspect = self.first_incomplete(number)?;
        Some(Outcome::Again {
            rounds: call.rounds(),
            suspect,
        })
    }
}
