//! How a call ends.

ghost use Rattle.std.specs.Prelude.{◌≡◌, IfOk, IsTrue, ◌↔◌};
ghost use Rattle.grid_event.specs.Weights.{items_in};

use grid_base::{Duplicate, NoMemory, SegmentId};
use pipeline_expr::Answer;
use std::alloc::Global;

/// How a call ends.
#[derive(Debug, Drop)]
pub enum Outcome {
    /// The call is answered by a value.
    Value(Answer),
    /// The call has handed on all its elements one after another.
    Ended,
    /// The rounds were used up, and a segment isn't complete yet, the suspect.
    Again {
        /// How many rounds the call has made.
        rounds: u8,
        /// The first segment that isn't complete.
        suspect: SegmentId,
    },
    /// The segment has lost its entries.
    SegmentLost(SegmentId),
    /// The node at which the call was made has left.
    OriginatorLeft,
}

impl Outcome {
    /// How many items an answered list has; 0 for every other outcome.
    pub(crate) fn items(&self) -> usize
        ensures { result ≡ items_in self.now }
    {
        match self {
            Outcome::Value(Answer::List(items)) => items.len(),
            _ => 0,
        }
    }

    /// An equal outcome. The only failure is that memory runs out.
    pub fn copy(&self, alloc: Global) -> Result<Outcome, NoMemory>
        ensures { IfOk result (λ copy. copy ≡ self.now) }
    {
        match self {
            Outcome::Value(answer) => Ok(Outcome::Value(answer.copy(alloc)?)),
            Outcome::Ended => Ok(Outcome::Ended),
            Outcome::Again { rounds, suspect } => Ok(Outcome::Again {
                rounds: *rounds,
                suspect: *suspect,
            }),
            Outcome::SegmentLost(segment) => Ok(Outcome::SegmentLost(*segment)),
            Outcome::OriginatorLeft => Ok(Outcome::OriginatorLeft),
        }
    }

    /// Whether the outcomes are equal.
    pub fn same(&self, other: &Outcome) -> bool
        ensures { IsTrue result ↔ (self.now ≡ other.now) }
    {
        match (self, other) {
            (Outcome::Value(a), Outcome::Value(b)) => a.same(b),
            (Outcome::Ended, Outcome::Ended) => true,
            (
                Outcome::Again {
                    rounds: a,
                    suspect: s,
                },
                Outcome::Again {
                    rounds: b,
                    suspect: t,
                },
            ) => a == b && s == t,
            (Outcome::SegmentLost(a), Outcome::SegmentLost(b)) => a == b,
            (Outcome::OriginatorLeft, Outcome::OriginatorLeft) => true,
            _ => false,
        }
    }
}

impl Duplicate for Outcome {
    fn copy(&self, alloc: Global) -> Result<Outcome, NoMemory> {
        Outcome::copy(self, alloc)
    }
}
