//! The rounds of a call.

ghost use Rattle.std.specs.Prelude.{◌≡◌, ◌≤◌, false, unwrap_or};
ghost use Rattle.suspect_retry.specs.Rounds.{first_rounds, is_spent, closed_at, noted, can_ask, started};

use delivery_mode::Guarantee;
use grid_base::TopologyId;
use local_publisher::UnitState;
use std::marker::Model;

/// How many rounds a call may make and has made, and which topology the originator has to have
/// installed before the next one.
#[derive(Clone, Copy, Debug, PartialEq, Eq)]
pub struct Rounds {
    granted: u8,
    made: u8,
    needed: u32,
}

impl Model for Rounds {
    ghost use Rattle.std.specs.Prelude.{◌≤◌};
    ghost use Rattle.suspect_retry.specs.Progress.{Progress};

    ghost Value = { Progress };

    ghost view = { λ a. record { granted = a.granted; made = a.made; needed = a.needed } };

    ghost invariant = { λ a. a.made ≤ a.granted };

    ghost inverse = { λ v. record { granted = v.granted; made = v.made; needed = v.needed } };
}

impl Rounds {
    /// No round was made yet. `rounds` are granted, and one for an at-most-once call, whatever
    /// `rounds` says.
    pub fn new(guarantee: Guarantee, rounds: u8) -> Rounds
        ensures { result ≡ first_rounds guarantee rounds }
    {
        Rounds {
            granted: if guarantee.asks_again() { rounds } else { 1 },
            made: 0,
            needed: 0,
        }
    }

    /// How many rounds were made.
    pub fn made(&self) -> u8
        ensures { result ≡ self.now.made }
    {
        self.made
    }

    /// Whether all granted rounds were made.
    pub fn spent(&self) -> bool
        ensures spent { result ≡ is_spent self.now }
        ensures within { self.now.made ≤ self.now.granted }
    {
        self.granted <= self.made
    }

    /// Notes the stage of a unit of the last round. One that is refused, or lost by an
    /// installation, holds the next round up until the originator has installed its topology.
    pub fn note(&mut self, state: UnitState)
        ensures { self.new ≡ noted self.old state }
    {
        self.needed = self.needed.max(closed_at(state));
    }

    /// Whether a round is left, and no topology noted since the last round is above the one that
    /// the originator has `installed`.
    pub fn may_ask(&self, installed: TopologyId) -> bool
        ensures { result ≡ can_ask self.now installed }
    {
        if self.granted <= self.made {
            return false;
        }
        self.needed <= installed.number()
    }

    /// A round, which is left, is made. What was noted before no longer counts.
    pub fn start(&mut self)
        requires { is_spent self.old ≡ false }
        ensures { self.new ≡ started self.old }
    {
        self.made += 1;
        self.needed = 0;
    }
}

/// The topology at which a unit was refused or lost by an installation, and 0 for any other unit.
pub fn closed_at(state: UnitState) -> u32
    ensures { result ≡ closed_at state }
{
    match state {
        UnitState::Refused(at) => at.number(),
        UnitState::Lost(at) => lost_at(at),
        UnitState::Asked => 0,
        UnitState::Running => 0,
        UnitState::Ended => 0,
    }
}

/// The topology by whose installation a unit was lost, and 0 where it was lost by a departure.
fn lost_at(at: Option<TopologyId>) -> u32
    ensures { result ≡ unwrap_or at 0 }
{
    match at {
        Some(at) => at.number(),
        None => 0,
    }
}
