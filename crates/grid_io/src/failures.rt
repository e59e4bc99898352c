//! Calls that are to fail, by their numbers.

ghost use Rattle.std.specs.Prelude.{◌≡◌, ◌≤◌, ◌↔◌, Contains, IsTrue, IsErr, OnOk, OnErr};
ghost use Rattle.grid_io.specs.Failures.{no_calls, FailsNext};
ghost use Rattle.grid_io.specs.Failures.{after_pass, after_fault, with_fault};

use crate::failed::Failed;
use grid_base::Sequence;
use std::marker::Model;

/// Numbers of calls that are to fail, in any order; the first call has number 1.
pub type Calls = Sequence<u32>;

/// The calls that are to fail, how many calls were made, and how many of them failed. Both counts
/// stand still at the greatest unsigned 64 bit number.
#[derive(Debug, Drop)]
pub(crate) struct Failures {
    fails: Calls,
    calls: u64,
    faults: u64,
}

impl Model for Failures {
    ghost use Rattle.grid_io.specs.Failures.{Counts};

    ghost Value = { Counts };

    ghost view = { λ f. record { fails = f.fails.list; calls = f.calls; faults = f.faults } };
}

impl Failures {
    /// No call was made yet.
    pub(crate) fn new(fails: Calls) -> Failures
        ensures { result ≡ no_calls fails.list }
    {
        Failures {
            fails,
            calls: 0,
            faults: 0,
        }
    }

    /// Counts one more call. It fails, and the fault is counted too, exactly where the call's
    /// number is listed.
    pub(crate) fn next_call(&mut self) -> Result<(), Failed>
        ensures fails { IsErr result ↔ FailsNext self.old }
        ensures ok { OnOk result (self.new ≡ after_pass self.old) }
        ensures err { OnErr result (self.new ≡ after_fault self.old) }
        ensures counted { self.old.faults ≤ self.new.faults }
    {
        self.calls = self.calls.saturating_add(1);
        if is_listed(self.fails.as_slice(), self.calls) {
            return Err(self.fault());
        }
        Ok(())
    }

    /// Counts a fault of the present call.
    pub(crate) fn fault(&mut self) -> Failed
        ensures after { self.new ≡ with_fault self.old }
        ensures counted { self.old.faults ≤ self.new.faults }
    {
        self.faults = self.faults.saturating_add(1);
        Failed
    }
}

// Whether the call's number is in the list.
fn is_listed(fails: &[u32], call: u64) -> bool
    ensures { IsTrue result ↔ Contains fails.now call }
{
    fails.iter().any(|number| u64::from(*number) == call)
}
