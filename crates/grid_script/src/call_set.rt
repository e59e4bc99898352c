//! Sets of calls.

ghost use Rattle.std.specs.Prelude.{◌≡◌, ◌≤◌, ◌<◌, false, length, slice_index_or, IfOk};
ghost use Rattle.std.specs.FinSet as set;
ghost use Rattle.grid_base.specs.declared.limits.TheConstants.{LAST_CALL};

use grid_base::limits::LAST_CALL;
use grid_base::{CallId, NoMemory};
use std::alloc::Global;
use std::marker::Model;

/// A set of calls, whose numbers are at most 4,096. Contracts see the finite set of the numbers.
#[derive(Debug, Drop)]
pub(crate) struct CallSet {
    marks: Vec<bool>,
}

impl Model for CallSet {
    ghost use Rattle.std.specs.Prelude.{◌≡◌, ◌+◌, vec_len};
    ghost use Rattle.std.specs.Coded.{coded_ℕ};
    ghost use Rattle.std.specs.FinSet as set;
    ghost use Rattle.grid_base.specs.declared.limits.TheConstants.{LAST_CALL};
    ghost use Rattle.grid_script.specs.Marked.{marked_from};
    ghost use Rattle.grid_script.specs.Sets.{Calls};

    ghost Value = { Calls };

    ghost coded = { set.code coded_ℕ };

    ghost view = { λ a. marked_from 0 a.marks.items };

    ghost invariant = { λ a. vec_len a.marks ≡ LAST_CALL + 1 };
}

impl CallSet {
    /// The empty set. The only failure is that memory runs out.
    pub(crate) fn new(alloc: Global) -> Result<CallSet, NoMemory>
        ensures { IfOk result (λ made. made ≡ set.empty) }
    {
        let marks = vec![in alloc; false; LAST_CALL as usize + 1]?;
        Ok(CallSet { marks })
    }

    /// Puts a call in, where it isn't in yet.
    pub(crate) fn add(&mut self, call: CallId)
        requires { call ≤ LAST_CALL }
        ensures { self.new ≡ set.insert self.old call }
    {
        let place = call.number() as usize;
        self.marks[place] = true;
    }

    /// Whether a call is in.
    pub(crate) fn has(&self, call: CallId) -> bool
        requires { call ≤ LAST_CALL }
        ensures { result ≡ set.contains self.now call }
    {
        mark_of(self.marks.as_slice(), call)
    }
}

/// The mark of a call.
fn mark_of(marks: &[bool], call: CallId) -> bool
    requires { call < length marks.now }
    ensures { result ≡ slice_index_or marks.now call false }
{
    marks[call.number() as usize]
}
