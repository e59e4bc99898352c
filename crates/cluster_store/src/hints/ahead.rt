//! Which topology may follow.

ghost use Rattle.std.specs.Prelude.{◌≡◌, false, IfSome};
ghost use Rattle.topology_coord.specs.Following.{cancels};
ghost use Rattle.cluster_store.specs.Hints.{IsAhead, gives_up};

use std::alloc::Global;
use topology_coord::Coord;
use topology_phase::{Phase, Topology};

/// What is known of the topology that follows the newest one.
#[derive(Clone, Copy, Debug)]
pub(crate) enum Ahead {
    /// Nothing.
    Unknown,
    /// It doesn't give up a rebalance, whether receivers have their copies or not.
    NoCancellation,
    /// There is none until receivers have their copies, and then it doesn't give up a rebalance.
    AwaitsCopies,
    /// There is none, whether receivers have their copies or not.
    NoTopology,
}

impl Ahead {
    /// What is known with this coordinator: nothing where memory runs out.
    pub(crate) fn of(alloc: Global, coord: &Coord) -> Ahead
        ensures { IsAhead result coord.now }
    {
        let Ok(copied) = coord.next_topology(alloc, true) else {
            return Ahead::Unknown;
        };
        let Ok(uncopied) = coord.next_topology(alloc, false) else {
            return Ahead::Unknown;
        };
        if gives_up(coord, &copied) || gives_up(coord, &uncopied) {
            return Ahead::Unknown;
        }
        if uncopied.is_some() {
            return Ahead::NoCancellation;
        }
        if copied.is_some() {
            return Ahead::AwaitsCopies;
        }
        Ahead::NoTopology
    }
}

/// Whether there is a next topology that gives up the rebalance.
fn gives_up(coord: &Coord, next: &Option<Topology>) -> bool
    ensures { result ≡ gives_up coord.now next.now }
{
    match next {
        None => false,
        Some(next) => {
            coord.newest().phase().is(Phase::ReadOld) && next.phase().is(Phase::NoRebalance)
        }
    }
}
