//! What holds while two neighbouring topologies are in force at once.

ghost use Rattle.std.specs.Prelude.{◌≡◌, ℕ, ◌<◌, ◌||◌, ◌⊎◌, true, length};
ghost use Rattle.std.specs.List.{list_any};
ghost use Rattle.topology_phase.specs.Owners.{among, members};
ghost use Rattle.topology_phase.specs.Topologies.{read_owners, write_owners, holders};
ghost use Rattle.topology_phase.specs.Following.{neighbours};
ghost use Rattle.topology_phase.specs.Laws.{Names, IsOwned, Follows};

use crate::topology::Topology;
use grid_base::{NodeSet, SegmentId};

/// A law, and no work: while `a` and its neighbour `b` are in force at once, whoever reads
/// `segment` by either of them holds it by `b`; and where some node of `present` reads it by `a`,
/// whoever holds it by `b` is written by both. It speaks of the nodes of `present`, of which those
/// that `a` or `b` names are in `live`.
pub fn safe_neighbours(
    a: &Topology,
    b: &Topology,
    live: &NodeSet,
    present: &NodeSet,
    segment: SegmentId,
)
    requires some { 0 < length (members live.now) }
    requires follows { neighbours a.now b.now (members live.now) ≡ true }
    requires within { segment < length a.now.current }
    requires within_newer { segment < length b.now.current }
    requires named { (n s : ℕ) → among n (members present.now) ≡ true → Names a.now n s ⊎ Names b.now n s → among n (members live.now) ≡ true }
    ensures read { (n : ℕ) → among n (members present.now) ≡ true
        → (among n (read_owners a.now segment) || among n (read_owners b.now segment)) ≡ true
        → among n (holders b.now segment) ≡ true }
    ensures written { list_any (λ n. among n (members present.now)) (read_owners a.now segment) ≡ true
        → (n : ℕ) → among n (members present.now) ≡ true → among n (holders b.now segment) ≡ true
        → (among n (write_owners a.now segment) ≡ true) × (among n (write_owners b.now segment) ≡ true) }
{}

/// A law, and no work: what the newer of two neighbouring topologies keeps of the older one, where
/// each segment that has a current owner has a pending one.
pub fn neighbours_follow(a: &Topology, b: &Topology, live: &NodeSet)
    requires some { 0 < length (members live.now) }
    requires follows { neighbours a.now b.now (members live.now) ≡ true }
    requires owned { IsOwned a.now }
    ensures { Follows a.now b.now (λ n. among n (members live.now)) }
{}
