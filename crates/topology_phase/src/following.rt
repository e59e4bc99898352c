//! Which topologies may follow one another.

ghost use Rattle.std.specs.Prelude.{◌≡◌, ◌+◌, ◌<◌, ◌==◌, ◌||◌, [], length};
ghost use Rattle.topology_phase.specs.Owners.{members, owners_at};
ghost use Rattle.topology_phase.specs.Phases.{same_phase};
ghost use Rattle.topology_phase.specs.Topologies.{same_hash, same_topology};
ghost use Rattle.topology_phase.specs.Following.{mended, stand_in, mended_hash, names_departed, repaired, cancelled, in_phase, completed, is_owned_by, begins_rebalance, neighbours};

use crate::members::Members;
use crate::owners::Owners;
use crate::phase::Phase;
use crate::topology::Topology;
use grid_base::NodeSet;

/// Whether `b` is a repair, a cancellation, the next phase or a new rebalance of `a` where the
/// nodes of `live`, at least one, live. Where a departed node is named it must be the repair. Of
/// the pending hash of a new rebalance this asks only that each segment has an owner and that all
/// owners live; transfers aren't looked at.
#[tactic(auto, unfolding(crate::specs::Following::neighbours))]
pub fn neighbours(a: &Topology, b: &Topology, live: &NodeSet) -> bool
    requires { 0 < length (members live.now) }
    ensures { result ≡ neighbours a.now b.now (members live.now) }
{
    let live = Members::new(live);
    if names_departed(a, &live) {
        return is_repair(a, b, &live);
    }
    match a.phase() {
        Phase::NoRebalance => begins_rebalance(a, b, &live),
        Phase::ReadOld => is_in_phase(a, b, Phase::ReadAll) || is_cancellation(a, b),
        Phase::ReadAll => is_in_phase(a, b, Phase::ReadNew),
        Phase::ReadNew => is_completion(a, b),
    }
}

/// Whether a hash of `t` names a node that doesn't live.
pub(crate) fn names_departed(t: &Topology, live: &Members) -> bool
    ensures { result ≡ (names_departed live.now t.now.current || names_departed live.now t.now.pending) }
{
    name_departed(t.current_rows(), live) || name_departed(t.pending_rows(), live)
}

/// Whether the owners of some segment name a node that doesn't live.
fn name_departed(rows: &[Owners], live: &Members) -> bool
    ensures { result ≡ names_departed live.now rows.now }
{
    rows.iter().any(|owners| owners.names_departed(live))
}

/// Whether `b` is the repair of `a`.
#[tactic(auto, unfolding(crate::specs::Topologies::same_topology, crate::specs::Following::repaired))]
fn is_repair(a: &Topology, b: &Topology, live: &Members) -> bool
    requires { 0 < length live.now }
    ensures { result ≡ same_topology b.now (repaired a.now live.now) }
{
    follows_by_number(a, b)
        && b.phase().is(a.phase())
        && is_mended(b.current_rows(), a.current_rows(), a.pending_rows(), live)
        && is_mended(b.pending_rows(), a.pending_rows(), a.current_rows(), live)
}

/// Whether `b` has the number after that of `a`.
fn follows_by_number(a: &Topology, b: &Topology) -> bool
    ensures { result ≡ (b.now.id == a.now.id + 1) }
{
    u64::from(b.id.number()) == u64::from(a.id.number()) + 1
}

/// Whether `rows` are the owners `mine`, each segment mended by those of `other`.
fn is_mended(rows: &[Owners], mine: &[Owners], other: &[Owners], live: &Members) -> bool
    requires { 0 < length live.now }
    ensures { result ≡ same_hash rows.now (mended_hash live.now mine.now other.now) }
{
    if rows.len() != mine.len() {
        return false;
    }
    for segment in 0..rows.len() {
        let mended = mended(live, segment, &mine[segment], &owners_of(other, segment));
        if rows[segment] != mended {
            return false;
        }
    }
    true
}

/// The owners of a segment; a segment that isn't there has none.
pub(crate) fn owners_of(rows: &[Owners], segment: usize) -> Owners
    ensures { result ≡ owners_at rows.now segment }
{
    match rows.get(segment) {
        Some(owners) => *owners,
        None => Owners::new(),
    }
}

/// The owners of a segment without the departed.
#[tactic(auto, unfolding(crate::specs::Following::mended))]
pub(crate) fn mended(live: &Members, segment: usize, mine: &Owners, other: &Owners) -> Owners
    requires { 0 < length live.now }
    ensures { result ≡ mended live.now segment mine.now other.now }
{
    let kept = mine.pruned(live);
    if !kept.is_empty() {
        return kept;
    }
    let kept = other.pruned(live);
    if !kept.is_empty() {
        return kept;
    }
    stand_in(live, segment)
}

/// The one live member that stands in for the owners of a segment.
fn stand_in(live: &Members, segment: usize) -> Owners
    requires { 0 < length live.now }
    ensures { result ≡ stand_in live.now segment }
{
    let place = segment % usize::from(live.len());
    let mut owners = Owners::new();
    owners.add(live.get(place as u8));
    owners
}

/// Whether `b` is `a` in another phase.
#[tactic(auto, unfolding(crate::specs::Topologies::same_topology))]
fn is_in_phase(a: &Topology, b: &Topology, phase: Phase) -> bool
    ensures { result ≡ same_topology b.now (in_phase a.now phase) }
{
    follows_by_number(a, b)
        && b.phase().is(phase)
        && b.current_rows() == a.current_rows()
        && b.pending_rows() == a.pending_rows()
}

/// Whether `b` is the cancellation of the rebalance of `a`.
#[tactic(auto, unfolding(crate::specs::Topologies::same_topology))]
fn is_cancellation(a: &Topology, b: &Topology) -> bool
    ensures { result ≡ same_topology b.now (cancelled a.now) }
{
    follows_by_number(a, b)
        && b.phase().is(Phase::NoRebalance)
        && b.current_rows() == a.current_rows()
        && has_no_segment(b.pending_rows())
}

/// Whether `b` is the end of the rebalance of `a`.
#[tactic(auto, unfolding(crate::specs::Topologies::same_topology))]
fn is_completion(a: &Topology, b: &Topology) -> bool
    ensures { result ≡ same_topology b.now (completed a.now) }
{
    follows_by_number(a, b)
        && b.phase().is(Phase::NoRebalance)
        && b.current_rows() == a.pending_rows()
        && has_no_segment(b.pending_rows())
}

/// Whether there is no segment.
fn has_no_segment(rows: &[Owners]) -> bool
    ensures { result ≡ same_hash rows.now [] }
{
    match rows {
        [] => true,
        _ => false,
    }
}

/// Whether `b` begins a rebalance of `a`.
fn begins_rebalance(a: &Topology, b: &Topology, live: &Members) -> bool
    ensures { result ≡ begins_rebalance a.now b.now live.now }
{
    follows_by_number(a, b)
        && b.phase().is(Phase::ReadOld)
        && b.current_rows() == a.current_rows()
        && b.pending_rows().len() == a.current_rows().len()
        && are_owned(b.pending_rows(), live)
}

/// Whether each segment has an owner, and each owner lives.
fn are_owned(rows: &[Owners], live: &Members) -> bool
    ensures { result ≡ is_owned_by live.now rows.now }
{
    rows.iter().all(|owners| owners.are_live(live))
}
