//! Of how many segments the nodes are the primaries.

ghost use Rattle.std.specs.Prelude.{◌≡◌, ◌≤◌, length, take};
ghost use Rattle.topology_phase.specs.Owners.{owners_at};
ghost use Rattle.hash_factory.specs.Least.{leads, load, moved, same_primary, is_led_by, is_balanced, even_share, most_kept};

use grid_base::{NodeId, SegmentId};
use topology_phase::{Hash, Members, Owners};

/// Whether `node` is the primary of a segment with these owners.
pub(crate) fn leads(node: NodeId, owners: &Owners) -> bool
    ensures { result ≡ leads node owners.now }
{
    match owners.get(0) {
        Some(first) => first == node,
        None => false,
    }
}

/// Of how many segments `node` is the primary.
pub fn load(hash: &Hash, node: NodeId) -> u16
    ensures load { result ≡ load hash.now node }
    ensures within { load hash.now node ≤ length hash.now }
    ensures few { result ≤ 256 }
{
    let mut led = 0;
    for segment in 0..hash.segments() {
        if leads(node, &hash.owners(SegmentId::new(segment))) {
            led += 1;
        }
    }
    led
}

/// Whether two segments have the same primary, or both none.
fn have_same_primary(owners: &Owners, others: &Owners) -> bool
    ensures { result ≡ same_primary owners.now others.now }
{
    match owners.get(0) {
        Some(first) => leads(first, others),
        None => others.is_empty(),
    }
}

/// How many segments have another primary by `next`. Where one hash is shorter, its end is the end.
#[tactic(auto, using(crate::proofs::Counting::moved_more_same, crate::proofs::Counting::moved_more_other))]
pub fn moved(current: &Hash, next: &Hash) -> u16
    ensures moved { result ≡ moved current.now next.now }
    ensures within { moved current.now next.now ≤ length current.now }
{
    let mut moves = 0;
    for segment in 0..current.segments().min(next.segments()) {
        let segment = SegmentId::new(segment);
        if !have_same_primary(&current.owners(segment), &next.owners(segment)) {
            moves += 1;
        }
    }
    moves
}
