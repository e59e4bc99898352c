//! The owners of a segment.

ghost use Rattle.std.specs.Prelude.{◌≡◌, ◌<◌, ◌≤◌, ◌&&◌, not, false, [], ◌∷◌, ◌++◌, length, slice_get, nat_eq};
ghost use Rattle.std.specs.List.{IsDistinct, list_any, list_all};
ghost use Rattle.topology_phase.specs.Owners.{among, joined, pruned, is_ownerless};

use crate::members::Members;
use grid_base::NodeId;
use std::marker::Model;

/// The nodes that own a segment, in their order, the primary owner first: at most eight, no two of
/// them alike. They lie in a fixed place and take no memory.
#[derive(Clone, Copy, Debug)]
pub struct Owners {
    nodes: [u8; 8],
    len: u8,
}

impl Model for Owners {
    ghost use Rattle.std.specs.Prelude.{List, ℕ, take};

    ghost Value = { List ℕ };

    ghost use Rattle.topology_phase.specs.InlineOwners.{IsInlineOwners, inside_of, inside_of-view};

    ghost view = { λ a. take a.len a.nodes };

    ghost invariant = { IsInlineOwners };

    ghost inverse = { inside_of };

    ghost inverse_ok = { inside_of-view };
}

impl Owners {
    /// No owners.
    pub fn new() -> Owners
        ensures { result ≡ [] }
    {
        Owners {
            nodes: [0; 8],
            len: 0,
        }
    }

    /// Puts `node`, which isn't among the fewer than eight owners yet, behind them.
    pub fn add(&mut self, node: NodeId)
        requires absent { among node self.old ≡ false }
        requires room { length self.old < 8 }
        ensures { self.new ≡ self.old ++ node ∷ [] }
    {
        self.nodes[usize::from(self.len)] = node.number();
        self.len += 1;
    }

    /// Whether `node` is one of the owners.
    pub fn has(&self, node: NodeId) -> bool
        ensures { result ≡ among node self.now }
    {
        self.nodes().contains(&node.number())
    }

    /// How many owners there are, at most eight.
    pub fn len(&self) -> u8
        ensures len { result ≡ length self.now }
        ensures few { length self.now ≤ 8 }
        ensures distinct { IsDistinct nat_eq self.now }
    {
        self.len
    }

    /// Whether there is no owner.
    pub fn is_empty(&self) -> bool
        ensures { result ≡ is_ownerless self.now }
    {
        self.len == 0
    }

    /// The owner at `place`, the first owner at place 0. None comes exactly where `place` isn't
    /// below the number of owners.
    pub fn get(&self, place: u8) -> Option<NodeId>
        ensures { result ≡ slice_get self.now place }
    {
        match self.nodes().get(usize::from(place)) {
            Some(number) => Some(NodeId::new(*number)),
            None => None,
        }
    }

    /// These owners, followed by those of `second` that aren't among them: together at most eight.
    pub fn joined(&self, second: &Owners) -> Owners
        requires { length (joined self.now second.now) ≤ 8 }
        ensures { result ≡ joined self.now second.now }
    {
        let mut all = *self;
        for number in second.nodes() {
            let node = NodeId::new(*number);
            if !self.has(node) {
                all.add(node);
            }
        }
        all
    }

    /// The owners that are among `live`.
    pub fn pruned(&self, live: &Members) -> Owners
        ensures { result ≡ pruned (λ n. among n live.now) self.now }
    {
        let mut kept = Owners::new();
        for number in self.nodes() {
            let node = NodeId::new(*number);
            if live.has(node) {
                kept.add(node);
            }
        }
        kept
    }

    /// Whether an owner isn't among `live`.
    pub(crate) fn names_departed(&self, live: &Members) -> bool
        ensures { result ≡ list_any (λ n. not (among n live.now)) self.now }
    {
        self.nodes()
            .iter()
            .any(|number| !live.has(NodeId::new(*number)))
    }

    /// Whether there is an owner, and all of them are among `live`.
    pub(crate) fn are_live(&self, live: &Members) -> bool
        ensures { result ≡ (not (is_ownerless self.now) && list_all (λ n. among n live.now) self.now) }
    {
        if self.is_empty() {
            return false;
        }
        self.name_only(live)
    }

    /// Whether all owners are among `live`.
    fn name_only(&self, live: &Members) -> bool
        ensures { result ≡ list_all (λ n. among n live.now) self.now }
    {
        self.nodes()
            .iter()
            .all(|number| live.has(NodeId::new(*number)))
    }

    /// The numbers of the owners.
    fn nodes(&self) -> &[u8]
        ensures nodes { result.now ≡ self.now }
        ensures few { length self.now ≤ 8 }
        ensures distinct { IsDistinct nat_eq self.now }
    {
        &self.nodes[..usize::from(self.len)]
    }
}

impl PartialEq for Owners {
    ghost use Rattle.std.specs.Prelude.{nat_eq};
    ghost use Rattle.std.specs.Cmp.{partial_equiv_from_equiv};
    ghost use Rattle.std.specs.Cmp.Lexicographic.{pointwise, nat_list_eq_equiv};

    ghost eq = { pointwise nat_eq };

    fn eq(&self, other: &Owners) -> bool {
        self.nodes() == other.nodes()
    }

    ghost laws = { partial_equiv_from_equiv nat_list_eq_equiv };
}

impl Eq for Owners {
    ghost use Rattle.std.specs.Cmp.Lexicographic.{nat_list_eq_equiv};

    ghost laws = { nat_list_eq_equiv };
}
