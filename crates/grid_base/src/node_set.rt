//! Sets of nodes.

ghost use Rattle.std.specs.Prelude.{◌≡◌, ℕ, ◌<◌, ◌≤◌, ◌↔◌, true, IfSome, IsNone, count_by};
ghost use Rattle.std.specs.FinSet as set;

use crate::node_id::NodeId;
use std::marker::Model;

/// A set of nodes, of numbers 0 to 15. It takes no memory. Contracts see the finite set of the
/// nodes' numbers.
#[derive(Clone, Copy, Debug)]
pub struct NodeSet {
    flags: [bool; 16],
}

impl Model for NodeSet {
    ghost use Rattle.std.specs.Coded.{coded_ℕ};
    ghost use Rattle.std.specs.FinSet as set;
    ghost use Rattle.grid_base.specs.Nodes.{Nodes};

    ghost Value = { Nodes };

    ghost coded = { set.code coded_ℕ };

    ghost use Rattle.grid_base.specs.NodeSet.{IsNodeSet, nodes_in, inside_of, inside_of-view};

    ghost view = { nodes_in };

    ghost invariant = { IsNodeSet };

    ghost inverse = { inside_of };

    ghost inverse_ok = { inside_of-view };
}

impl NodeSet {
    /// The empty set.
    pub fn new() -> NodeSet
        ensures { result ≡ set.empty }
    {
        NodeSet { flags: [false; 16] }
    }

    /// Puts the node in.
    pub fn add(&mut self, node: NodeId)
        requires { node ≤ 15 }
        ensures { self.new ≡ set.insert self.old node }
    {
        self.flags[node.number() as usize] = true;
    }

    /// Takes the node out, if it is in.
    pub fn remove(&mut self, node: NodeId)
        ensures { self.new ≡ set.remove self.old node }
    {
        let place = node.number() as usize;
        if place < 16 {
            self.flags[place] = false;
        }
    }

    /// Whether the node is in.
    pub fn has(&self, node: NodeId) -> bool
        ensures { result ≡ set.contains self.now node }
    {
        let place = node.number() as usize;
        place < 16 && self.flags[place]
    }

    /// The node of the lowest number, or none where the set is empty.
    pub fn least(&self) -> Option<NodeId>
        ensures empty { IsNone result ↔ (self.now ≡ set.empty) }
        ensures member { IfSome result (λ node. set.contains self.now node ≡ true) }
        ensures least { IfSome result (λ node. (q : ℕ) → set.contains self.now q ≡ true → node ≤ q) }
    {
        for place in 0..16u8 {
            if self.flags[place as usize] {
                return Some(NodeId::new(place));
            }
        }
        None
    }

    /// How many nodes are in, at most 16.
    pub fn count(&self) -> u8
        ensures { result ≡ set.len self.now }
    {
        count_up(&self.flags)
    }
}

impl PartialEq for NodeSet {
    ghost use Rattle.std.proofs.Common.{rules};
    ghost use Rattle.std.specs.Bool.{beq};
    ghost use Rattle.std.specs.Cmp.Lexicographic.{pointwise};
    ghost use Rattle.std.specs.Cmp.Rules.{comparing};
    ghost use Rattle.std.specs.Ordering.{on};
    ghost use Rattle.grid_base.specs.Nodes.{flags_of};

    ghost eq = { on (flags_of 0 16) (pointwise beq) };

    fn eq(&self, other: &NodeSet) -> bool {
        self.flags == other.flags
    }

    ghost laws = { Prim.search (comparing, rules) };
}

impl Eq for NodeSet {
    ghost use Rattle.std.proofs.Common.{rules};
    ghost use Rattle.std.specs.Cmp.Rules.{comparing};

    ghost laws = { Prim.search (comparing, rules) };
}

/// How many flags are up.
fn count_up(flags: &[bool; 16]) -> u8
    ensures { result ≡ count_by (λ up. up) flags.now }
{
    flags.iter().filter(|up| **up).count() as u8
}
