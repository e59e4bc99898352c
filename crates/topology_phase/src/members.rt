//! The nodes of a set, one by one.

ghost use Rattle.std.specs.Prelude.{◌≡◌, ℕ, ◌<◌, ◌≤◌, length, slice_index};
ghost use Rattle.topology_phase.specs.Owners.{among, members};

use grid_base::{NodeId, NodeSet};
use std::marker::Model;

/// The nodes of a set in ascending order, at most sixteen. They lie in a fixed place and take no
/// memory.
#[derive(Debug, Drop)]
pub struct Members {
    nodes: [u8; 16],
    len: u8,
}

impl Model for Members {
    ghost use Rattle.std.specs.Prelude.{◌≡◌, ◌≤◌, List, ℕ, length, take};

    ghost Value = { List ℕ };

    ghost use Rattle.topology_phase.specs.InlineMembers.{IsInlineMembers};

    ghost view = { λ a. take a.len a.nodes };

    ghost invariant = { IsInlineMembers };
}

impl Members {
    /// The nodes of `set`.
    pub fn new(set: &NodeSet) -> Members
        ensures { result ≡ members set.now }
    {
        let mut nodes = [0; 16];
        let mut len: u8 = 0;
        for number in 0..16u8 {
            if !set.has(NodeId::new(number)) {
                continue;
            }
            nodes[usize::from(len)] = number;
            len += 1;
        }
        Members { nodes, len }
    }

    /// How many nodes there are, at most sixteen.
    pub fn len(&self) -> u8
        ensures len { result ≡ length self.now }
        ensures few { length self.now ≤ 16 }
    {
        self.len
    }

    /// The node at `place`, which is below the number of nodes; the least node has place 0.
    pub fn get(&self, place: u8) -> NodeId
        requires { place < length self.now }
        ensures { result ≡ slice_index self.now place }
    {
        NodeId::new(self.nodes()[usize::from(place)])
    }

    /// Whether `node` is one of the nodes.
    pub fn has(&self, node: NodeId) -> bool
        ensures { result ≡ among node self.now }
    {
        self.nodes().contains(&node.number())
    }

    /// The numbers of the nodes.
    fn nodes(&self) -> &[u8]
        ensures { result.now ≡ self.now }
    {
        &self.nodes[..usize::from(self.len)]
    }
}
