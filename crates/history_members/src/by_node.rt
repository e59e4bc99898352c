//! A number for each node.

ghost use Rattle.std.specs.Prelude.{◌≡◌, ℕ, ◌≤◌, ◌==◌, if◌then◌else◌, slice_index_or};

use grid_base::NodeId;
use std::marker::Model;

/// A number for each of the nodes 0 to 15. It takes no memory. Contracts see the list of the
/// numbers.
#[derive(Drop)]
pub(crate) struct ByNode {
    numbers: [u32; 16],
}

impl Model for ByNode {
    ghost use Rattle.std.specs.Prelude.{◌≡◌, ℕ, List, length};
    ghost use Rattle.std.specs.Coded.{coded_list, coded_ℕ};

    ghost Value = { List ℕ };

    ghost coded = { coded_list coded_ℕ };

    ghost view = { λ a. a.numbers };

    ghost invariant = { λ a. length a.numbers ≡ 16 };
}

impl ByNode {
    /// The same number for each node.
    pub(crate) fn new(number: u32) -> ByNode
        ensures { (node : ℕ) → slice_index_or result node number ≡ number }
    {
        ByNode {
            numbers: [number; 16],
        }
    }

    /// The number of the node, or this one where it is above 15.
    pub(crate) fn get(&self, node: NodeId, otherwise: u32) -> u32
        ensures { result ≡ slice_index_or self.now node otherwise }
    {
        match self.numbers.get(usize::from(node.number())) {
            Some(number) => *number,
            None => otherwise,
        }
    }

    /// The number is that of the node, which is at most 15.
    pub(crate) fn put(&mut self, node: NodeId, number: u32)
        requires { node ≤ 15 }
        ensures { (other otherwise : ℕ) → slice_index_or self.new other otherwise ≡ (if node == other then number else slice_index_or self.old other otherwise) }
    {
        self.numbers[usize::from(node.number())] = number;
    }
}
