//! The number of a node.

ghost use Rattle.std.specs.Prelude.{◌≡◌};

use crate::duplicate::Duplicate;
use crate::no_memory::NoMemory;
use std::alloc::Global;
use std::marker::Model;

/// The number of a node, 0 to 15.
#[derive(Clone, Copy, Debug, PartialEq, Eq, PartialOrd, Ord, Hash)]
pub struct NodeId(pub u8);

impl Model for NodeId {
    ghost use Rattle.std.specs.Prelude.{ℕ};

    ghost Value = { ℕ };

    ghost view = { λ id. id.0 };

    ghost inverse = { λ n. record { 0 = n } };
}

impl NodeId {
    /// The node with this number.
    pub fn new(number: u8) -> NodeId
        ensures { result ≡ number }
    {
        NodeId(number)
    }

    /// The number.
    pub fn number(self) -> u8
        ensures { result ≡ self }
    {
        self.0
    }
}

impl Duplicate for NodeId {
    fn copy(&self, _alloc: Global) -> Result<NodeId, NoMemory> {
        Ok(*self)
    }
}
