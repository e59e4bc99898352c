//! The members of the cluster, as the lines of a script change them.

ghost use Rattle.std.specs.Prelude.{◌≡◌, ◌≤◌};
ghost use Rattle.grid_script.specs.Judging.{Says};
ghost use Rattle.grid_script.specs.Rules.{first_members, first_nodes, needs_live, may_depart, may_join, with_departed, with_joined};

use crate::line_fault::LineFault;
use crate::reason::Reason;
use crate::rules::needs;
use grid_base::{NodeId, NodeSet};

/// The nodes that were members at some time, and those of them that are live.
#[derive(Debug, Drop)]
pub(crate) struct Members {
    pub ever: NodeSet,
    pub live: NodeSet,
}

impl Members {
    /// The first members: nodes 0 to one below their number, which is at most 16.
    pub(crate) fn first(nodes: u8) -> Members
        requires { nodes ≤ 16 }
        ensures { result ≡ first_members nodes }
    {
        Members {
            ever: first_nodes(nodes),
            live: first_nodes(nodes),
        }
    }

    /// Refuses a node that isn't live.
    #[tactic(auto, unfolding(crate::specs::Rules::needs_live))]
    pub(crate) fn needs_live(&self, node: NodeId) -> Result<(), LineFault>
        ensures { Says result (needs_live self.now node) }
    {
        needs(self.ever.has(node), Reason::NodeUnknown)?;
        needs(self.live.has(node), Reason::NodeGone)
    }

    /// Refuses the join of a node that was a member at some time.
    #[tactic(auto, unfolding(crate::specs::Rules::may_join))]
    pub(crate) fn may_join(&self, node: NodeId) -> Result<(), LineFault>
        ensures { Says result (may_join self.now node) }
    {
        needs(
            !self.ever.has(node) || self.live.has(node),
            Reason::NodeGone,
        )?;
        needs(!self.live.has(node), Reason::NodeTwice)
    }

    /// Refuses the departure of a node that isn't live, or is the only one.
    #[tactic(auto, unfolding(crate::specs::Rules::may_depart))]
    pub(crate) fn may_depart(&self, node: NodeId) -> Result<(), LineFault>
        ensures { Says result (may_depart self.now node) }
    {
        self.needs_live(node)?;
        needs(!(self.live.count() == 1), Reason::LastNode)
    }

    /// Notes that a node joins.
    pub(crate) fn note_join(&mut self, node: NodeId)
        requires { node ≤ 15 }
        ensures { self.new ≡ with_joined self.old node }
    {
        self.ever.add(node);
        self.live.add(node);
    }

    /// Notes that a node departs.
    pub(crate) fn note_depart(&mut self, node: NodeId)
        ensures { self.new ≡ with_departed self.old node }
    {
        self.live.remove(node);
    }
}

/// The nodes from 0 on, so many.
fn first_nodes(nodes: u8) -> NodeSet
    requires { nodes ≤ 16 }
    ensures { result ≡ first_nodes nodes }
{
    let mut made = NodeSet::new();
    for number in 0..nodes {
        made.add(NodeId::new(number));
    }
    made
}
