//! Places by nodes and segments.

ghost use Rattle.std.specs.Prelude.{◌≡◌, ℕ, ◌<◌, ◌≤◌, ◌==◌, ◌&&◌, if◌then◌else◌, length, IfOk};
ghost use Rattle.history_members.specs.Cells.{place_in};

use crate::by_node::ByNode;
use grid_base::{NoMemory, NodeId, SegmentId};
use std::alloc::Global;
use std::marker::Model;

/// A place for each node and segment. Contracts see a row of places by nodes for each segment.
#[derive(Drop)]
pub(crate) struct Unread {
    rows: Vec<ByNode>,
}

impl Model for Unread {
    ghost use Rattle.std.specs.Prelude.{ℕ, List};
    ghost use Rattle.std.specs.Coded.{coded_list, coded_ℕ};

    ghost Value = { List (List ℕ) };

    ghost coded = { coded_list (coded_list coded_ℕ) };

    ghost view = { λ a. a.rows.items };
}

impl Unread {
    /// Place 0 for each node and each of the segments. The only failure is that memory runs out.
    pub(crate) fn new(alloc: Global, segments: u16) -> Result<Unread, NoMemory>
        ensures segments { IfOk result (λ unread. length unread ≡ segments) }
        ensures none { IfOk result (λ unread. (node segment : ℕ) → place_in unread node segment ≡ 0) }
    {
        let mut rows = Vec::with_capacity(alloc, usize::from(segments))?;
        for _ in 0..segments {
            rows.push(ByNode::new(0))?;
        }
        Ok(Unread { rows })
    }

    /// The place of the node and the segment, and 0 where there is none.
    pub(crate) fn get(&self, node: NodeId, segment: SegmentId) -> u32
        ensures { result ≡ place_in self.now node segment }
    {
        match self.rows.get(usize::from(segment.number())) {
            Some(row) => row.get(node, 0),
            None => 0,
        }
    }

    /// The place is that of the node, which is at most 15, and of the segment.
    pub(crate) fn put(&mut self, node: NodeId, segment: SegmentId, place: u32)
        requires node { node ≤ 15 }
        requires segment { segment < length self.old }
        ensures put { (other q : ℕ) → place_in self.new other q ≡ (if (node == other) && (segment == q) then place else place_in self.old other q) }
        ensures segments { length self.new ≡ length self.old }
    {
        let row = &mut self.rows[usize::from(segment.number())];
        row.put(node, place);
    }
}
