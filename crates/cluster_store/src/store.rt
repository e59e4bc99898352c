//! The store: its data, and the questions about it.

ghost use Rattle.std.specs.Prelude.{◌≡◌, ℕ, ◌<◌, ◌≤◌, length, true, IfOk, IfSome};
ghost use Rattle.std.specs.List.{range_with_len};
ghost use Rattle.std.specs.FinSet as set_of;
ghost use Rattle.container_seg.specs.Scans.{next_chunk, without_deadlines};
ghost use Rattle.grid_event.specs.Configs.{is_config};
ghost use Rattle.state_transfer.specs.Copying.{nothing_held, part_of};
ghost use Rattle.topology_coord.specs.Coordination.{first_live, live_nodes, lives, topology_of};
ghost use Rattle.topology_phase.specs.Owners.{among, members};
ghost use Rattle.topology_phase.specs.Topologies.{read_owners};
ghost use Rattle.cluster_model.specs.Calls.{first_reader};
ghost use Rattle.cluster_model.specs.Kept.{KeepsTopologies};
ghost use Rattle.cluster_model.specs.State.{first_holding, segment_of};
ghost use Rattle.cluster_model.specs.Writes.{has_reader};

mod events;
mod members;
mod topologies;
mod transfers;
mod writes;

use crate::hints::Hints;
use crate::owners::readers;
use grid_base::{Batch, Key, NoMemory, NodeId, NodeSet, SegmentId};
use grid_event::Config;
use segment_hash::segment_of;
use state_transfer::Copies;
use std::alloc::Global;
use std::marker::Model;
use topology_coord::Coord;
use topology_phase::Owners;

/// What a cluster holds. Contracts see it as the settings, the members and topologies, and the copies and transfers.
#[derive(Drop)]
pub struct Store {
    config: Config,
    coord: Coord,
    copies: Copies,
    hints: Hints,
}

impl Model for Store {
    ghost use Rattle.std.specs.FinMap as map_of;
    ghost use Rattle.std.specs.FinSet as set_of;
    ghost use Rattle.std.specs.Coded.{codes, coded_list, coded_ℕ};
    ghost use Rattle.std.specs.Ordering.{nat_cmp};
    ghost use Rattle.grid_base.specs.contracts.stamped.Stamped as stamped;
    ghost use Rattle.pipeline_expr.specs.contracts.expr.Expr as exprs;
    ghost use Rattle.state_transfer.specs.Cells.{cell_cmp, cell_code, destination_cmp, destination_code};
    ghost use Rattle.cluster_model.specs.State.{Holding};

    ghost Value = { Holding };

    ghost coded = { Prim.hlevel (codes, map_of.code, set_of.code, cell_code, destination_code, exprs.the_row.coded, stamped.the_row.coded) };

    ghost use Rattle.cluster_store.specs.Insides.{holding_of, IsStore};

    ghost view = { holding_of };

    ghost invariant = { IsStore };
}

impl Store {
    /// The store at the start of a cluster with these settings. The only failure is that memory runs
    /// out.
    pub fn new(alloc: Global, config: &Config) -> Result<Store, NoMemory>
        requires { is_config config.now ≡ true }
        ensures { IfOk result (λ store. store ≡ first_holding config.now) }
    {
        let coord = Coord::new(
            alloc,
            config.nodes,
            config.segments,
            config.owners,
            config.aim,
        )?;
        let copies = first_copies(alloc, config.nodes)?;
        let hints = Hints::first(alloc, &coord);
        Ok(Store {
            config: *config,
            coord,
            copies,
            hints,
        })
    }

    /// The settings.
    pub fn config(&self) -> Config
        ensures config { result ≡ self.now.config }
        ensures limits { is_config self.now.config ≡ true }
    {
        self.config
    }

    /// The members and topologies.
    pub fn coord(&self) -> &Coord
        ensures coord { result.now ≡ self.now.coord }
        ensures kept { KeepsTopologies self.now.config.segments self.now.coord }
    {
        &self.coord
    }

    /// The clock, in ticks.
    pub fn clock(&self) -> u32
        ensures { result ≡ self.now.copying.clock }
    {
        self.copies.clock()
    }

    /// Whether the node is live.
    pub fn is_live(&self, node: NodeId) -> bool
        ensures is_live { result ≡ lives self.now.coord node }
        ensures within { lives self.now.coord node ≡ true → node ≤ 15 }
    {
        self.coord.is_live(node)
    }

    /// The live nodes, of which there is one at least.
    pub fn live(&self) -> NodeSet
        ensures lives { (n : ℕ) → set_of.contains result n ≡ lives self.now.coord n }
        ensures members { members result ≡ live_nodes self.now.coord }
        ensures some { 0 < length (live_nodes self.now.coord) }
    {
        self.coord.live()
    }

    /// The segment of the key. None comes exactly where the key has none.
    pub fn segment_of(&self, key: &Key) -> Option<SegmentId>
        ensures segment { result ≡ segment_of self.now key.now }
        ensures below { IfSome result (λ segment. segment < self.now.config.segments) }
    {
        let config = self.config();
        segment_of(key, config.partition, config.segments)
    }

    /// Whether the node reads the segment by the topology that it has installed.
    pub fn reads(&self, node: NodeId, segment: SegmentId) -> bool
        ensures { result ≡ among node (read_owners (topology_of self.now.coord node) segment) }
    {
        self.readers(node, segment).has(node)
    }

    /// Whether the segment has a live reader by the topology that the node has installed.
    pub fn has_reader(&self, node: NodeId, segment: SegmentId) -> bool
        ensures { result ≡ has_reader self.now node segment }
    {
        self.first_reader(node, segment).is_some()
    }

    /// The first live reader of the segment by the topology that the originator has installed. None
    /// comes exactly where there is none.
    pub fn first_reader(&self, originator: NodeId, segment: SegmentId) -> Option<NodeId>
        ensures { result ≡ first_reader self.now originator segment }
    {
        self.first_live(&self.readers(originator, segment))
    }

    /// What a live node holds of the segment behind a key in the node's order, from its first entry
    /// on where no key is given: at most so many entries, which is at least 1, and whether they are
    /// the last. The only failure is that memory runs out.
    pub fn next_batch(
        &self,
        alloc: Global,
        node: NodeId,
        segment: SegmentId,
        after: Option<Key>,
        most: u16,
    ) -> Result<Batch, NoMemory>
        requires live { lives self.now.coord node ≡ true }
        requires most { 1 ≤ most }
        ensures { IfOk result (λ batch. batch ≡ without_deadlines (next_chunk node after most (part_of self.now.copying.cells node segment))) }
    {
        match self.copies.container(node) {
            Some(container) => container.scan(alloc, segment, after.as_ref(), most),
            None => unreachable!(),
        }
    }

    /// The owners that read the segment by the topology that the node has installed.
    fn readers(&self, node: NodeId, segment: SegmentId) -> Owners
        ensures { result ≡ read_owners (topology_of self.now.coord node) segment }
    {
        readers(self.coord.topology_of(node), segment)
    }

    /// The first of the owners that lives.
    fn first_live(&self, owners: &Owners) -> Option<NodeId>
        ensures { result ≡ first_live self.now.coord owners.now }
    {
        for place in 0..owners.len() {
            let node = owners.get(place)?;
            if self.is_live(node) {
                return Some(node);
            }
        }
        None
    }
}

/// The copies of the first so many nodes, which hold nothing. The only failure is that memory runs
/// out.
fn first_copies(alloc: Global, nodes: u8) -> Result<Copies, NoMemory>
    ensures { IfOk result (λ copies. copies ≡ record { nodes = set_of.from_list (range_with_len 0 nodes); copying = nothing_held }) }
{
    let mut copies = Copies::new(alloc)?;
    for number in 0..nodes {
        copies.join(alloc, NodeId::new(number))?;
    }
    Ok(copies)
}
