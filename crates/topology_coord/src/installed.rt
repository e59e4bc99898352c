//! Which topology each live node has installed.

ghost use Rattle.std.specs.Prelude.{◌≡◌, ℕ, ◌<◌, ◌≤◌, ◌==◌, ◌||◌, true, length, slice_index};
ghost use Rattle.std.specs.List.{list_all, range_with_len};
ghost use Rattle.std.specs.Option.{unwrap_or};
ghost use Rattle.std.specs.FinMap as map_of;
ghost use Rattle.std.specs.FinSet as set_of;
ghost use Rattle.topology_phase.specs.Owners.{members};
ghost use Rattle.topology_coord.specs.Coordination.{first_installed};

use grid_base::{NodeId, NodeSet, TopologyId};
use std::marker::Model;

/// The number of the topology that each live node has installed, and 0 for each of the sixteen
/// nodes that isn't live. Contracts see the map from the live nodes to these numbers.
#[derive(Debug, Drop)]
pub(crate) struct Installed {
    ids: [u32; 16],
}

impl Model for Installed {
    ghost use Rattle.std.specs.Prelude.{ℕ};
    ghost use Rattle.std.specs.FinMap as map_of;
    ghost use Rattle.std.specs.Coded.{coded_ℕ};
    ghost use Rattle.std.specs.Ordering.{nat_cmp};

    ghost Value = { map_of.FinMap nat_cmp ℕ };

    ghost coded = { map_of.code {R = nat_cmp} coded_ℕ coded_ℕ };

    ghost use Rattle.topology_coord.specs.Slots.{installed_in, HasSlots};

    ghost view = { installed_in };

    ghost invariant = { HasSlots };
}

impl Installed {
    /// No node is live.
    fn new() -> Installed
        ensures { result ≡ map_of.empty }
    {
        Installed { ids: [0; 16] }
    }

    /// The first so many nodes, at most sixteen, are live and have installed topology 1.
    #[tactic(auto, using(crate::proofs::FirstNodes::installed_more))]
    pub(crate) fn first(nodes: u8) -> Installed
        requires { nodes ≤ 16 }
        ensures { result ≡ first_installed nodes }
    {
        let mut installed = Installed::new();
        for number in 0..nodes {
            installed.put(NodeId::new(number), TopologyId::new(1));
        }
        installed
    }

    /// The same.
    pub(crate) fn copy(&self) -> Installed
        ensures { result ≡ self.now }
    {
        Installed { ids: self.ids }
    }

    /// The number of the topology that node `n` has installed, and 0 where it isn't live.
    pub(crate) fn id(&self, n: NodeId) -> u32
        ensures id { result ≡ unwrap_or (map_of.get self.now n) 0 }
        ensures within { map_of.contains_key self.now n ≡ true → n ≤ 15 }
    {
        id_in(&self.ids, n)
    }

    /// Whether node `n` is live.
    pub(crate) fn has(&self, n: NodeId) -> bool
        ensures has { result ≡ map_of.contains_key self.now n }
        ensures within { map_of.contains_key self.now n ≡ true → n ≤ 15 }
    {
        id_in(&self.ids, n) != 0
    }

    /// Node `n`, at most 15, is live and has installed topology `id`, from 1 on.
    #[tactic(auto, using(crate::proofs::Slots::slots_set))]
    pub(crate) fn put(&mut self, n: NodeId, id: TopologyId)
        requires within { n ≤ 15 }
        requires some { 1 ≤ id }
        ensures { self.new ≡ map_of.insert self.old n id }
    {
        self.ids[usize::from(n.number())] = id.number();
    }

    /// Node `n`, which is live, is so no longer.
    #[tactic(auto, using(crate::proofs::Slots::slots_clear, crate::proofs::Slots::live_within))]
    pub(crate) fn remove(&mut self, n: NodeId)
        requires { map_of.contains_key self.old n ≡ true }
        ensures { self.new ≡ map_of.remove self.old n }
    {
        self.ids[usize::from(n.number())] = 0;
    }

    /// The live nodes.
    pub(crate) fn nodes(&self) -> NodeSet
        ensures nodes { (q : ℕ) → set_of.contains result q ≡ map_of.contains_key self.now q }
        ensures members { members result ≡ map_of.keys self.now }
    {
        let mut nodes = NodeSet::new();
        for number in 0..16u8 {
            if self.ids[usize::from(number)] == 0 {
                continue;
            }
            nodes.add(NodeId::new(number));
        }
        nodes
    }

    /// Whether each live node has installed topology `id`.
    pub(crate) fn all_have(&self, id: TopologyId) -> bool
        ensures { result ≡ list_all (λ n. unwrap_or (map_of.get self.now n) 0 == id) (map_of.keys self.now) }
    {
        all_are(&self.ids, id.number())
    }
}

/// The number in the place of node `n`, and 0 where it has none.
fn id_in(ids: &[u32], n: NodeId) -> u32
    ensures { result ≡ slice_index ids.now n }
{
    match ids.get(usize::from(n.number())) {
        Some(id) => *id,
        None => 0,
    }
}

/// Whether each number is 0 or `id`.
fn all_are(ids: &[u32], id: u32) -> bool
    ensures { result ≡ list_all (λ has. (has == 0) || (has == id)) ids.now }
{
    ids.iter().all(|has| *has == 0 || *has == id)
}

/// The set of the first so many nodes, at most sixteen.
#[tactic(auto, using(crate::proofs::FirstNodes::nodes_more, crate::proofs::FirstNodes::first_members))]
pub(crate) fn first_nodes(nodes: u8) -> NodeSet
    requires { nodes ≤ 16 }
    ensures nodes { result ≡ set_of.from_list (range_with_len 0 nodes) }
    ensures members { members result ≡ range_with_len 0 nodes }
{
    let mut set = NodeSet::new();
    for number in 0..nodes {
        set.add(NodeId::new(number));
    }
    set
}
