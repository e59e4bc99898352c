//! Which topology is next.

ghost use Rattle.std.specs.Prelude.{◌≡◌, ℕ, ◌<◌, ◌≤◌, true, length, IfOk};
ghost use Rattle.topology_phase.specs.Owners.{members, owners_at};
ghost use Rattle.topology_phase.specs.Phases.{same_phase};
ghost use Rattle.topology_coord.specs.Coordination.{live_nodes};
ghost use Rattle.topology_coord.specs.Following.{aimed, following, unrepaired};

use crate::coord::Coord;
use grid_base::NoMemory;
use grid_base::limits::LAST_TOPOLOGY;
use hash_factory::{create, rebalance_least};
use std::alloc::Global;
use topology_phase::{Aim, Hash, Phase, Topology};

impl Coord {
    /// The next topology, where `copied` says that all receivers have their copies. None comes
    /// exactly where there is none: where a live node hasn't installed the newest, where that has
    /// the last number, where receivers haven't their copies, or where nothing is left to do. The
    /// only failure is that memory runs out.
    #[tactic(auto, unfolding(crate::specs::Following::following))]
    pub fn next_topology(&self, alloc: Global, copied: bool) -> Result<Option<Topology>, NoMemory>
        ensures { IfOk result (λ next. next ≡ following copied self.now) }
    {
        if !self.all_installed() {
            return Ok(None);
        }
        if self.newest().id().number() == LAST_TOPOLOGY {
            return Ok(None);
        }
        let live = self.live();
        if self.newest().names_departed(&live) {
            let next = self.newest().repaired(alloc, &live)?;
            return Ok(Some(next));
        }
        self.unrepaired(alloc, copied)
    }

    /// The next topology where every live node has installed the newest, whose number isn't the
    /// last, and no hash names a departed node.
    #[tactic(auto, unfolding(crate::specs::Following::unrepaired))]
    fn unrepaired(&self, alloc: Global, copied: bool) -> Result<Option<Topology>, NoMemory>
        requires { self.now.newest.id < 4294967295 }
        ensures { IfOk result (λ next. next ≡ unrepaired copied self.now) }
    {
        match self.newest().phase() {
            Phase::NoRebalance => self.after_no_rebalance(alloc),
            Phase::ReadOld => self.after_read_old(alloc, copied),
            Phase::ReadAll => {
                let next = self.newest().in_phase(alloc, Phase::ReadNew)?;
                Ok(Some(next))
            }
            Phase::ReadNew => {
                let next = self.newest().completed(alloc)?;
                Ok(Some(next))
            }
        }
    }

    /// A new rebalance, where the owners aren't those aimed at.
    #[tactic(auto, unfolding(crate::specs::Following::unrepaired))]
    fn after_no_rebalance(&self, alloc: Global) -> Result<Option<Topology>, NoMemory>
        requires numbered { self.now.newest.id < 4294967295 }
        requires in_phase { self.now.newest.phase ≡ Phase.NoRebalance }
        ensures { IfOk result (λ next. next ≡ unrepaired true self.now) }
    {
        let aim = self.aimed(alloc)?;
        if self.newest().current().is_same(&aim) {
            return Ok(None);
        }
        let next = self.newest().begun(alloc, aim)?;
        Ok(Some(next))
    }

    /// The cancellation of a rebalance that leads elsewhere, else the next phase once all receivers
    /// have their copies.
    #[tactic(auto, unfolding(crate::specs::Following::unrepaired))]
    fn after_read_old(&self, alloc: Global, copied: bool) -> Result<Option<Topology>, NoMemory>
        requires numbered { self.now.newest.id < 4294967295 }
        requires in_phase { self.now.newest.phase ≡ Phase.ReadOld }
        ensures { IfOk result (λ next. next ≡ unrepaired copied self.now) }
    {
        let aim = self.aimed(alloc)?;
        if !self.newest().leads_to(&aim) {
            let next = self.newest().cancelled(alloc)?;
            return Ok(Some(next));
        }
        if !copied {
            return Ok(None);
        }
        let next = self.newest().in_phase(alloc, Phase::ReadAll)?;
        Ok(Some(next))
    }

    /// The hash that a rebalance leads to.
    #[tactic(auto, unfolding(crate::specs::Following::aimed))]
    fn aimed(&self, alloc: Global) -> Result<Hash, NoMemory>
        ensures aim { IfOk result (λ hash. hash ≡ aimed self.now) }
        ensures as_long { IfOk result (λ hash. length hash ≡ length self.now.newest.current) }
        ensures few { IfOk result (λ hash. (s : ℕ) → length (owners_at hash s) ≤ 4) }
    {
        let live = self.live();
        match self.aim() {
            Aim::Create => {
                let hash = create(alloc, &live, self.newest().segments(), self.owners())?;
                Ok(hash)
            }
            Aim::Least => {
                let least = rebalance_least(alloc, self.newest().current(), &live, self.owners())?;
                Ok(least.hash)
            }
        }
    }
}
