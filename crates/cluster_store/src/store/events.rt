//! The events of the store that commands choose.

ghost use Rattle.std.specs.Prelude.{◌≡◌, Some, IfOk};
ghost use Rattle.grid_event.specs.declared.event.Event.TheVariants as events;
ghost use Rattle.topology_coord.specs.Coordination.{live_nodes};
ghost use Rattle.cluster_model.specs.Commands.{advance_event, announce_event, cancel_event, copy_event, first_some, install_event, land_event};
ghost use Rattle.cluster_model.specs.State.{segments_of};

use crate::store::Store;
use grid_base::{NoMemory, NodeId, SegmentId};
use grid_event::{CopyEvent, Event};
use sqlite_items::Boxed;
use std::alloc::Global;
use topology_phase::{Members, Phase, Topology};

impl Store {
    /// The announcement of the next topology. None comes exactly where there is none. The only
    /// failure is that memory runs out.
    pub fn announce_event(&self, alloc: Global) -> Result<Option<Event>, NoMemory>
        ensures { IfOk result (λ event. event ≡ announce_event self.now) }
    {
        match self.next_topology(alloc)? {
            None => Ok(None),
            Some(next) => announcement(alloc, next),
        }
    }

    /// The installation of the newest topology at the node, where it may happen.
    pub fn install_event(&self, node: NodeId) -> Option<Event>
        ensures { result ≡ install_event self.now node }
    {
        let id = self.coord().newest().id();
        if !self.can_install(node, id) {
            return None;
        }
        Some(Event::Install { node, id })
    }

    /// The copy of the next chunk of the segment to the receiver, where it may happen. The only
    /// failure is that memory runs out.
    pub fn copy_event(
        &self,
        alloc: Global,
        receiver: NodeId,
        segment: SegmentId,
    ) -> Result<Option<Event>, NoMemory>
        ensures { IfOk result (λ event. event ≡ copy_event self.now receiver segment) }
    {
        let Some(provider) = self.sender(receiver, segment) else {
            return Ok(None);
        };
        let batch = self.next_chunk(alloc, receiver, segment, provider)?;
        let copy = CopyEvent {
            receiver,
            segment,
            provider,
            batch,
        };
        let copy = Boxed::new(alloc, copy)?;
        Ok(Some(Event::Copy(copy)))
    }

    /// The landing of what flies of the segment to the receiver, where it may happen.
    pub fn land_event(&self, receiver: NodeId, segment: SegmentId) -> Option<Event>
        ensures { result ≡ land_event self.now receiver segment }
    {
        if !self.can_land(receiver, segment) {
            return None;
        }
        Some(Event::Land { receiver, segment })
    }

    /// The announcement of the next topology, where it gives up the rebalance. The only failure is
    /// that memory runs out.
    pub fn cancel_event(&self, alloc: Global) -> Result<Option<Event>, NoMemory>
        ensures { IfOk result (λ event. event ≡ cancel_event self.now) }
    {
        if self.goes_on() {
            return Ok(None);
        }
        if !self.coord().newest().phase().is(Phase::ReadOld) {
            return Ok(None);
        }
        let Some(next) = self.next_topology(alloc)? else {
            return Ok(None);
        };
        if !next.phase().is(Phase::NoRebalance) {
            return Ok(None);
        }
        announcement(alloc, next)
    }

    /// The first that there is: an installation at the least live node that lacks the newest
    /// topology; a cancellation; a landing, and then a copy, of the least receiver and then the
    /// least segment; an announcement. The only failure is that memory runs out.
    #[tactic(auto, unfolding(cluster_model::specs::Commands::advance_event))]
    pub fn advance_event(&self, alloc: Global) -> Result<Option<Event>, NoMemory>
        ensures { IfOk result (λ event. event ≡ advance_event self.now) }
    {
        if let Some(event) = self.first_installation() {
            return Ok(Some(event));
        }
        if let Some(event) = self.cancel_event(alloc)? {
            return Ok(Some(event));
        }
        if let Some(event) = self.any_landing() {
            return Ok(Some(event));
        }
        if let Some(event) = self.any_copy(alloc)? {
            return Ok(Some(event));
        }
        self.announce_event(alloc)
    }

    /// The landing at the node of the least segment of which a chunk flies there.
    pub fn first_landing(&self, node: NodeId) -> Option<Event>
        ensures { result ≡ first_some (land_event self.now node) (segments_of self.now) }
    {
        if self.hints.flying.spares(node) {
            return None;
        }
        for number in 0..self.config().segments {
            let segment = SegmentId::new(number);
            if !self.hints.flying.may_fly(node, segment) {
                continue;
            }
            let event = self.land_event(node, segment);
            if event.is_some() {
                return event;
            }
        }
        None
    }

    /// The copy to the node of the least segment of which a chunk may be sent there. The only
    /// failure is that memory runs out.
    pub fn first_copy(&self, alloc: Global, node: NodeId) -> Result<Option<Event>, NoMemory>
        ensures { IfOk result (λ event. event ≡ first_some (copy_event self.now node) (segments_of self.now)) }
    {
        let start = self.first_sending(node);
        for number in start..self.config().segments {
            let segment = SegmentId::new(number);
            if self.sender(node, segment).is_some() {
                return self.copy_event(alloc, node, segment);
            }
        }
        Ok(None)
    }

    /// The installation at the least live node that lacks the newest topology.
    fn first_installation(&self) -> Option<Event>
        ensures { result ≡ first_some (install_event self.now) (live_nodes self.now.coord) }
    {
        let nodes = Members::new(&self.live());
        for place in 0..nodes.len() {
            let event = self.install_event(nodes.get(place));
            if event.is_some() {
                return event;
            }
        }
        None
    }

    /// The landing at the least live node to which a chunk flies, of the least segment of it.
    fn any_landing(&self) -> Option<Event>
        ensures { result ≡ first_some (λ node. first_some (land_event self.now node) (segments_of self.now)) (live_nodes self.now.coord) }
    {
        let nodes = Members::new(&self.live());
        for place in 0..nodes.len() {
            let event = self.first_landing(nodes.get(place));
            if event.is_some() {
                return event;
            }
        }
        None
    }

    /// The copy to the least live node to which a chunk may be sent, of the least segment of it. The
    /// only failure is that memory runs out.
    fn any_copy(&self, alloc: Global) -> Result<Option<Event>, NoMemory>
        ensures { IfOk result (λ event. event ≡ first_some (λ node. first_some (copy_event self.now node) (segments_of self.now)) (live_nodes self.now.coord)) }
    {
        let nodes = Members::new(&self.live());
        for place in 0..nodes.len() {
            let event = self.first_copy(alloc, nodes.get(place))?;
            if event.is_some() {
                return Ok(event);
            }
        }
        Ok(None)
    }
}

/// The announcement of the topology. The only failure is that memory runs out.
fn announcement(alloc: Global, topology: Topology) -> Result<Option<Event>, NoMemory>
    ensures { IfOk result (λ event. event ≡ Some (events.Announce topology)) }
{
    let topology = Boxed::new(alloc, topology)?;
    Ok(Some(Event::Announce(topology)))
}
