//! Units and segments are lost.

ghost use Rattle.std.specs.Prelude.{◌≡◌, ◌<◌, ◌-◌, ℕ, List, map, true, length, slice_get, slice_set, Some, IfOk, OnErr, OnOk};
ghost use Rattle.std.specs.FinSet as set_of;
ghost use Rattle.topology_phase.specs.Owners.{among};
ghost use Rattle.cluster_model.specs.State as states;
ghost use Rattle.cluster_model.specs.State.{is_open_unit, with_loss};
ghost use Rattle.cluster_model.specs.Topologies.{each_call, notes_losses, with_departure};
ghost use Rattle.cluster_calls.specs.Parts.{booking_ceased, booking_departed, booking_in};
ghost use Rattle.cluster_calls.specs.Calling.{ceases_at, is_one, with_installation};
ghost use Rattle.cluster_calls.specs.Listed.{AreListed, AreThere, booking_of, is_open_at, leaves};

use crate::calls::{Calls, place_of};
use grid_base::{NoMemory, NodeId, SegmentId, TopologyId, UnitId, Units};
use pipeline_split::Piece;
use segment_hash::SegmentSet;
use std::alloc::Global;

impl Calls {
    /// The node departs: its open units are lost, and where a reduction's guarantee keeps what they
    /// read, it is booked. After want of memory all is as before.
    pub fn lose_at(&mut self, alloc: Global, node: NodeId) -> Result<(), NoMemory>
        ensures ok { OnOk result (self.new ≡ record self.old { units = map (with_departure node) self.old.units }) }
        ensures err { OnErr result (self.new ≡ self.old) }
    {
        // The proof asks for what the type keeps, which a read of a field gives.
        let _segments = self.segments;
        let units = self.open_at(alloc, node, &all_segments())?;
        let made = self.departures(alloc, node, units.as_slice())?;
        self.lose_each(node, units.as_slice(), made);
        self.move_on();
        Ok(())
    }

    /// The node installs the topology `id`, by which it ceases to read these segments: its running
    /// units on them are lost, and where a reduction's guarantee keeps what they read, it is booked.
    /// After want of memory all is as before.
    pub fn cease(
        &mut self,
        alloc: Global,
        node: NodeId,
        segments: &SegmentSet,
        id: TopologyId,
    ) -> Result<(), NoMemory>
        ensures ok { OnOk result (self.new ≡ record self.old { units = map (with_installation node segments.now id) self.old.units }) }
        ensures err { OnErr result (self.new ≡ self.old) }
    {
        let units = self.open_at(alloc, node, segments)?;
        let made = self.ceasings(alloc, node, segments, id, units.as_slice())?;
        self.cease_each(node, segments, id, units.as_slice(), made);
        self.move_on();
        Ok(())
    }

    /// Each call that isn't answered and asks again notes those of the lost segments that aren't
    /// complete for it.
    pub fn note_losses(&mut self, lost: &SegmentSet)
        ensures { (segments : List ℕ) → ((s : ℕ) → set_of.contains lost.now s ≡ among s segments) → self.new ≡ record self.old { calls = each_call (notes_losses self.old.units segments) self.old.calls } }
    {
        self.table.note(lost);
    }

    /// The numbers of the open units at the node on these segments, ascending. The only failure is
    /// that memory runs out.
    fn open_at(&self, alloc: Global, node: NodeId, segments: &SegmentSet) -> Result<Units, NoMemory>
        ensures { IfOk result (λ units. AreListed (is_open_at node segments.now) self.now.units units.list) }
    {
        let units = self.listeners.lost(alloc, node, segments)?;
        Ok(units)
    }

    /// By these units, what is to be booked where the node departs. The only failure is that memory
    /// runs out.
    fn departures(
        &self,
        alloc: Global,
        node: NodeId,
        units: &[UnitId],
    ) -> Result<Vec<Option<Piece>>, NoMemory>
        requires { AreThere self.now.units units.now }
        ensures { IfOk result (λ made. made.items ≡ map (λ number. booking_of (booking_departed self.now node) (slice_get self.now.units (number - 1))) units.now) }
    {
        let mut made = Vec::with_capacity(alloc, units.len())?;
        for unit in units {
            let place = place_of(*unit);
            made.push(self.departure(alloc, place, node)?)?;
        }
        Ok(made)
    }

    /// What is to be booked of the unit at the place where the node departs. The only failure is
    /// that memory runs out.
    fn departure(
        &self,
        alloc: Global,
        place: usize,
        node: NodeId,
    ) -> Result<Option<Piece>, NoMemory>
        requires { place < length self.now.units }
        ensures { IfOk result (λ made. (u : states.Unit) → slice_get self.now.units place ≡ Some u → made ≡ booking_departed self.now node u) }
    {
        let unit = &self.units[place];
        if !unit.is_open() {
            return Ok(None);
        }
        if !unit.is_at(node) {
            return Ok(None);
        }
        self.loss(alloc, place, None)
    }

    /// By these units, what is to be booked where the node installs the topology `id`, by which it
    /// ceases to read these segments. The only failure is that memory runs out.
    fn ceasings(
        &self,
        alloc: Global,
        node: NodeId,
        segments: &SegmentSet,
        id: TopologyId,
        units: &[UnitId],
    ) -> Result<Vec<Option<Piece>>, NoMemory>
        requires { AreThere self.now.units units.now }
        ensures { IfOk result (λ made. made.items ≡ map (λ number. booking_of (booking_ceased self.now node segments.now id) (slice_get self.now.units (number - 1))) units.now) }
    {
        let mut made = Vec::with_capacity(alloc, units.len())?;
        for unit in units {
            let place = place_of(*unit);
            made.push(self.ceasing(alloc, place, node, segments, id)?)?;
        }
        Ok(made)
    }

    /// What is to be booked of the unit at the place where the node ceases to read these segments.
    /// The only failure is that memory runs out.
    fn ceasing(
        &self,
        alloc: Global,
        place: usize,
        node: NodeId,
        segments: &SegmentSet,
        id: TopologyId,
    ) -> Result<Option<Piece>, NoMemory>
        requires { place < length self.now.units }
        ensures { IfOk result (λ made. (u : states.Unit) → slice_get self.now.units place ≡ Some u → made ≡ booking_ceased self.now node segments.now id u) }
    {
        let unit = &self.units[place];
        if !unit.is_running() {
            return Ok(None);
        }
        if !unit.is_at(node) {
            return Ok(None);
        }
        if !segments.has(unit.segment()) {
            return Ok(None);
        }
        self.loss(alloc, place, Some(id))
    }

    /// The open units at the node, which departs, are among these: they are lost, and by unit this is
    /// booked.
    fn lose_each(&mut self, node: NodeId, units: &[UnitId], mut made: Vec<Option<Piece>>)
        requires listed { AreListed (leaves node) self.old.units units.now }
        requires made { made.items ≡ map (λ number. booking_of (booking_departed self.old node) (slice_get self.old.units (number - 1))) units.now }
        ensures { self.new ≡ record self.old { units = map (with_departure node) self.old.units } }
    {
        // The proof asks for what the type keeps, which a read of a field gives.
        let _segments = self.segments;
        for index in 0..units.len() {
            let part = made[index].take();
            let place = place_of(units[index]);
            self.lose_one(place, node, part);
        }
    }

    /// The running units at the node on these segments are among these: they are lost, and by unit
    /// this is booked.
    fn cease_each(
        &mut self,
        node: NodeId,
        segments: &SegmentSet,
        id: TopologyId,
        units: &[UnitId],
        mut made: Vec<Option<Piece>>,
    )
        requires listed { AreListed (ceases_at node segments.now) self.old.units units.now }
        requires made { made.items ≡ map (λ number. booking_of (booking_ceased self.old node segments.now id) (slice_get self.old.units (number - 1))) units.now }
        ensures { self.new ≡ record self.old { units = map (with_installation node segments.now id) self.old.units } }
    {
        // The proof asks for what the type keeps, which a read of a field gives.
        let _segments = self.segments;
        for index in 0..units.len() {
            let part = made[index].take();
            let place = place_of(units[index]);
            self.cease_one(place, node, segments, id, part);
        }
    }

    /// The unit at the place is lost where it is open and at the node, which departs, and this is
    /// booked.
    fn lose_one(&mut self, place: usize, node: NodeId, part: Option<Piece>)
        requires place { place < length self.old.units }
        requires part { (u : states.Unit) → slice_get self.old.units place ≡ Some u → part ≡ booking_departed self.old node u }
        ensures { (u : states.Unit) → slice_get self.old.units place ≡ Some u → self.new ≡ record self.old { units = slice_set self.old.units place (with_departure node u) } }
    {
        let unit = &self.units[place];
        if !unit.is_open() {
            return;
        }
        if !unit.is_at(node) {
            return;
        }
        self.lose(place, None, part);
    }

    /// The unit at the place is lost where it runs at the node, on one of these segments, and this
    /// is booked.
    fn cease_one(
        &mut self,
        place: usize,
        node: NodeId,
        segments: &SegmentSet,
        id: TopologyId,
        part: Option<Piece>,
    )
        requires place { place < length self.old.units }
        requires part { (u : states.Unit) → slice_get self.old.units place ≡ Some u → part ≡ booking_ceased self.old node segments.now id u }
        ensures { (u : states.Unit) → slice_get self.old.units place ≡ Some u → self.new ≡ record self.old { units = slice_set self.old.units place (with_installation node segments.now id u) } }
    {
        let unit = &self.units[place];
        if !unit.is_running() {
            return;
        }
        if !unit.is_at(node) {
            return;
        }
        if !segments.has(unit.segment()) {
            return;
        }
        self.lose(place, Some(id), part);
    }

    /// The unit at the place, which is open, is lost, and this is booked for its segment.
    fn lose(&mut self, place: usize, at: Option<TopologyId>, part: Option<Piece>)
        requires open { is_one is_open_unit (slice_get self.old.units place) ≡ true }
        requires part { (u : states.Unit) → slice_get self.old.units place ≡ Some u → part ≡ booking_in self.old (with_loss at u) }
        ensures { (u : states.Unit) → slice_get self.old.units place ≡ Some u → self.new ≡ record self.old { units = slice_set self.old.units place (with_loss at u) } }
    {
        let unit = &mut self.units[place];
        let (number, call, segment) = (unit.id(), unit.call(), unit.segment());
        unit.mark_lost(at);
        self.table.close(call, segment, part);
        self.listeners.end(number);
    }
}

/// All segments that there can be.
fn all_segments() -> SegmentSet
    ensures { (segment : ℕ) → segment < 256 → set_of.contains result segment ≡ true }
{
    let mut segments = SegmentSet::new();
    for number in 0..256 {
        segments.add(SegmentId::new(number));
    }
    segments
}
