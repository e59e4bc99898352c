//! What is known of a store without a search through it.

ghost use Rattle.std.specs.Prelude.{◌≡◌};
ghost use Rattle.std.specs.FinMap as map_of;
ghost use Rattle.cluster_model.specs.State.{Holding};
ghost use Rattle.cluster_store.specs.Hints.{AreHints, WasAnnounced, WasLanded, WasSent, hints_changed};

mod ahead;
mod flying;
mod place;

pub(crate) use ahead::Ahead;
pub(crate) use flying::Flying;
use grid_base::{NodeId, SegmentId};
pub(crate) use place::Place;
use std::alloc::Global;
use topology_coord::Coord;

/// What is known of a store without a search through it: which topology may follow,
/// which chunks fly, and a place in the order of receivers and segments before which no chunk may
/// be sent.
#[derive(Debug, Drop)]
pub(crate) struct Hints {
    pub(crate) ahead: Ahead,
    pub(crate) flying: Flying,
    pub(crate) from: Place,
}

impl Hints {
    /// What is known of a store with this coordinator and no transfers.
    pub(crate) fn first(alloc: Global, coord: &Coord) -> Hints
        ensures { (st : Holding) → st.coord ≡ coord.now → st.copying.transfers ≡ map_of.empty → AreHints result st }
    {
        let ahead = Ahead::of(alloc, coord);
        Hints {
            ahead,
            flying: Flying::nothing(),
            from: Place::first(),
        }
    }

    /// Members or topologies have changed.
    pub(crate) fn change(&mut self, ahead: Ahead)
        ensures { self.new ≡ hints_changed ahead self.old }
    {
        self.ahead = ahead;
        self.from = Place::first();
    }

    /// A topology is announced, which keeps the transfers or closes them all.
    pub(crate) fn announce(&mut self, keeps: bool)
        ensures { WasAnnounced keeps self.old self.new }
    {
        self.change(Ahead::Unknown);
        if keeps {
            return;
        }
        self.flying = Flying::nothing();
    }

    /// A chunk of the segment is sent to the receiver.
    pub(crate) fn send(&mut self, receiver: NodeId, segment: SegmentId)
        ensures { WasSent receiver segment self.old self.new }
    {
        self.flying.add(receiver, segment);
    }

    /// What flies of the segment to the receiver lands.
    pub(crate) fn land(&mut self, receiver: NodeId, segment: SegmentId)
        ensures { WasLanded receiver segment self.old self.new }
    {
        self.flying.remove(receiver, segment);
        self.from = self.from.back_to(receiver, segment);
    }
}
