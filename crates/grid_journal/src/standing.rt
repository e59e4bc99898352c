//! What stands after the events of a journal.

ghost use Rattle.std.specs.Prelude.{◌≡◌, ◌<◌, ◌≤◌, true, [], length, reverse, IfOk, OnOk};
ghost use Rattle.std.specs.FinMap as map;
ghost use Rattle.std.specs.Option.{unwrap_or};
ghost use Rattle.grid_event.specs.Configs.{is_config};
ghost use Rattle.grid_journal.specs.Standing.{standing_of, with_asks, with_departed, with_items, with_one, with_ticks};

use crate::key_map::KeyMap;
use crate::membership::Membership;
use crate::numbered::Numbered;
use grid_base::{NoMemory, NodeId, Stamped};
use grid_event::{AnswerEvent, Ask, Config, Event, Journal, Outcome, TakeEvent, WriteEvent};
use std::alloc::Global;

/// What stands after some events: the members; the clock; the keys of the cluster; the call that
/// asked for each unit; how many items the user of each call was given; and the outcomes of calls.
#[derive(Drop)]
pub(crate) struct Standing {
    pub membership: Membership,
    pub clock: u64,
    pub keys: KeyMap,
    pub askers: Numbered<u32>,
    pub given: Numbered<u64>,
    pub outcomes: Numbered<Outcome>,
}

impl Standing {
    /// What stands after all events of a journal that was started with these settings.
    pub(crate) fn after(
        alloc: Global,
        config: &Config,
        journal: &Journal,
    ) -> Result<Standing, NoMemory>
        requires { is_config config.now ≡ true }
        ensures { IfOk result (λ s. s ≡ standing_of config.now (reverse journal.now.history.events)) }
    {
        let mut standing = Standing::new(alloc, config)?;
        for place in 0..journal.len() {
            if let Some(event) = journal.event(place + 1) {
                standing.note(alloc, event)?;
            }
        }
        Ok(standing)
    }

    /// What stands before all events.
    #[tactic(auto, unfolding(crate::specs::Standing::standing_of))]
    fn new(alloc: Global, config: &Config) -> Result<Standing, NoMemory>
        requires { is_config config.now ≡ true }
        ensures { IfOk result (λ s. s ≡ standing_of config.now []) }
    {
        let membership = Membership::new(alloc, config)?;
        Ok(Standing {
            membership,
            clock: 0,
            keys: KeyMap::new(alloc),
            askers: Numbered::new(alloc),
            given: Numbered::new(alloc),
            outcomes: Numbered::new(alloc),
        })
    }

    /// One event more.
    fn note(&mut self, alloc: Global, event: &Event) -> Result<(), NoMemory>
        requires { is_config self.old.membership.config ≡ true }
        ensures { OnOk result (self.new ≡ with_one self.old event.now) }
    {
        match event {
            Event::Write(write) => self.note_write(alloc, write.get()),
            Event::Erase(erase) => {
                self.keys.remove(&erase.get().key);
                Ok(())
            }
            Event::Tick { ticks } => self.note_ticks(*ticks),
            Event::Join { node } => self.membership.note_move(*node, true),
            Event::Depart { node } => self.note_departure(*node),
            Event::Announce(topology) => self.membership.announce(alloc, topology.get()),
            Event::Round(round) => {
                let round = round.get();
                note_asks(&mut self.askers, round.call.number(), round.asks.as_slice())
            }
            Event::Take(take) => self.note_taking(take.get()),
            Event::Answer(answer) => self.note_answer(alloc, answer.get()),
            _ => Ok(()),
        }
    }

    /// A key is written.
    fn note_write(&mut self, alloc: Global, write: &WriteEvent) -> Result<(), NoMemory>
        ensures { OnOk result (self.new ≡ record self.old { keys = map.insert self.old.keys write.now.key (record { value = write.now.value; until = write.now.until }) }) }
    {
        let value = write.value.copy(alloc)?;
        let until = write.until;
        self.keys.put(write.key, Stamped { value, until })
    }

    /// The clock goes on.
    fn note_ticks(&mut self, ticks: u32) -> Result<(), NoMemory>
        ensures { OnOk result (self.new ≡ with_ticks self.old ticks) }
    {
        let Some(clock) = self.clock.checked_add(u64::from(ticks)) else {
            // So many events fit no memory.
            return Err(NoMemory);
        };
        self.clock = clock;
        self.keys.drop_expired(clock);
        Ok(())
    }

    /// A node departs.
    fn note_departure(&mut self, node: NodeId) -> Result<(), NoMemory>
        requires { is_config self.old.membership.config ≡ true }
        ensures { OnOk result (self.new ≡ with_departed self.old node) }
    {
        self.keys.drop_lost(&self.membership, node);
        self.membership.note_move(node, false)
    }

    /// The user of the call that asked for a unit is given items.
    fn note_taking(&mut self, take: &TakeEvent) -> Result<(), NoMemory>
        ensures { OnOk result (self.new ≡ record self.old { given = with_items (map.get self.old.askers take.now.unit) (length take.now.given) self.old.given }) }
    {
        let Some(call) = self.askers.get(take.unit.number()) else {
            return Ok(());
        };
        let call = *call;
        let Some(given) = self.given(call).checked_add(take.given.len() as u64) else {
            // So many items fit no memory.
            return Err(NoMemory);
        };
        self.given.put(call, given)
    }

    /// A call is answered.
    fn note_answer(&mut self, alloc: Global, answer: &AnswerEvent) -> Result<(), NoMemory>
        ensures { OnOk result (self.new ≡ record self.old { outcomes = map.insert self.old.outcomes answer.now.call answer.now.outcome }) }
    {
        let outcome = answer.outcome.copy(alloc)?;
        self.outcomes.put(answer.call.number(), outcome)
    }

    /// How many items the user of the call was given.
    pub(crate) fn given(&self, call: u32) -> u64
        ensures { result ≡ unwrap_or (map.get self.now.given call) 0 }
    {
        match self.given.get(call) {
            Some(given) => *given,
            None => 0,
        }
    }
}

/// The call asks for these units.
fn note_asks(askers: &mut Numbered<u32>, call: u32, asks: &[Ask]) -> Result<(), NoMemory>
    ensures { OnOk result (askers.new ≡ with_asks call asks.now askers.old) }
{
    for ask in asks {
        askers.put(ask.unit.number(), call)?;
    }
    Ok(())
}
