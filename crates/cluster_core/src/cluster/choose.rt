//! The event that a command chooses.

ghost use Rattle.std.specs.Prelude.{◌≡◌, ◌+◌, false, None, Some, IfOk};
ghost use Rattle.std.specs.Option.{option_map};
ghost use Rattle.cluster_core.specs.Lifespans.{is_longer};
ghost use Rattle.cluster_model.specs.Commands.{begin_event, chosen, done_event, fetch_event, if_allowed, of_newest, scan_event, take_event};
ghost use Rattle.grid_event.specs.declared.event.Event.TheVariants as events;

use crate::cluster::Core;
use grid_base::limits::LONGEST_LIFESPAN;
use grid_base::{CallId, Datum, Key, NoMemory, NodeId, SegmentId, SessionId};
use grid_event::{Command, EraseEvent, Event, InvokeEvent, Request, WriteEvent};
use sqlite_items::Boxed;
use std::alloc::Global;

impl Core {
    /// The event that the command chooses. None comes exactly where it has none. The only failure is
    /// that memory runs out.
    #[tactic(auto, unfolding(cluster_model::specs::Commands::chosen))]
    pub fn choose(&self, alloc: Global, command: &Command) -> Result<Option<Event>, NoMemory>
        ensures { IfOk result (λ event. event ≡ chosen self.now command.now) }
    {
        match command {
            Command::Put {
                by,
                node,
                key,
                value,
                lifespan,
            } => self.write_event(alloc, *by, *node, key, value, *lifespan),
            Command::Erase { by, node, key } => {
                let (by, node, key) = (*by, *node, *key);
                self.erase_event(alloc, EraseEvent { by, node, key })
            }
            Command::Tick { ticks } => Ok(self.tick_event(*ticks)),
            Command::Join { node } => Ok(self.join_event(*node)),
            Command::Depart { node } => Ok(self.depart_event(*node)),
            Command::Announce => self.store.announce_event(alloc),
            Command::Install { node } => Ok(self.store.install_event(*node)),
            Command::Copy { receiver, segment } => {
                self.store.copy_event(alloc, *receiver, *segment)
            }
            Command::Land { receiver, segment } => Ok(self.store.land_event(*receiver, *segment)),
            Command::Call {
                by,
                call,
                node,
                request,
            } => self.invoke_event(alloc, *by, *call, *node, request),
            Command::Round { call } => self.round_event(alloc, *call),
            Command::Begin { call, segment } => Ok(self.newest_begin(*call, *segment)),
            Command::Scan { call, segment } => self.newest_scan(alloc, *call, *segment),
            Command::Fetch { call, segment } => self.newest_fetch(alloc, *call, *segment),
            Command::Take { call, segment } => self.newest_take(alloc, *call, *segment),
            Command::Done { call, segment } => Ok(self.newest_done(*call, *segment)),
            Command::Answer { call } => self.answer_event(alloc, *call),
            Command::Advance => self.store.advance_event(alloc),
            Command::Drive { call } => self.drive_event(alloc, *call),
            Command::Serve { node } => self.serve_event(alloc, *node),
        }
    }

    /// The write of the value, which stands until the clock has gone on by its lifespan, where it
    /// may happen. The only failure is that memory runs out.
    fn write_event(
        &self,
        alloc: Global,
        by: SessionId,
        node: NodeId,
        key: &Key,
        value: &Datum,
        lifespan: Option<u32>,
    ) -> Result<Option<Event>, NoMemory>
        ensures { IfOk result (λ event. event ≡ if_allowed self.now (events.Write (record { by = by; node = node; key = key.now; value = value.now; until = option_map (λ ticks. self.now.holding.copying.clock + ticks) lifespan }))) }
    {
        if is_longer(lifespan) {
            return Ok(None);
        }
        let value = value.copy(alloc)?;
        let write = WriteEvent {
            by,
            node,
            key: *key,
            value,
            until: self.deadline(lifespan),
        };
        if !self.store.can_write(&write) {
            return Ok(None);
        }
        let write = Boxed::new(alloc, write)?;
        Ok(Some(Event::Write(write)))
    }

    /// The clock after a lifespan from now on, which isn't longer than the longest.
    fn deadline(&self, lifespan: Option<u32>) -> Option<u32>
        requires { is_longer lifespan ≡ false }
        ensures { result ≡ option_map (λ ticks. self.now.holding.copying.clock + ticks) lifespan }
    {
        match lifespan {
            None => None,
            Some(ticks) => Some(self.store.clock() + ticks),
        }
    }

    /// The erasure, where it may happen. The only failure is that memory runs out.
    fn erase_event(&self, alloc: Global, erase: EraseEvent) -> Result<Option<Event>, NoMemory>
        ensures { IfOk result (λ event. event ≡ if_allowed self.now (events.Erase erase)) }
    {
        if !self.store.can_erase(&erase) {
            return Ok(None);
        }
        let erase = Boxed::new(alloc, erase)?;
        Ok(Some(Event::Erase(erase)))
    }

    /// The tick, where it may happen.
    fn tick_event(&self, ticks: u32) -> Option<Event>
        ensures { result ≡ if_allowed self.now (events.Tick ticks) }
    {
        if !self.store.can_tick(ticks) {
            return None;
        }
        Some(Event::Tick { ticks })
    }

    /// The arrival of the node, where it may join.
    fn join_event(&self, node: NodeId) -> Option<Event>
        ensures { result ≡ if_allowed self.now (events.Join node) }
    {
        if !self.store.can_join(node) {
            return None;
        }
        Some(Event::Join { node })
    }

    /// The departure of the node, where it may depart.
    fn depart_event(&self, node: NodeId) -> Option<Event>
        ensures { result ≡ if_allowed self.now (events.Depart node) }
    {
        if !self.store.can_depart(node) {
            return None;
        }
        Some(Event::Depart { node })
    }

    /// The making of the call, where it may be made. The only failure is that memory runs out.
    fn invoke_event(
        &self,
        alloc: Global,
        by: SessionId,
        call: CallId,
        node: NodeId,
        request: &Request,
    ) -> Result<Option<Event>, NoMemory>
        ensures { IfOk result (λ event. event ≡ if_allowed self.now (events.Invoke (record { by = by; call = call; node = node; request = request.now }))) }
    {
        let request = request.copy(alloc)?;
        let invoke = InvokeEvent {
            by,
            call,
            node,
            request,
        };
        if !self.can_invoke(&invoke) {
            return Ok(None);
        }
        let invoke = Boxed::new(alloc, invoke)?;
        Ok(Some(Event::Invoke(invoke)))
    }

    /// The beginning of the call's newest unit on the segment.
    fn newest_begin(&self, call: CallId, segment: SegmentId) -> Option<Event>
        ensures { result ≡ of_newest begin_event self.now call segment }
    {
        match self.newest(call, segment) {
            None => None,
            Some(unit) => self.begin_event(unit),
        }
    }

    /// The end of the call's newest unit on the segment.
    fn newest_done(&self, call: CallId, segment: SegmentId) -> Option<Event>
        ensures { result ≡ of_newest done_event self.now call segment }
    {
        match self.newest(call, segment) {
            None => None,
            Some(unit) => self.done_event(unit),
        }
    }

    /// The scan of the call's newest unit on the segment. The only failure is that memory runs out.
    fn newest_scan(
        &self,
        alloc: Global,
        call: CallId,
        segment: SegmentId,
    ) -> Result<Option<Event>, NoMemory>
        ensures { IfOk result (λ event. event ≡ of_newest scan_event self.now call segment) }
    {
        match self.newest(call, segment) {
            None => Ok(None),
            Some(unit) => self.scan_event(alloc, unit),
        }
    }

    /// The fetch of the call's newest unit on the segment. The only failure is that memory runs out.
    fn newest_fetch(
        &self,
        alloc: Global,
        call: CallId,
        segment: SegmentId,
    ) -> Result<Option<Event>, NoMemory>
        ensures { IfOk result (λ event. event ≡ of_newest fetch_event self.now call segment) }
    {
        match self.newest(call, segment) {
            None => Ok(None),
            Some(unit) => self.fetch_event(alloc, unit),
        }
    }

    /// The taking of the call's newest unit on the segment. The only failure is that memory runs
    /// out.
    fn newest_take(
        &self,
        alloc: Global,
        call: CallId,
        segment: SegmentId,
    ) -> Result<Option<Event>, NoMemory>
        ensures { IfOk result (λ event. event ≡ of_newest take_event self.now call segment) }
    {
        match self.newest(call, segment) {
            None => Ok(None),
            Some(unit) => self.take_event(alloc, unit),
        }
    }
}

/// Whether it is a lifespan longer than the longest.
fn is_longer(lifespan: Option<u32>) -> bool
    ensures { result ≡ is_longer lifespan }
{
    match lifespan {
        None => false,
        Some(ticks) => LONGEST_LIFESPAN < ticks,
    }
}
