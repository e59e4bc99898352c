//! The step that an event makes.

ghost use Rattle.std.specs.Prelude.{◌≡◌, true, None, Some, IfOk, IsErrOf, OnErr, OnOk};
ghost use Rattle.cluster_model.specs.Step.{after, allowed, changed};

use crate::apply_fault::ApplyFault;
use crate::cluster::Core;
use grid_base::NoMemory;
use grid_event::Event;
use std::alloc::Global;

impl Core {
    /// The event happens. Refused comes only where there is no such step; where there is none, the
    /// answer is Refused or want of memory. After a fault the core is as before.
    pub fn apply(&mut self, alloc: Global, event: &Event) -> Result<(), ApplyFault>
        ensures ok { OnOk result (after self.old event.now ≡ Some self.new) }
        ensures refused { IsErrOf result ApplyFault.Refused → after self.old event.now ≡ None }
        ensures err { OnErr result (self.new ≡ self.old) }
    {
        if !self.allows(alloc, event)? {
            return Err(ApplyFault::Refused);
        }
        self.step(alloc, event)?;
        Ok(())
    }

    /// Whether the event may happen now. The only failure is that memory runs out.
    pub fn allows(&self, alloc: Global, event: &Event) -> Result<bool, NoMemory>
        ensures { IfOk result (λ may. may ≡ allowed self.now event.now) }
    {
        match event {
            Event::Write(write) => Ok(self.store.can_write(write.get())),
            Event::Erase(erase) => Ok(self.store.can_erase(erase.get())),
            Event::Tick { ticks } => Ok(self.store.can_tick(*ticks)),
            Event::Join { node } => Ok(self.store.can_join(*node)),
            Event::Depart { node } => Ok(self.store.can_depart(*node)),
            Event::Announce(topology) => self.store.can_announce(alloc, topology.get()),
            Event::Install { node, id } => Ok(self.store.can_install(*node, *id)),
            Event::Copy(copy) => self.store.can_copy(alloc, copy.get()),
            Event::Land { receiver, segment } => Ok(self.store.can_land(*receiver, *segment)),
            Event::Invoke(invoke) => Ok(self.can_invoke(invoke.get())),
            Event::Round(round) => self.can_round(alloc, round.get()),
            Event::Begin { unit, runs } => Ok(self.can_begin(*unit, *runs)),
            Event::Scan(scan) => self.can_scan(alloc, scan.get()),
            Event::Fetch(fetch) => self.can_fetch(alloc, fetch.get()),
            Event::Take(take) => self.can_take(alloc, take.get()),
            Event::Done { unit } => Ok(self.can_end(*unit)),
            Event::Answer(answer) => self.can_answer(alloc, answer.get()),
        }
    }

    /// The event happens, which may happen now; it is not looked at again. After want of memory the
    /// core is as before.
    pub fn step(&mut self, alloc: Global, event: &Event) -> Result<(), NoMemory>
        requires { allowed self.old event.now ≡ true }
        ensures ok { OnOk result (self.new ≡ changed self.old event.now) }
        ensures err { OnErr result (self.new ≡ self.old) }
    {
        match event {
            Event::Write(write) => self.write(alloc, write.get()),
            Event::Erase(erase) => self.erase(alloc, erase.get()),
            Event::Tick { ticks } => {
                self.tick(*ticks);
                Ok(())
            }
            Event::Join { node } => self.join(alloc, *node),
            Event::Depart { node } => self.depart(alloc, *node),
            Event::Announce(topology) => self.announce(alloc, topology.get()),
            Event::Install { node, id } => self.install(alloc, *node, *id),
            Event::Copy(copy) => self.copy(alloc, copy.get()),
            Event::Land { receiver, segment } => self.land(alloc, *receiver, *segment),
            Event::Invoke(invoke) => self.invoke(alloc, invoke.get()),
            Event::Round(round) => self.round(alloc, round.get()),
            Event::Begin { unit, runs } => {
                self.begin(*unit, *runs);
                Ok(())
            }
            Event::Scan(scan) => self.scan(alloc, scan.get()),
            Event::Fetch(fetch) => self.fetch(alloc, fetch.get()),
            Event::Take(take) => self.take_batch(alloc, take.get()),
            Event::Done { unit } => self.end(alloc, *unit),
            Event::Answer(answer) => self.answer(alloc, answer.get()),
        }
    }
}
