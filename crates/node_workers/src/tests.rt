//! Workers at a desk in memory with three jobs, of which the second finds no memory.

use crate::{Desk, Gate, NoGate, Order, serve_node};
use grid_base::{NoMemory, NodeId, UnitId};
use std::sync::atomic::{AtomicU32, Ordering};
use std::test::Fail;
use std::thread;

/// How often each of the units 1 to 3 came by; what is another's is counted at 0.
#[derive(Drop)]
struct Counts {
    times: [AtomicU32; 4],
}

impl Counts {
    fn new() -> Counts {
        Counts {
            times: [
                AtomicU32::new(0),
                AtomicU32::new(0),
                AtomicU32::new(0),
                AtomicU32::new(0),
            ],
        }
    }

    fn count(&self, unit: UnitId) {
        let place = (unit.number() & 3) as usize;
        self.times[place].fetch_add(1, Ordering::SeqCst);
    }

    fn all(&self) -> [u32; 4] {
        [self.at(0), self.at(1), self.at(2), self.at(3)]
    }

    fn at(&self, place: usize) -> u32 {
        match self.times.get(place) {
            None => 0,
            Some(times) => times.load(Ordering::SeqCst),
        }
    }
}

/// A desk with three jobs.
#[derive(Drop)]
struct Three {
    taken: AtomicU32,
    given: Counts,
    refused: AtomicU32,
}

impl Three {
    fn new() -> Three {
        Three {
            taken: AtomicU32::new(0),
            given: Counts::new(),
            refused: AtomicU32::new(0),
        }
    }
}

impl Desk for Three {
    type Job = UnitId;

    type Made = UnitId;

    fn take(&self, _node: NodeId) -> Order<UnitId> {
        let before = self.taken.fetch_add(1, Ordering::SeqCst);
        if before < 3 {
            Order::Job(UnitId::new(before + 1))
        } else {
            Order::Stop
        }
    }

    fn unit(job: &UnitId) -> UnitId {
        *job
    }

    fn make(&self, job: UnitId) -> Result<UnitId, NoMemory> {
        if job.number() == 2 {
            return Err(NoMemory);
        }
        Ok(job)
    }

    fn give(&self, made: Result<UnitId, NoMemory>) {
        match made {
            Ok(unit) => self.given.count(unit),
            Err(_) => {
                self.refused.fetch_add(1, Ordering::SeqCst);
            }
        }
    }
}

/// A gate that counts who passes.
#[derive(Drop)]
struct Turnstile {
    entered: Counts,
    left: Counts,
}

impl Gate for Turnstile {
    fn enter(&self, unit: UnitId) {
        self.entered.count(unit);
    }

    fn leave(&self, unit: UnitId) {
        self.left.count(unit);
    }
}

#[test]
fn one_worker(rt: HostRuntime) -> Result<(), Fail> {
    let desk = Three::new();
    let gate = Turnstile {
        entered: Counts::new(),
        left: Counts::new(),
    };
    serve_node(&rt, &desk, NodeId::new(0), &gate);
    assert_eq!(rt; gate.entered.all(), [0, 1, 1, 1]);
    assert_eq!(rt; gate.left.all(), [0, 1, 1, 1]);
    assert_eq!(rt; desk.given.all(), [0, 1, 0, 1]);
    assert_eq!(rt; desk.refused.load(Ordering::SeqCst), 1);
    Ok(())
}

#[test]
fn two_workers(rt: HostRuntime) -> Result<(), Fail> {
    let desk = Three::new();
    let work = || serve_node(&rt, &desk, NodeId::new(0), &NoGate);
    thread::join(&rt, work, work);
    assert_eq!(rt; desk.given.all(), [0, 1, 0, 1]);
    assert_eq!(rt; desk.refused.load(Ordering::SeqCst), 1);
    assert_eq!(rt; desk.taken.load(Ordering::SeqCst), 5);
    Ok(())
}
