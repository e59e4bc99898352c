//! The desk of a live run.

use crate::shared::{Next, Scripted, Shared};
use grid_base::{NoMemory, NodeId, UnitId};
use grid_book::{Job, Made};
use node_workers::{Desk, Grid, Order};
use std::alloc::Global;
use std::sync::Wait;

/// Where workers take jobs, and give what they made of them: the book under its lock.
#[derive(Drop)]
pub(crate) struct GridDesk<'a, 'b, R: Wait, B: Scripted> {
    pub(crate) rt: &'a R,
    pub(crate) alloc: Global,
    pub(crate) grid: &'a Grid<Shared<'b, B>>,
}

impl<R: Wait + Sync, B: Scripted + Send + Sync> Desk for GridDesk<'_, '_, R, B> {
    type Job = Job;

    type Made = Made;

    fn take(&self, node: NodeId) -> Order<Job> {
        // It waits right after a look that found nothing, under the same taking of the lock; and it
        // wakes all others after each look at which it did something, and as it leaves.
        let mut shared = self.grid.lock.lock(self.rt);
        for _ in self.rt.forever() {
            match shared.next(self.alloc, node) {
                Next::Job(job) => return Order::Job(job),
                Next::Acted => self.grid.wake.notify_all(),
                Next::Idle => shared = self.grid.wake.wait(self.rt, shared),
                Next::Over => {
                    self.grid.wake.notify_all();
                    return Order::Stop;
                }
            }
        }
        unreachable!()
    }

    fn unit(job: &Job) -> UnitId {
        job.unit
    }

    fn make(&self, job: Job) -> Result<Made, NoMemory> {
        Made::of(self.alloc, job)
    }

    fn give(&self, made: Result<Made, NoMemory>) {
        let mut shared = self.grid.lock.lock(self.rt);
        shared.hand(self.alloc, made);
        self.grid.wake.notify_all();
    }
}
