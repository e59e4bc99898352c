//! The desk at which jobs are taken and pieces are given.

use grid_base::{NoMemory, NodeId, UnitId};

/// A job, or the end of work.
#[derive(Debug, Drop)]
pub enum Order<J> {
    Job(J),
    Stop,
}

/// Where jobs are taken and what is made of them is given. It may wait where its type holds what
/// waiting needs.
pub trait Desk {
    /// A job.
    type Job;

    /// What is made of a job.
    type Made;

    /// The next job of a node, or the end of work.
    fn take(&self, node: NodeId) -> Order<Self::Job>;

    /// The unit of a job.
    fn unit(job: &Self::Job) -> UnitId;

    /// What is made of a job. The only failure is that memory runs out.
    fn make(&self, job: Self::Job) -> Result<Self::Made, NoMemory>;

    /// Takes back what was made, or that memory ran out.
    fn give(&self, made: Result<Self::Made, NoMemory>);
}
