//! What a call asks for.

ghost use Rattle.std.specs.Prelude.{◌≡◌, IfOk};

use delivery_mode::Guarantee;
use grid_base::{Duplicate, NoMemory};
use pipeline_expr::Pipeline;
use std::alloc::Global;

/// What a call asks for: its guarantee, how many rounds it may make (1 to 64), how many entries it
/// reads at a time (1 to 1,000), and what it does with them.
#[derive(Debug, Drop)]
pub struct Request {
    pub guarantee: Guarantee,
    pub rounds: u8,
    pub batch: u16,
    pub pipeline: Pipeline,
}

impl Request {
    /// An equal request. The only failure is that memory runs out.
    pub fn copy(&self, alloc: Global) -> Result<Request, NoMemory>
        ensures { IfOk result (λ copy. copy ≡ self.now) }
    {
        let pipeline = self.pipeline.copy(alloc)?;
        Ok(Request {
            guarantee: self.guarantee,
            rounds: self.rounds,
            batch: self.batch,
            pipeline,
        })
    }
}

impl Duplicate for Request {
    fn copy(&self, alloc: Global) -> Result<Request, NoMemory> {
        Request::copy(self, alloc)
    }
}
