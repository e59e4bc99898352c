//! Laws of plain pipelines, for proofs of others. The functions do nothing.

ghost use Rattle.std.specs.Prelude.{◌≡◌, ◌++◌, List};
ghost use Rattle.grid_base.specs.declared.item.Item as element;
ghost use Rattle.pipeline_eval.specs.Pipes.{pipe, pipe_items};

use grid_base::Entry;
use pipeline_expr::{Answer, End, Pipeline};

/// What a pipeline makes of a longer list of entries, before its end, begins with what it makes of
/// the shorter one. So a walk gives each of its elements once and takes none back, however its
/// entries come in.
pub fn elements_grow(pipeline: &Pipeline, taken: &[Entry], more: &[Entry])
    ensures { (rest : List element.Item) × (pipe_items pipeline.now (taken.now ++ more.now) ≡ pipe_items pipeline.now taken.now ++ rest) }
{}

/// The answer of a walk is the list of its elements.
pub fn walk_is_its_elements(pipeline: &Pipeline, entries: &[Entry])
    requires { pipeline.now.end ≡ End.Each }
    ensures { pipe pipeline.now entries.now ≡ Answer.List (pipe_items pipeline.now entries.now) }
{}
