//! Plain pipelines over lists of entries.

ghost use Rattle.std.specs.Prelude.{◌≡◌, IfOk};
ghost use Rattle.pipeline_eval.specs.Pipes.{as_items, pipe};

use crate::ends::answer_of;
use crate::operations::apply_all;
use grid_base::{Entries, Entry, Item, NoMemory};
use pipeline_expr::{Answer, Pipeline};
use std::alloc::Global;

/// The answer of the plain pipeline over a list of entries: each operation is applied to the whole
/// list in turn, and then the end. `filter` keeps the elements at which its expression is true,
/// `map` replaces each element by a value, `flatmap` by several, and `distinct` keeps the first of
/// equal elements. `count` is the number of elements, `sum` wraps modulo 2^64, `min` and `max` are
/// none where there is no element, `collect` and `each` are the list. The only failure is that
/// memory runs out.
pub fn run_plain_pipeline(
    alloc: Global,
    pipeline: &Pipeline,
    entries: &Entries,
) -> Result<Answer, NoMemory>
    ensures { IfOk result (λ answer. answer ≡ pipe pipeline.now entries.now.list) }
{
    let items = elements_of(alloc, entries.as_slice())?;
    let left = apply_all(alloc, pipeline.ops.as_slice(), items)?;
    answer_of(alloc, pipeline.end, left)
}

/// Entries as the first elements of a pipeline. The only failure is that memory runs out.
pub fn elements_of(alloc: Global, entries: &[Entry]) -> Result<Vec<Item>, NoMemory>
    ensures { IfOk result (λ items. items.items ≡ as_items entries.now) }
{
    let mut items = Vec::with_capacity(alloc, entries.len())?;
    for entry in entries {
        items.push(Item::Entry(entry.copy(alloc)?))?;
    }
    Ok(items)
}
