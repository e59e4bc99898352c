//! The first of equal elements.

ghost use Rattle.std.specs.Prelude.{◌≡◌, ◌∷◌, ◌++◌, [], List, IfOk, OnOk};
ghost use Rattle.grid_base.specs.declared.item.Item as item_data;
ghost use Rattle.pipeline_eval.specs.Lists.{distinct};
ghost use Rattle.pipeline_eval.specs.Seen.{Keeps};

use grid_base::{Item, NoMemory};
use std::alloc::Global;
use std::collections::BTreeSet;

/// Keeps the first of equal elements, in order. What was seen is held in an ordered set, so that
/// an element is compared with few others.
pub(crate) fn distinct(alloc: Global, items: Vec<Item>) -> Result<Vec<Item>, NoMemory>
    ensures { IfOk result (λ kept. kept.items ≡ distinct items.items) }
{
    let mut seen = BTreeSet::new(alloc);
    let mut kept = Vec::new(alloc);
    for item in items {
        keep_new(alloc, &mut seen, &mut kept, item)?;
    }
    Ok(kept)
}

/// Puts an element behind those that are kept, where it is new to the set.
fn keep_new(
    alloc: Global,
    seen: &mut BTreeSet<Item>,
    kept: &mut Vec<Item>,
    item: Item,
) -> Result<(), NoMemory>
    ensures { OnOk result ((done : List item_data.Item) → Keeps seen.old kept.old.items done → Keeps seen.new kept.new.items (done ++ item ∷ [])) }
{
    let copy = item.copy(alloc)?;
    if seen.insert(copy)? {
        kept.push(item)?;
    }
    Ok(())
}
