//! The operations of a pipeline in turn, beside the sets of its `distinct`s.

ghost use Rattle.std.specs.Prelude.{◌≡◌, IfOk, OnOk, OnErr};
ghost use Rattle.pipeline_feed.specs.Fed.{Gives, Learns};

use crate::element_set::ElementSet;
use grid_base::{Item, NoMemory};
use pipeline_eval::apply_all;
use pipeline_expr::Op;
use std::alloc::Global;
use std::slice;

/// The further elements that the operations come to where they are given these items behind those
/// that the sets stand for. The only failure is that memory runs out.
pub fn further_of(
    sets: &[ElementSet],
    alloc: Global,
    ops: &[Op],
    items: Vec<Item>,
) -> Result<Vec<Item>, NoMemory>
    ensures { IfOk result (λ made. Gives sets.now ops.now items.items made.items) }
{
    let Some((op, rest)) = ops.split_first() else {
        return Ok(items);
    };
    let made = apply_all(alloc, slice::from_ref(op), items)?;
    let Op::Distinct = op else {
        return further_of(sets, alloc, rest, made);
    };
    let Some((set, others)) = sets.split_first() else {
        return further_of(sets, alloc, rest, made);
    };
    further_of(others, alloc, rest, set.lacking(made))
}

/// Each set learns what comes to its `distinct` of the items. It fails only where memory runs out,
/// and then the sets are as before.
pub fn feed_all(
    sets: &mut [ElementSet],
    alloc: Global,
    ops: &[Op],
    items: Vec<Item>,
) -> Result<(), NoMemory>
    ensures ok { OnOk result (Learns sets.old ops.now items.items sets.new) }
    ensures err { OnErr result (sets.new ≡ sets.old) }
{
    if sets.is_empty() {
        return Ok(());
    }
    let Some((op, rest)) = ops.split_first() else {
        return Ok(());
    };
    let passing = apply_all(alloc, slice::from_ref(op), items)?;
    let Op::Distinct = op else {
        return feed_all(sets, alloc, rest, passing);
    };
    let Some((set, others)) = sets.split_first_mut() else {
        return Ok(());
    };
    let lacking = set.lacking(passing);
    let passed_on = copies_of(alloc, &lacking)?;
    set.add_all(alloc, &lacking)?;
    if feed_all(others, alloc, rest, passed_on).is_err() {
        set.remove_all(&lacking);
        return Err(NoMemory);
    }
    Ok(())
}

/// Equal items. The only failure is that memory runs out.
fn copies_of(alloc: Global, items: &[Item]) -> Result<Vec<Item>, NoMemory>
    ensures { IfOk result (λ copies. copies.items ≡ items.now) }
{
    let mut copies = Vec::with_capacity(alloc, items.len())?;
    for item in items {
        copies.push(item.copy(alloc)?)?;
    }
    Ok(copies)
}
