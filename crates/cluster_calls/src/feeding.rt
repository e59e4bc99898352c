//! What a call's pipeline is fed.

ghost use Rattle.std.specs.Prelude.{◌≡◌, ◌++◌, IfOk, drop};
ghost use Rattle.cluster_calls.specs.Takings.{entries_in};

use crate::taken::Taken;
use grid_base::{Entries, Entry, Items, NoMemory};
use std::alloc::Global;

/// The entries that were taken, and these behind them, in memory of their own. The only failure is
/// that memory runs out.
pub(crate) fn entries_behind(
    alloc: Global,
    taken: &[Taken],
    entries: &[Entry],
) -> Result<Entries, NoMemory>
    ensures { IfOk result (λ all. all.list ≡ entries_in taken.now ++ entries.now) }
{
    let mut all = Entries::new(alloc);
    for one in taken {
        all.push(one.entry().copy(alloc)?)?;
    }
    for entry in entries {
        all.push(entry.copy(alloc)?)?;
    }
    Ok(all)
}

/// The items behind the first ones, of which there are so many. The only failure is that memory
/// runs out.
pub(crate) fn items_behind(alloc: Global, items: Items, first: u64) -> Result<Items, NoMemory>
    ensures { IfOk result (λ left. left.list ≡ drop first items.list) }
{
    let mut left = Items::new(alloc);
    for item in items.into_vec().into_iter().skip(first as usize) {
        left.push(item)?;
    }
    Ok(left)
}
