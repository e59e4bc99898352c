//! Copies of lists.

ghost use Rattle.std.specs.Prelude.{◌≡◌, IfOk};

use grid_base::{Duplicate, NoMemory};
use sqlite_items::Items;
use std::alloc::Global;

/// A list of equal items. The only failure is that memory runs out.
pub(crate) fn copy_list<T: Duplicate>(alloc: Global, list: &Items<T>) -> Result<Items<T>, NoMemory>
    ensures { IfOk result (λ copy. copy ≡ list.now) }
{
    let mut copied = Vec::new(alloc);
    for item in list.as_slice() {
        copied.push(item.copy(alloc)?)?;
    }
    Ok(Items::from_vec(copied))
}
