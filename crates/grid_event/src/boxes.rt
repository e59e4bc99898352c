//! Copies of what lies in a box.

ghost use Rattle.std.specs.Prelude.{◌≡◌, IfOk};

use grid_base::{Duplicate, NoMemory};
use sqlite_items::Boxed;
use std::alloc::Global;

/// A box of an equal thing. The only failure is that memory runs out.
pub(crate) fn copy_box<T: Duplicate>(alloc: Global, held: &Boxed<T>) -> Result<Boxed<T>, NoMemory>
    ensures { IfOk result (λ copy. copy ≡ held.now) }
{
    let copied = held.get().copy(alloc)?;
    Ok(Boxed::new(alloc, copied)?)
}
