//! Changes of one container among those of all nodes.

ghost use Rattle.std.specs.Prelude.{◌≡◌, ℕ, ◌<◌, ◌≤◌, ◌==◌, not, true, false, cond, IfOk, OnOk, OnErr, None, Some, is_some, vec_len, slice_set};
ghost use Rattle.std.specs.FinMap as map;
ghost use Rattle.std.specs.Option.{option_copied};
ghost use Rattle.container_seg.specs.Contents.{Contents, place};
ghost use Rattle.container_seg.specs.Lifespans.{left, outlasts};
ghost use Rattle.state_transfer.specs.Slots.{cleared, entries_in, slot_at, ticked, with_entries};

use container_seg::Container;
use grid_base::{Key, NoMemory, SegmentId, Stamped};
use std::alloc::Global;

/// The container in a slot, where there is one.
pub(crate) fn lent(slots: &[Option<Container>], at: usize) -> Option<&Container>
    ensures { option_copied result ≡ slot_at slots.now at }
{
    match slots.get(at) {
        Some(Some(container)) => Some(container),
        _ => None,
    }
}

/// Sees that there is a slot at `at`. It fails only where memory runs out.
pub(crate) fn grow(
    alloc: Global,
    slots: &mut Vec<Option<Container>>,
    at: usize,
) -> Result<(), NoMemory>
    requires { at < 256 }
    ensures alike { (n : ℕ) → slot_at slots.new.items n ≡ slot_at slots.old.items n }
    ensures ok { OnOk result (at < vec_len slots.new) }
{
    while slots.len() <= at {
        slots.push(None)?;
    }
    Ok(())
}

/// Puts a container or none into the slot.
pub(crate) fn set_in(slots: &mut Vec<Option<Container>>, at: usize, container: Option<Container>)
    requires { at < vec_len slots.old }
    ensures { slots.new.items ≡ slice_set slots.old.items at container }
{
    slots[at] = container;
}

/// Puts a value into the container in the slot.
pub(crate) fn put_in(
    slots: &mut Vec<Option<Container>>,
    alloc: Global,
    at: usize,
    segment: SegmentId,
    key: Key,
    stamped: Stamped,
) -> Result<Option<Stamped>, NoMemory>
    requires here { at < vec_len slots.old }
    requires there { is_some (slot_at slots.old.items at) ≡ true }
    requires lasting { (c : Contents) → slot_at slots.old.items at ≡ Some c → outlasts c.clock stamped.until ≡ true }
    ensures before { IfOk result (λ before. before ≡ map.get (entries_in (slot_at slots.old.items at)) (place segment key)) }
    ensures lasting { IfOk result (λ before. (c : Contents) → slot_at slots.old.items at ≡ Some c → left c.clock before ≡ before) }
    ensures ok { OnOk result (slots.new.items ≡ slice_set slots.old.items at (with_entries (map.insert (entries_in (slot_at slots.old.items at)) (place segment key) stamped) (slot_at slots.old.items at))) }
    ensures err { OnErr result (slots.new.items ≡ slots.old.items) }
    ensures absent { OnErr result (map.get (entries_in (slot_at slots.old.items at)) (place segment key) ≡ None) }
{
    put_slot(&mut slots[at], alloc, segment, key, stamped)
}

/// Puts a value into a container, which is there.
fn put_slot(
    slot: &mut Option<Container>,
    alloc: Global,
    segment: SegmentId,
    key: Key,
    stamped: Stamped,
) -> Result<Option<Stamped>, NoMemory>
    requires there { is_some slot.old ≡ true }
    requires lasting { (c : Contents) → slot.old ≡ Some c → outlasts c.clock stamped.until ≡ true }
    ensures before { IfOk result (λ before. before ≡ map.get (entries_in slot.old) (place segment key)) }
    ensures lasting { IfOk result (λ before. (c : Contents) → slot.old ≡ Some c → left c.clock before ≡ before) }
    ensures ok { OnOk result (slot.new ≡ with_entries (map.insert (entries_in slot.old) (place segment key) stamped) slot.old) }
    ensures err { OnErr result (slot.new ≡ slot.old) }
    ensures absent { OnErr result (map.get (entries_in slot.old) (place segment key) ≡ None) }
{
    match slot {
        Some(container) => container.put(alloc, segment, key, stamped),
        None => unreachable!(),
    }
}

/// Takes a key out of the container in the slot, where there is one.
pub(crate) fn remove_in(
    slots: &mut Vec<Option<Container>>,
    at: usize,
    segment: SegmentId,
    key: &Key,
)
    requires { at < vec_len slots.old }
    ensures { slots.new.items ≡ slice_set slots.old.items at (with_entries (map.remove (entries_in (slot_at slots.old.items at)) (place segment key.now)) (slot_at slots.old.items at)) }
{
    cut(&mut slots[at], segment, key);
}

/// Takes a key out of a container, where there is one.
fn cut(slot: &mut Option<Container>, segment: SegmentId, key: &Key)
    ensures { slot.new ≡ with_entries (map.remove (entries_in slot.old) (place segment key.now)) slot.old }
{
    if let Some(container) = slot {
        take(container, segment, key);
    }
}

/// Takes a key out of a container.
fn take(container: &mut Container, segment: SegmentId, key: &Key)
    ensures { container.new ≡ record container.old { entries = map.remove container.old.entries (place segment key.now) } }
{
    let _ = container.remove(segment, key);
}

/// Takes a segment out of each container.
pub(crate) fn clear_all(slots: &mut Vec<Option<Container>>, segment: SegmentId)
    ensures { (n : ℕ) → slot_at slots.new.items n ≡ cleared segment (slot_at slots.old.items n) }
{
    for at in 0..slots.len() {
        clear_in(slots, at, segment);
    }
}

/// Takes a segment out of the container in the slot, where there is one.
pub(crate) fn clear_in(slots: &mut Vec<Option<Container>>, at: usize, segment: SegmentId)
    requires { at < vec_len slots.old }
    ensures { slots.new.items ≡ slice_set slots.old.items at (cleared segment (slot_at slots.old.items at)) }
{
    clear(&mut slots[at], segment);
}

/// Takes a segment out of a container, where there is one.
fn clear(slot: &mut Option<Container>, segment: SegmentId)
    ensures { slot.new ≡ cleared segment slot.old }
{
    if let Some(container) = slot {
        container.drop_segment(segment);
    }
}

/// Raises the clock of each container to `clock`, which isn't below it.
pub(crate) fn tick_all(slots: &mut Vec<Option<Container>>, clock: u32)
    requires { (n : ℕ) (c : Contents) → slot_at slots.old.items n ≡ Some c → c.clock ≤ clock }
    ensures { (n : ℕ) → slot_at slots.new.items n ≡ ticked clock (slot_at slots.old.items n) }
{
    for at in 0..slots.len() {
        tick_in(slots, at, clock);
    }
}

/// Raises the clock of the container in the slot, where there is one.
fn tick_in(slots: &mut Vec<Option<Container>>, at: usize, clock: u32)
    requires here { at < vec_len slots.old }
    requires later { (c : Contents) → slot_at slots.old.items at ≡ Some c → c.clock ≤ clock }
    ensures { slots.new.items ≡ slice_set slots.old.items at (ticked clock (slot_at slots.old.items at)) }
{
    raise(&mut slots[at], clock);
}

/// Raises the clock of a container, where there is one.
fn raise(slot: &mut Option<Container>, clock: u32)
    requires { (c : Contents) → slot.old ≡ Some c → c.clock ≤ clock }
    ensures { slot.new ≡ ticked clock slot.old }
{
    if let Some(container) = slot {
        container.tick(clock);
    }
}
