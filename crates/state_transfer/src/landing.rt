//! How a chunk lands, whole or not at all.

ghost use Rattle.std.specs.Prelude.{◌≡◌, ℕ, ◌++◌, [], ◌∷◌, true, false, cond, is_some, reverse, IfOk, OnOk, OnErr, None, Some};
ghost use Rattle.std.specs.FinMap as map;
ghost use Rattle.std.specs.FinSet as set;
ghost use Rattle.container_seg.specs.Lifespans.{left, outlasts};
ghost use Rattle.state_transfer.specs.Calls.{are_lasting, is_sound};
ghost use Rattle.state_transfer.specs.Cells.{Cells};
ghost use Rattle.state_transfer.specs.Chunks.{landed, landed_in};
ghost use Rattle.state_transfer.specs.Copying.{copy_at};
ghost use Rattle.state_transfer.specs.Landing.{TakesBack};
ghost use Rattle.state_transfer.specs.Slots.{Holdings};

use crate::destination::Destination;
use crate::holders::Holders;
use crate::transfer::Transfer;
use crate::transfers::Transfers;
use grid_base::{Key, NoMemory, Stamped, StampedEntry};
use std::alloc::Global;

/// What stood at a key before an entry landed there.
#[derive(Drop)]
pub(crate) struct Step {
    pub(crate) key: Key,
    pub(crate) before: Option<Stamped>,
}

/// Puts what flies in the transfer that leads there at the receiver, without the touched keys. The
/// only failure is that memory runs out, and all copies are then as before.
pub(crate) fn land_flying(
    holders: &mut Holders,
    alloc: Global,
    to: Destination,
    transfers: &Transfers,
) -> Result<(), NoMemory>
    requires { is_sound holders.old.nodes holders.old.clock to (map.get transfers.now to) ≡ true }
    ensures ok { OnOk result (holders.new ≡ record holders.old { cells = landed to.receiver to.segment (map.get transfers.now to) holders.old.cells }) }
    ensures err { OnErr result (holders.new ≡ holders.old) }
{
    let Some(transfer) = transfers.get(to) else {
        return Ok(());
    };
    let Some(entries) = transfer.flying() else {
        return Ok(());
    };
    land_all(holders, alloc, to, transfer, entries)
}

/// Puts the entries at the receiver, without the touched keys. The only failure is that memory runs
/// out, and all copies are then as before.
fn land_all(
    holders: &mut Holders,
    alloc: Global,
    to: Destination,
    transfer: &Transfer,
    entries: &[StampedEntry],
) -> Result<(), NoMemory>
    requires there { set.contains holders.old.nodes to.receiver ≡ true }
    requires lasting { are_lasting holders.old.clock entries.now ≡ true }
    ensures ok { OnOk result (holders.new ≡ record holders.old { cells = landed_in to.receiver to.segment transfer.now.touched entries.now holders.old.cells }) }
    ensures err { OnErr result (holders.new ≡ holders.old) }
{
    let mut steps: Vec<Step> = Vec::new(alloc);
    match put_all(holders, alloc, to, transfer, entries, &mut steps) {
        Ok(()) => Ok(()),
        Err(NoMemory) => {
            take_back(holders, alloc, to, steps);
            Err(NoMemory)
        }
    }
}

/// Puts the entries at the receiver, without the touched keys, and notes each step. Where memory
/// runs out, the steps say how to take back what was put.
fn put_all(
    holders: &mut Holders,
    alloc: Global,
    to: Destination,
    transfer: &Transfer,
    entries: &[StampedEntry],
    steps: &mut Vec<Step>,
) -> Result<(), NoMemory>
    requires there { set.contains holders.old.nodes to.receiver ≡ true }
    requires lasting { are_lasting holders.old.clock entries.now ≡ true }
    requires none { steps.old.items ≡ [] }
    ensures nodes { holders.new.nodes ≡ holders.old.nodes }
    ensures clock { holders.new.clock ≡ holders.old.clock }
    ensures ok { OnOk result (holders.new.cells ≡ landed_in to.receiver to.segment transfer.now.touched entries.now holders.old.cells) }
    ensures steps { TakesBack to.receiver to.segment holders.old.clock (reverse steps.new.items) holders.new.cells holders.old.cells }
{
    let mut left = entries.len();
    while left > 0 {
        let entry = &entries[left - 1];
        if !transfer.touches(&entry.key) {
            put_one(holders, alloc, to, entry, steps)?;
        }
        left -= 1;
    }
    Ok(())
}

/// Puts one entry at the receiver, and notes the step. The only failure is that memory runs out,
/// and all is then as before.
fn put_one(
    holders: &mut Holders,
    alloc: Global,
    to: Destination,
    entry: &StampedEntry,
    steps: &mut Vec<Step>,
) -> Result<(), NoMemory>
    requires there { set.contains holders.old.nodes to.receiver ≡ true }
    requires lasting { outlasts holders.old.clock entry.now.stamped.until ≡ true }
    ensures ok { OnOk result (holders.new ≡ record holders.old { cells = map.insert holders.old.cells (record { node = to.receiver; segment = to.segment; key = entry.now.key }) entry.now.stamped }) }
    ensures noted { OnOk result (steps.new.items ≡ steps.old.items ++ record { key = entry.now.key; before = copy_at holders.old.cells to.receiver to.segment entry.now.key } ∷ []) }
    ensures before { OnOk result (left holders.old.clock (copy_at holders.old.cells to.receiver to.segment entry.now.key) ≡ copy_at holders.old.cells to.receiver to.segment entry.now.key) }
    ensures err { OnErr result (holders.new ≡ holders.old) }
    ensures unnoted { OnErr result (steps.new.items ≡ steps.old.items) }
{
    steps.reserve(1)?;
    let stamped = entry.stamped.copy(alloc)?;
    let before = holders.put(alloc, to.receiver, to.segment, entry.key, stamped)?;
    steps.push_reserved(Step {
        key: entry.key,
        before,
    });
    Ok(())
}

/// Takes back what was put, the last step first. It takes no memory.
fn take_back(holders: &mut Holders, alloc: Global, to: Destination, mut steps: Vec<Step>)
    requires there { set.contains holders.old.nodes to.receiver ≡ true }
    requires steps { (cells : Cells) × TakesBack to.receiver to.segment holders.old.clock (reverse steps.items) holders.old.cells cells }
    ensures nodes { holders.new.nodes ≡ holders.old.nodes }
    ensures clock { holders.new.clock ≡ holders.old.clock }
    ensures cells { (cells : Cells) → TakesBack to.receiver to.segment holders.old.clock (reverse steps.items) holders.old.cells cells → holders.new.cells ≡ cells }
{
    while let Some(Step { key, before }) = steps.pop() {
        holders.restore(alloc, to.receiver, to.segment, &key, before);
    }
}
