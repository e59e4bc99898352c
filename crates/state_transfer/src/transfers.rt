//! The transfers that are there.

ghost use Rattle.std.specs.Prelude.{◌≡◌, ℕ, ◌==◌, true, cond, not, IfOk, OnOk, OnErr, None, Some};
ghost use Rattle.std.specs.FinMap as map;
ghost use Rattle.std.specs.Option.{option_copied, option_map};
ghost use Rattle.state_transfer.specs.Calls.{is_new_to, landing, marks_at, unmarks_at};
ghost use Rattle.state_transfer.specs.Changes.{unexpired};
ghost use Rattle.state_transfer.specs.Chunks.{begun, with_chunk};
ghost use Rattle.state_transfer.specs.Copying.{each_changed};
ghost use Rattle.state_transfer.specs.Leaving.{outlives};

use crate::destination::Destination;
use crate::transfer::Transfer;
use grid_base::{Chunk, Key, NoMemory, NodeId, SegmentId};
use std::alloc::Global;
use std::collections::BTreeMap;
use std::marker::Model;

/// The transfers that are there, by where they lead to. Contracts see the finite map.
#[derive(Drop)]
pub(crate) struct Transfers {
    tree: BTreeMap<Destination, Transfer>,
}

impl Model for Transfers {
    ghost use Rattle.std.specs.Coded.{codes, coded_list, coded_ℕ};
    ghost use Rattle.std.specs.FinMap as map;
    ghost use Rattle.state_transfer.specs.Cells.{destination_cmp, destination_code};
    ghost use Rattle.state_transfer.specs.contracts.transfer.Transfer as transfer;
    ghost use Rattle.state_transfer.specs.Copying.{Transfers};

    ghost Value = { Transfers };

    ghost coded = { map.code {R = destination_cmp} destination_code transfer.the_row.coded };

    ghost view = { λ a. map.from_entries a.tree.entries };
}

impl Transfers {
    /// No transfers. It takes no memory.
    pub(crate) fn new(alloc: Global) -> Transfers
        ensures { result ≡ map.empty }
    {
        Transfers {
            tree: BTreeMap::new(alloc),
        }
    }

    /// The transfer that leads there, where it is there.
    pub(crate) fn get(&self, to: Destination) -> Option<&Transfer>
        ensures { option_copied result ≡ map.get self.now to }
    {
        self.tree.get(&to)
    }

    /// Sends a chunk of the transfer that leads there. With the first chunk the transfer begins.
    /// The only failure is that memory runs out, and all is then as before.
    pub(crate) fn send(
        &mut self,
        alloc: Global,
        to: Destination,
        provider: NodeId,
        chunk: Chunk,
    ) -> Result<(), NoMemory>
        ensures ok { OnOk result (self.new ≡ map.insert self.old to (with_chunk chunk (begun (map.get self.old to) provider))) }
        ensures err { OnErr result (self.new ≡ self.old) }
    {
        if let Some(transfer) = self.tree.get_mut(&to) {
            transfer.send(chunk);
            return Ok(());
        }
        self.tree
            .insert(to, Transfer::begun(alloc, provider, chunk))?;
        Ok(())
    }

    /// The chunk of the transfer that leads there flies no longer.
    pub(crate) fn land(&mut self, to: Destination)
        ensures { self.new ≡ each_changed (landing to) self.old }
    {
        if let Some(transfer) = self.tree.get_mut(&to) {
            transfer.land();
            return;
        }
    }

    /// Touches a key in the transfer that leads there, where it is there, and says whether it
    /// wasn't touched before. The only failure is that memory runs out, and all is then as before.
    pub(crate) fn mark(&mut self, to: Destination, key: Key) -> Result<bool, NoMemory>
        ensures marked { IfOk result (λ marked. marked ≡ is_new_to key (map.get self.old to)) }
        ensures ok { OnOk result (self.new ≡ each_changed (marks_at to key) self.old) }
        ensures err { OnErr result (self.new ≡ self.old) }
    {
        if let Some(transfer) = self.tree.get_mut(&to) {
            return transfer.mark(key);
        }
        Ok(false)
    }

    /// Makes a key untouched in the transfer that leads there.
    pub(crate) fn unmark(&mut self, to: Destination, key: &Key)
        ensures { self.new ≡ each_changed (unmarks_at to key.now) self.old }
    {
        if let Some(transfer) = self.tree.get_mut(&to) {
            transfer.unmark(key);
            return;
        }
    }

    /// Makes a key untouched again in the transfer that leads there, where a call of `mark` that
    /// answered this touched it.
    pub(crate) fn restore(&mut self, to: Destination, key: &Key, marked: bool)
        ensures { self.new ≡ cond marked (each_changed (unmarks_at to key.now) self.old) self.old }
    {
        if marked {
            self.unmark(to, key);
        }
    }

    /// Takes away each transfer that the node provides and that hasn't ended.
    pub(crate) fn restart(&mut self, provider: NodeId)
        ensures { self.new ≡ map.retain_keys self.old (λ to. outlives provider (map.get self.old to)) }
    {
        self.tree
            .retain(|_to, transfer| transfer.outlives(provider));
    }

    /// Takes away each transfer to the node.
    pub(crate) fn cancel(&mut self, receiver: NodeId)
        ensures { self.new ≡ map.retain_keys self.old (λ to. not (to.receiver == receiver)) }
    {
        self.tree.retain(|to, _transfer| to.receiver != receiver);
    }

    /// Takes away each transfer of the segment.
    pub(crate) fn forget(&mut self, segment: SegmentId)
        ensures { self.new ≡ map.retain_keys self.old (λ to. not (to.segment == segment)) }
    {
        self.tree.retain(|to, _transfer| to.segment != segment);
    }

    /// Takes all transfers away.
    pub(crate) fn close(&mut self)
        ensures { self.new ≡ map.empty }
    {
        self.tree.clear();
    }

    /// Drops what has expired from all chunks that fly.
    pub(crate) fn tick(&mut self, clock: u32)
        ensures { self.new ≡ each_changed (λ to transfer. record transfer { flying = option_map (unexpired clock) transfer.flying }) self.old }
    {
        self.tree.retain(|_to, transfer| ticked(transfer, clock));
    }
}

/// Drops what has expired from the chunk of a transfer, which stays.
fn ticked(transfer: &mut Transfer, clock: u32) -> bool
    ensures stays { result ≡ true }
    ensures ticked { transfer.new ≡ record transfer.old { flying = option_map (unexpired clock) transfer.old.flying } }
{
    transfer.tick(clock);
    true
}
