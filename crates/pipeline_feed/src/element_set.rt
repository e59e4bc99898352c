//! Sets of elements.

ghost use Rattle.std.specs.Prelude.{◌≡◌, not, true, IfOk, OnOk, OnErr};
ghost use Rattle.std.specs.FinSet as set;
ghost use Rattle.std.specs.List.{filter, list_all};

use grid_base::{Item, NoMemory};
use std::alloc::Global;
use std::collections::BTreeSet;
use std::marker::Model;

/// A set of elements. Contracts see a finite set.
#[derive(Drop)]
pub struct ElementSet {
    tree: BTreeSet<Item>,
}

impl Model for ElementSet {
    ghost use Rattle.std.specs.FinSet as set;
    ghost use Rattle.grid_base.specs.contracts.item.Item as element;
    ghost use Rattle.pipeline_feed.specs.Fed.{Elements};

    ghost Value = { Elements };

    ghost coded = { set.code element.the_row.coded };

    ghost view = { λ a. set.from_list a.tree.keys };
}

impl ElementSet {
    /// No elements. It takes no memory.
    pub fn new(alloc: Global) -> ElementSet
        ensures { result ≡ set.empty }
    {
        ElementSet {
            tree: BTreeSet::new(alloc),
        }
    }

    /// Whether the item is in the set.
    fn has(&self, item: &Item) -> bool
        ensures { result ≡ set.contains self.now item.now }
    {
        self.tree.contains(item)
    }

    /// Those of the items, in order, that aren't in the set.
    pub fn lacking(&self, items: Vec<Item>) -> Vec<Item>
        ensures { result.items ≡ filter (λ x. not (set.contains self.now x)) items.items }
    {
        let mut lacking = items;
        lacking.retain(|item| !self.has(item));
        lacking
    }

    /// Puts copies of the items into the set, none of which is in it. It fails only where memory
    /// runs out, and then the set is as before.
    pub fn add_all(&mut self, alloc: Global, items: &[Item]) -> Result<(), NoMemory>
        requires { list_all (λ x. not (set.contains self.old x)) items.now ≡ true }
        ensures ok { OnOk result (self.new ≡ set.union self.old (set.from_list items.now)) }
        ensures err { OnErr result (self.new ≡ self.old) }
    {
        for (place, item) in items.iter().enumerate() {
            if self.add(alloc, item).is_err() {
                self.remove_all(&items[..place]);
                return Err(NoMemory);
            }
        }
        Ok(())
    }

    /// Takes the items out of the set, where they are in it.
    pub fn remove_all(&mut self, items: &[Item])
        ensures { self.new ≡ set.difference self.old (set.from_list items.now) }
    {
        for item in items {
            self.remove(item);
        }
    }

    /// Puts a copy of the item into the set. It fails only where memory runs out, and then the set
    /// is as before.
    fn add(&mut self, alloc: Global, item: &Item) -> Result<(), NoMemory>
        ensures ok { OnOk result (self.new ≡ set.insert self.old item.now) }
        ensures err { OnErr result (self.new ≡ self.old) }
    {
        let copy = item.copy(alloc)?;
        self.tree.insert(copy)?;
        Ok(())
    }

    /// Takes the item out of the set, where it is in it.
    fn remove(&mut self, item: &Item)
        ensures { self.new ≡ set.remove self.old item.now }
    {
        self.tree.remove(item);
    }
}
