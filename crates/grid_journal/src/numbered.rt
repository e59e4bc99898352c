//! Things by numbers.

ghost use Rattle.std.specs.Prelude.{◌≡◌, OnOk};
ghost use Rattle.std.specs.FinMap as map;
ghost use Rattle.std.specs.Option.{option_copied};

use grid_base::NoMemory;
use std::alloc::Global;
use std::collections::BTreeMap;
use std::collections::btree_map::Range;
use std::marker::Model;

/// Things by numbers, at most one a number. Contracts see the finite map.
#[derive(Drop)]
pub(crate) struct Numbered<V> {
    tree: BTreeMap<u32, V>,
}

impl<V> Model for Numbered<V> {
    ghost use Rattle.std.specs.Coded.{coded_ℕ};
    ghost use Rattle.std.specs.FinMap as map;
    ghost use Rattle.std.specs.Ordering.{nat_cmp};

    ghost Value = { map.FinMap nat_cmp V };

    ghost coded = { map.code coded_ℕ V.code };

    ghost view = { λ a. map.from_entries a.tree.entries };
}

impl<V> Numbered<V> {
    /// Nothing. It takes no memory.
    pub(crate) fn new(alloc: Global) -> Numbered<V>
        ensures { result ≡ map.empty }
    {
        Numbered {
            tree: BTreeMap::new(alloc),
        }
    }

    /// The thing of the number, where there is one.
    pub(crate) fn get(&self, number: u32) -> Option<&V>
        ensures { option_copied result ≡ map.get self.now number }
    {
        self.tree.get(&number)
    }

    /// The thing is the one of the number. The only failure is that memory runs out.
    pub(crate) fn put(&mut self, number: u32, thing: V) -> Result<(), NoMemory>
    where
        V: Drop,
        ensures { OnOk result (self.new ≡ map.insert self.old number thing) }
    {
        let _ = self.tree.insert(number, thing)?;
        Ok(())
    }

    /// All things, in the order of their numbers.
    pub(crate) fn all(&self) -> Range<'_, u32, V>
        ensures { result ≡ map.entries self.now }
    {
        self.tree.range(..)
    }
}
