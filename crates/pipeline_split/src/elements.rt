//! The elements that a piece holds.

ghost use Rattle.std.specs.Prelude.{◌≡◌, ◌++◌, IfOk, OnErr, OnOk, length, slice_get};
ghost use Rattle.std.specs.Option.{option_copied};

use grid_base::{Duplicate, Item, NoMemory};
use std::alloc::Global;
use std::marker::Model;

/// A list of elements, in memory of its own. Contracts see the list.
#[derive(Debug, Drop)]
pub struct Elements {
    items: Vec<Item>,
}

impl Model for Elements {
    ghost use Rattle.std.specs.Prelude.{List};
    ghost use Rattle.grid_base.specs.declared.item.Item.{Item};

    ghost Value = { List Item };

    ghost view = { λ it. it.items.items };
}

impl Elements {
    /// The elements of a vector. It takes no memory.
    pub fn from_vec(items: Vec<Item>) -> Elements
        ensures { result ≡ items.items }
    {
        Elements { items }
    }

    /// The elements in a vector. It takes no memory.
    pub fn into_vec(self) -> Vec<Item>
        ensures { result.items ≡ self }
    {
        let Elements { items } = self;
        items
    }

    /// How many elements there are.
    pub fn len(&self) -> usize
        ensures { result ≡ length self.now }
    {
        self.items.len()
    }

    /// The element at `place`, where there is one; the first has place 0.
    pub fn get(&self, place: usize) -> Option<&Item>
        ensures { option_copied result ≡ slice_get self.now place }
    {
        self.items.as_slice().get(place)
    }

    /// Moves all elements of `more` to the end. The only failure is that memory runs out; then
    /// `more` is gone.
    pub fn append(&mut self, more: Elements) -> Result<(), NoMemory>
        ensures ok { OnOk result (self.new ≡ self.old ++ more) }
        ensures err { OnErr result (self.new ≡ self.old) }
    {
        let mut moved = more.into_vec();
        self.items.append(&mut moved)?;
        Ok(())
    }

    /// Equal elements. The only failure is that memory runs out.
    pub fn copy(&self, alloc: Global) -> Result<Elements, NoMemory>
        ensures { IfOk result (λ copy. copy ≡ self.now) }
    {
        let mut copied = Vec::with_capacity(alloc, self.items.len())?;
        for item in &self.items {
            copied.push(item.copy(alloc)?)?;
        }
        Ok(Elements { items: copied })
    }
}

impl Duplicate for Elements {
    fn copy(&self, alloc: Global) -> Result<Elements, NoMemory> {
        Elements::copy(self, alloc)
    }
}
