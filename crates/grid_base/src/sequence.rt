//! The one list of the grid: its items in order, and the places that are spare beside them.

ghost use Rattle.std.specs.Prelude.{◌≡◌, ◌+◌, ◌<◌, ◌≤◌, ◌↔◌, [], ◌∷◌, ◌++◌, length};
ghost use Rattle.std.specs.Prelude.{IfOk, OnOk, OnErr, IsOk, IsSome, IsTrue, slice_get};
ghost use Rattle.std.specs.Option.{option_copied, option_to_list};
ghost use Rattle.std.specs.Slice.Iter.{iter_rest};

use crate::duplicate::Duplicate;
use crate::no_memory::NoMemory;
use std::alloc::Global;
use std::marker::Model;
use std::slice::Iter;

/// A list of items in memory of its own. Contracts see the items as `list`, and as `spare` the
/// number of places that are taken already for further items: where one is spare, a push takes no
/// memory and succeeds.
#[derive(Debug, Drop)]
pub struct Sequence<T> {
    items: Vec<T>,
}

impl<T> Model for Sequence<T> {
    ghost use Rattle.std.specs.Prelude.{◌-◌, vec_len};
    ghost use Rattle.std.specs.Vec.{vec_capacity};
    ghost use Rattle.grid_base.specs.Buffered.{Buffered, buffered_code};

    ghost Value = { Buffered T };

    ghost coded = { buffered_code T.code };

    ghost view = { λ it. record { list = it.items.items; spare = vec_capacity it.items - vec_len it.items } };
}

impl<T> Sequence<T> {
    /// The empty list. It takes no memory.
    pub fn new(alloc: Global) -> Sequence<T>
        ensures { result.list ≡ [] }
    {
        Sequence {
            items: Vec::new(alloc),
        }
    }

    /// The empty list with at least `room` spare places. The only failure is that memory runs out.
    pub fn with_room(alloc: Global, room: usize) -> Result<Sequence<T>, NoMemory>
        ensures list { IfOk result (λ made. made.list ≡ []) }
        ensures room { IfOk result (λ made. room ≤ made.spare) }
        ensures succeeds { room ≡ 0 → IsOk result }
    {
        let items = Vec::with_capacity(alloc, room)?;
        Ok(Sequence { items })
    }

    /// How many items there are.
    pub fn len(&self) -> usize
        ensures { result ≡ length self.now.list }
    {
        self.items.len()
    }

    /// Whether there is no item.
    pub fn is_empty(&self) -> bool
        ensures { IsTrue result ↔ (self.now.list ≡ []) }
    {
        self.items.is_empty()
    }

    /// The item at `place`, where there is one; the first has place 0.
    pub fn get(&self, place: usize) -> Option<&T>
        ensures value { option_copied result ≡ slice_get self.now.list place }
        ensures found { IsSome result ↔ (place < length self.now.list) }
    {
        self.items.as_slice().get(place)
    }

    /// The items as a slice.
    pub fn as_slice(&self) -> &[T]
        ensures { result.now ≡ self.now.list }
    {
        self.items.as_slice()
    }

    /// Goes over the items in their order.
    pub fn iter(&self) -> Iter<'_, T>
        ensures { iter_rest result ≡ self.now.list }
    {
        self.items.as_slice().iter()
    }

    /// Puts `item` at the end. It fails only where memory runs out, and never where a place is
    /// spare.
    pub fn push(&mut self, item: T) -> Result<(), NoMemory>
    where
        T: Drop,
        ensures ok { OnOk result (self.new.list ≡ self.old.list ++ item ∷ []) }
        ensures err { OnErr result (self.new.list ≡ self.old.list) }
        ensures succeeds { 0 < self.old.spare → IsOk result }
        ensures lowers { 0 < self.old.spare → self.new.spare + 1 ≡ self.old.spare }
    {
        if self.items.len() < self.items.capacity() {
            self.items.push_reserved(item);
            return Ok(());
        }
        self.items.push(item)?;
        Ok(())
    }

    /// Puts `item` at the end, in a spare place.
    pub fn push_reserved(&mut self, item: T)
        requires { 0 < self.old.spare }
        ensures list { self.new.list ≡ self.old.list ++ item ∷ [] }
        ensures lowers { self.new.spare + 1 ≡ self.old.spare }
    {
        self.items.push_reserved(item);
    }

    /// Sees that at least `room` places are spare. It fails only where memory runs out, and never
    /// where so many are spare already.
    pub fn reserve(&mut self, room: usize) -> Result<(), NoMemory>
        ensures list { self.new.list ≡ self.old.list }
        ensures ok { OnOk result (room ≤ self.new.spare) }
        ensures keeps { self.old.spare ≤ self.new.spare }
        ensures succeeds { room ≤ self.old.spare → IsOk result }
    {
        self.items.reserve(room)?;
        Ok(())
    }

    /// Takes the last item off, where there is one; its place is spare from then on.
    pub fn pop(&mut self) -> Option<T>
        ensures list { self.old.list ≡ self.new.list ++ option_to_list result }
        ensures found { IsSome result ↔ (0 < length self.old.list) }
    {
        self.items.pop()
    }

    /// Drops all items, and keeps their places spare.
    pub fn clear(&mut self)
    where
        T: Drop,
        ensures list { self.new.list ≡ [] }
        ensures spare { self.new.spare ≡ self.old.spare + length self.old.list }
    {
        self.items.clear();
    }

    /// Moves all items of `other` to the end. It fails only where memory runs out, and never where
    /// a place is spare for each of them.
    pub fn append(&mut self, other: Sequence<T>) -> Result<(), NoMemory>
    where
        T: Drop,
        ensures ok { OnOk result (self.new.list ≡ self.old.list ++ other.list) }
        ensures err { OnErr result (self.new.list ≡ self.old.list) }
        ensures succeeds { length other.list ≤ self.old.spare → IsOk result }
    {
        let mut moved = other.into_vec();
        self.items.append(&mut moved)?;
        Ok(())
    }

    /// The items as a vector.
    pub fn into_vec(self) -> Vec<T>
        ensures { result.items ≡ self.list }
    {
        let Sequence { items } = self;
        items
    }
}

impl<T: Copy> Sequence<T> {
    /// Puts copies of `items` at the end. It fails only where memory runs out, and never where a
    /// place is spare for each of them.
    pub fn extend(&mut self, items: &[T]) -> Result<(), NoMemory>
        ensures ok { OnOk result (self.new.list ≡ self.old.list ++ items.now) }
        ensures err { OnErr result (self.new.list ≡ self.old.list) }
        ensures succeeds { length items.now ≤ self.old.spare → IsOk result }
    {
        self.items.extend_from_slice(items)?;
        Ok(())
    }

    /// Puts copies of `items` at the end, in spare places.
    pub fn extend_reserved(&mut self, items: &[T])
        requires { length items.now ≤ self.old.spare }
        ensures list { self.new.list ≡ self.old.list ++ items.now }
        ensures lowers { self.new.spare + length items.now ≡ self.old.spare }
    {
        for item in items {
            self.items.push_reserved(*item);
        }
    }
}

impl<T: Duplicate> Sequence<T> {
    /// A list of equal items. The only failure is that memory runs out.
    pub fn copy(&self, alloc: Global) -> Result<Sequence<T>, NoMemory>
        ensures { IfOk result (λ copy. copy.list ≡ self.now.list) }
    {
        let mut copied = Vec::with_capacity(alloc, self.items.len())?;
        for item in &self.items {
            copied.push(item.copy(alloc)?)?;
        }
        Ok(Sequence { items: copied })
    }
}

impl<T: PartialEq> PartialEq for Sequence<T> {
    ghost use Rattle.std.proofs.Common.{rules};
    ghost use Rattle.std.specs.Cmp.Lexicographic.{pointwise};
    ghost use Rattle.std.specs.Cmp.Rules.{comparing};
    ghost use Rattle.std.specs.Ordering.{on};

    ghost eq = { λ a b. pointwise T.eq a.list b.list };

    fn eq(&self, other: &Sequence<T>) -> bool {
        self.as_slice() == other.as_slice()
    }

    ghost laws = { Prim.search (comparing, rules) };
}

impl<T: Eq> Eq for Sequence<T> {
    ghost use Rattle.std.proofs.Common.{rules};
    ghost use Rattle.std.specs.Cmp.Rules.{comparing};

    ghost laws = { Prim.search (comparing, rules) };
}
