//! At most three items, inline.

ghost use Rattle.std.specs.Prelude.{◌≡◌, ℕ, ◌+◌, ◌<◌, ◌≤◌, ◌∷◌, [], ◌++◌, length, slice_index_or, IsTrue, ◌↔◌};

use arrayvec::ArrayVec;
use std::alloc::Global;
use std::marker::Model;
use wasm_types::{NoMemory, Same};

/// At most three items, which stand in the value and take no memory. Contracts see the list.
#[derive(Debug, Drop)]
pub struct Few<T> {
    list: ArrayVec<T, 3>,
}

impl<T> Model for Few<T> {
    ghost use Rattle.std.specs.Prelude.{◌≡◌, ◌≤◌, List, length};

    ghost Value = { List T };

    ghost view = { λ f. f.list.items };

    ghost invariant = { λ f. length f.list.items ≤ 3 };
}

impl<T: Copy + Default> Few<T> {
    /// No items.
    pub fn new(alloc: Global) -> Self
        ensures { result ≡ [] }
    {
        Few {
            list: ArrayVec::new(),
        }
    }

    /// One item.
    pub fn one(alloc: Global, item: T) -> Self
        ensures { result ≡ item ∷ [] }
    {
        let mut few = Few::new(alloc);
        few.push(item);
        few
    }

    /// How many items there are, from 0 to 3.
    pub fn len(&self) -> usize
        ensures len { result ≡ length self.now }
        ensures few { length self.now ≤ 3 }
    {
        self.list.len()
    }

    /// Whether there is no item.
    pub fn is_empty(&self) -> bool
        ensures { IsTrue result ↔ (self.now ≡ []) }
    {
        self.list.is_empty()
    }

    /// The item at an index.
    pub fn at(&self, index: usize) -> T
        requires { index < length self.now }
        ensures { result ≡ slice_index_or self.now index result }
    {
        self.list.as_slice()[index]
    }

    /// The items, in order.
    pub fn as_slice(&self) -> &[T]
        ensures items { result.now ≡ self.now }
        ensures few { length self.now ≤ 3 }
    {
        self.list.as_slice()
    }

    /// Puts an item behind the others.
    pub fn push(&mut self, item: T)
        requires { length self.old < 3 }
        ensures { self.new ≡ self.old ++ item ∷ [] }
    {
        self.list.push(item);
    }
}

impl<T: PartialEq> PartialEq for Few<T> {
    ghost use Rattle.std.specs.Cmp.Lexicographic.{pointwise, lists_per};

    ghost eq = { pointwise T.eq };

    ghost laws = { lists_per T.PartialEq.laws };

    fn eq(&self, other: &Few<T>) -> bool {
        self.list.as_slice() == other.list.as_slice()
    }
}

impl<T: Eq> Eq for Few<T> {
    ghost use Rattle.std.specs.Cmp.Lexicographic.{lists_equiv};

    ghost laws = { lists_equiv T.Eq.laws };
}

impl<T: Same + Copy + Default> Same for Few<T> {
    fn copy(&self, alloc: Global) -> Result<Few<T>, NoMemory> {
        let mut items = Few::new(alloc);
        for item in self.as_slice() {
            items.push(*item);
        }
        Ok(items)
    }

    ghost use Rattle.rw_objects.specs.Decides.{few_decides};

    ghost decides = { few_decides T.eq T.decides };
}
