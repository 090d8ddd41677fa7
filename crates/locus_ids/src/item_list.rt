ghost use Rattle.std.specs.Prelude.{◌≡◌, ℕ, ◌≤◌, List, [], ◌∷◌, ◌++◌, length, slice_get, ◌==◌, IfOk, OnOk, OnErr, insert};
ghost use Rattle.std.specs.Option.{option_copied};
ghost use Rattle.std.specs.List.{AllZip};

use crate::{Bytes, NoMemory, Stamp};
use std::alloc::{AllocError, Global};
use std::marker::Model;

/// Some items, which contracts see as a list.
#[derive(Drop)]
pub struct ItemList<T> {
    items: Vec<T>,
}

/// A list of names.
pub type Names = ItemList<Bytes>;

/// A list of stamps.
pub type Stamps = ItemList<Stamp>;

impl<T> Model for ItemList<T> {
    ghost Value = { List T };

    ghost view = { λ l. l.items.items };
}

impl<T> ItemList<T> {
    /// No items. What the list takes later comes from this allocator.
    pub fn new(alloc: Global) -> ItemList<T>
        ensures { result ≡ [] }
    {
        ItemList {
            items: Vec::new(alloc),
        }
    }

    /// All items, the first one first.
    pub fn as_slice(&self) -> &[T]
        ensures { result.now ≡ self.now }
    {
        self.items.as_slice()
    }

    /// The number of items.
    pub fn len(&self) -> usize
        ensures { result ≡ length self.now }
    {
        self.items.len()
    }

    /// There is no item.
    pub fn is_empty(&self) -> bool
        ensures { result ≡ (length self.now == 0) }
    {
        self.items.is_empty()
    }

    /// The item at a place, from 0, or `None` exactly where the place is not below the length.
    pub fn get(&self, i: usize) -> Option<&T>
        ensures { option_copied result ≡ slice_get self.now i }
    {
        self.items.get(i)
    }

    /// The allocator that the items are kept with.
    pub fn allocator(&self) -> Global {
        *self.items.allocator()
    }
}

impl<T: Drop> ItemList<T> {
    /// Adds an item at the end. After `NoMemory` the list is as it was.
    pub fn push(&mut self, item: T) -> Result<(), NoMemory>
        ensures ok { OnOk result (self.new ≡ self.old ++ item ∷ []) }
        ensures err { OnErr result (self.new ≡ self.old) }
    {
        self.items.push(item)?;
        Ok(())
    }

    /// Adds an item at a place, before the items that stand from there on. After `NoMemory` the list is as it was.
    pub fn insert(&mut self, at: usize, item: T) -> Result<(), NoMemory>
        requires { at ≤ length self.old }
        ensures ok { OnOk result (self.new ≡ insert self.old at item) }
        ensures err { OnErr result (self.new ≡ self.old) }
    {
        self.items.insert(at, item)?;
        Ok(())
    }

    /// Takes all items away.
    pub fn clear(&mut self)
        ensures { self.new ≡ [] }
    {
        self.items.clear();
    }
}

impl<T: Clone + Drop> ItemList<T> {
    /// A clone of each item in turn. Where a clone always equals its source, the copy equals this list.
    pub fn copy(&self) -> Result<ItemList<T>, NoMemory>
        ensures clones { IfOk result (λ made. AllZip T.is_clone self.now made) }
        ensures equal { ((a b : T) → T.is_clone a b → b ≡ a) → IfOk result (λ made. made ≡ self.now) }
    {
        let items = self.items.clone()?;
        Ok(ItemList { items })
    }
}

impl<T: Clone + Drop> Clone for ItemList<T> {
    ghost use Rattle.std.specs.List.{AllZip};

    ghost is_clone = { λ a b. AllZip T.is_clone a b };

    fn clone(&self) -> Result<ItemList<T>, AllocError> {
        let items = self.items.clone()?;
        Ok(ItemList { items })
    }
}
