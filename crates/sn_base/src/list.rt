//! Lists, which tell where memory ran out and are then as they were.

ghost use Rattle.std.specs.Prelude.{◌≡◌, [], ◌∷◌, ◌++◌, ◌<◌, ◌↔◌, length, take, IsTrue, IsSome, IfOk, OnOk, OnErr};
ghost use Rattle.std.specs.Prelude.{slice_get, slice_set, option_to_list};
ghost use Rattle.std.specs.Slice.{IsItemAt};

use crate::Memory;
use std::alloc::Global;
use std::marker::Model;

/// A list. Contracts see it as the list of its items, in order.
#[derive(Debug, Drop)]
pub struct List<T> {
    items: Vec<T>,
}

impl<T> Model for List<T> {
    ghost use Rattle.std.specs.Prelude.{List as Items};
    ghost use Rattle.std.specs.Coded.{coded_list};

    ghost Value = { Items T };

    ghost coded = { coded_list T.code };

    ghost view = { λ a. a.items.items };
}

impl<T> List<T> {
    /// The empty list, which takes no memory.
    pub fn new(alloc: Global) -> Self
        ensures { result ≡ [] }
    {
        List {
            items: Vec::new(alloc),
        }
    }

    /// The empty list, with room for a number of items. Room for none takes no memory.
    pub fn with_capacity(alloc: Global, room: usize) -> Result<Self, Memory>
        ensures ok { IfOk result (λ list. list ≡ []) }
        ensures err { OnErr result (0 < room) }
    {
        let items = Vec::with_capacity(alloc, room)?;
        Ok(List { items })
    }

    /// The list of a vector's items. It takes no memory.
    pub fn from_vec(items: Vec<T>) -> Self
        ensures { result ≡ items.items }
    {
        List { items }
    }

    /// The vector of the items. It takes no memory.
    pub fn into_vec(self) -> Vec<T>
        ensures { result.items ≡ self }
    {
        let List { items } = self;
        items
    }

    /// How many items the list has.
    pub fn len(&self) -> usize
        ensures { result ≡ length self.now }
    {
        self.items.len()
    }

    /// Whether the list has no items.
    pub fn is_empty(&self) -> bool
        ensures { IsTrue result ↔ (self.now ≡ []) }
    {
        self.items.is_empty()
    }

    /// The items, in order.
    pub fn as_slice(&self) -> &[T]
        ensures { result.now ≡ self.now }
    {
        self.items.as_slice()
    }

    /// The item at an index, counted from 0, or `None` past the end.
    pub fn get(&self, index: usize) -> Option<&T>
        ensures { IsItemAt self.now index result }
    {
        self.items.get(index)
    }

    /// The item at an index within the list, counted from 0.
    pub fn at(&self, index: usize) -> &T
        requires { index < length self.now }
        ensures { slice_get self.now index ≡ Some result.now }
    {
        &self.items[index]
    }

    /// Puts an item in the place of the one at an index. It takes no memory.
    pub fn set(&mut self, index: usize, item: T)
    where
        T: Drop,
        requires { index < length self.old }
        ensures { self.new ≡ slice_set self.old index item }
    {
        self.items[index] = item;
    }

    /// Adds an item at the end. An `Err` leaves the list as it was.
    pub fn push(&mut self, item: T) -> Result<(), Memory>
    where
        T: Drop,
        ensures ok { OnOk result (self.new ≡ self.old ++ item ∷ []) }
        ensures err { OnErr result (self.new ≡ self.old) }
    {
        self.items.push(item)?;
        Ok(())
    }

    /// Takes the last item, or answers `None` where there is none.
    pub fn pop(&mut self) -> Option<T>
        ensures items { self.old ≡ self.new ++ option_to_list result }
        ensures variant { IsSome result ↔ (0 < length self.old) }
    {
        self.items.pop()
    }

    /// Keeps the first items and drops the others, or keeps all where the list is shorter.
    pub fn truncate(&mut self, len: usize)
    where
        T: Drop,
        ensures { self.new ≡ take len self.old }
    {
        self.items.truncate(len);
    }
}

impl<T: Copy> List<T> {
    /// A copy of a slice's items. Of no items it takes no memory.
    pub fn from_slice(alloc: Global, items: &[T]) -> Result<Self, Memory>
        ensures ok { IfOk result (λ list. list ≡ items.now) }
        ensures err { OnErr result (0 < length items.now) }
    {
        let mut list = List::with_capacity(alloc, items.len())?;
        list.extend_from_slice(items)?;
        Ok(list)
    }

    /// Adds copies of a slice's items at the end. An `Err` leaves the list as it was.
    pub fn extend_from_slice(&mut self, items: &[T]) -> Result<(), Memory>
        ensures ok { OnOk result (self.new ≡ self.old ++ items.now) }
        ensures err { OnErr result (self.new ≡ self.old) }
        ensures some { OnErr result (0 < length items.now) }
    {
        self.items.extend_from_slice(items)?;
        Ok(())
    }
}
