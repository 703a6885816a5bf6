//! Maps from the names of made things to values: a name is the place of the commit log's entry that made
//! the thing, and which of that entry's it is.

ghost use Rattle.std.specs.Prelude.{◌≡◌, IsTrue, IfOk, OnOk, OnErr, None, option_copied};
ghost use Rattle.std.specs.FinMap as map;
ghost use Rattle.kernel_model.specs.Names.{NamedMap, get_named, has_named, with_named, without_named};

use sn_base::{Map, Memory};
use std::alloc::Global;
use std::marker::Model;
use std::mem;

/// What a name had before it was set: its value, if it had one, and whether its place had a map.
#[derive(Drop)]
pub struct Former<V> {
    had_place: bool,
    value: Option<V>,
}

/// A map from names to values: address spaces, shared areas, descriptor tables, pipes. A name is a place in
/// the commit log and an index among what the entry there made. Contracts see it as a finite map from
/// places to finite maps from indices. A place whose last thing is gone keeps its empty map.
pub struct Named<V> {
    pub(crate) places: Map<Map<V>>,
}

/// Lets all of it go. Who owns such a map lets go of it by this one call, at each exit.
impl<V: Drop> Drop for Named<V> {
    fn drop(self) {
        let Named { places: _ } = self;
    }
}

impl<V> Model for Named<V> {
    ghost use Rattle.std.specs.Ordering.{nat_cmp};
    ghost use Rattle.std.specs.FinMap as map;
    ghost use Rattle.std.specs.Coded.{coded_ℕ};

    ghost Value = { map.FinMap nat_cmp (map.FinMap nat_cmp V) };

    ghost coded = { map.code coded_ℕ (map.code coded_ℕ V.code) };

    ghost view = { λ a. a.places };
}

impl<V> Named<V> {
    ghost use Rattle.std.specs.Borrow.{sem};
    ghost use Rattle.std.specs.Option.{option_copied_mut};
    ghost use Rattle.kernel_model.specs.laws.NameLends.{lends_named};
    ghost use Rattle.kernel_model.specs.laws.Formers.{IsFormer};

    /// The empty map, which takes no memory.
    pub fn new(alloc: Global) -> Self
        ensures { result ≡ map.empty }
    {
        Named {
            places: Map::new(alloc),
        }
    }

    /// What a name has.
    pub fn get(&self, place: u64, index: u32) -> Option<&V>
        ensures { option_copied result ≡ get_named self.now place index }
    {
        self.places.get(place)?.get(u64::from(index))
    }

    /// What a name has, for writing.
    pub fn get_mut(&mut self, place: u64, index: u32) -> Option<&mut V>
        ensures* writes_back { sem 𝓛 (lends_named V.row self.entry place index result) }
        ensures value { option_copied_mut result ≡ get_named self.old place index }
    {
        self.places.get_mut(place)?.get_mut(u64::from(index))
    }

    /// Whether a name has a value.
    pub fn contains(&self, place: u64, index: u32) -> bool
        ensures { result ≡ has_named self.now place index }
    {
        self.get(place, index).is_some()
    }

    /// Sets what a name has. An `Err` leaves the map as it was, and comes only where the name has nothing.
    pub fn insert(&mut self, alloc: Global, place: u64, index: u32, value: V) -> Result<(), Memory>
    where
        V: Drop,
        ensures ok { OnOk result (self.new ≡ with_named self.old place index value) }
        ensures err { OnErr result (self.new ≡ self.old) }
        ensures absent { OnErr result (get_named self.old place index ≡ None) }
    {
        match self.places.get_mut(place) {
            Some(made) => made.insert(u64::from(index), value),
            None => {
                let mut made = Map::new(alloc);
                made.insert(u64::from(index), value)?;
                self.places.insert(place, made)
            }
        }
    }

    /// Sets what a name has that has a value already. It takes no memory.
    pub fn replace(&mut self, place: u64, index: u32, value: V)
    where
        V: Drop,
        requires { IsTrue (has_named self.old place index) }
        ensures { self.new ≡ with_named self.old place index value }
    {
        if let Some(made) = self.places.get_mut(place) {
            made.replace(u64::from(index), value);
        }
    }

    /// Takes a name's value out, and answers it. It takes no memory.
    pub fn remove(&mut self, place: u64, index: u32) -> Option<V>
        ensures value { result ≡ get_named self.old place index }
        ensures after { self.new ≡ without_named self.old place index }
    {
        self.places.get_mut(place)?.remove(u64::from(index))
    }

    /// Sets what a name has, and answers what it had, so that a caller can take it back. An `Err` leaves the map as it
    /// was.
    pub fn put(
        &mut self,
        alloc: Global,
        place: u64,
        index: u32,
        value: V,
    ) -> Result<Former<V>, Memory>
    where
        V: Drop,
        ensures ok { IfOk result (λ f. self.new ≡ with_named self.old place index value) }
        ensures former { IfOk result (λ f. IsFormer f self.old place index) }
        ensures err { OnErr result (self.new ≡ self.old) }
    {
        if let Some(present) = self.get_mut(place, index) {
            let former = mem::replace(present, value);
            return Ok(Former {
                had_place: true,
                value: Some(former),
            });
        }
        let had_place = self.places.contains(place);
        self.insert(alloc, place, index, value)?;
        Ok(Former {
            had_place,
            value: None,
        })
    }

    /// Takes back that a name was set, so that the map is as it was before. It takes no memory.
    pub fn give_back(&mut self, place: u64, index: u32, former: Former<V>)
    where
        V: Drop,
        ensures { (m : NamedMap V) (v : V) → self.old ≡ with_named m place index v → IsFormer former m place index →
            self.new ≡ m }
    {
        match former.value {
            Some(value) => {
                if self.contains(place, index) {
                    self.replace(place, index, value);
                }
            }
            None => {
                if former.had_place {
                    let _ = self.remove(place, index);
                } else {
                    let _ = self.places.remove(place);
                }
            }
        }
    }
}
