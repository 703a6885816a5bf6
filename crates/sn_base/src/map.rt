//! Maps from numbers to values, which tell where memory ran out and are then as they were.

ghost use Rattle.std.specs.Prelude.{◌≡◌, ◌↔◌, IsTrue, OnOk, OnErr, IfOk, None, option_copied};
ghost use Rattle.std.specs.FinMap as map;
ghost use Rattle.std.specs.BTreeMap as tree;
ghost use Rattle.std.specs.Ordering.{nat_cmp};
ghost use Rattle.sn_base.specs.MapKeys.{IsLeastAbove};

use crate::{List, Memory};
use std::alloc::{AllocError, Global};
use std::collections::BTreeMap;
use std::marker::Model;
use std::ops::Bound;

/// A map from unsigned numbers to values. Contracts see it as a finite map.
#[derive(Debug, Drop)]
pub struct Map<V> {
    entries: BTreeMap<u64, V>,
}

impl<V> Model for Map<V> {
    ghost use Rattle.std.specs.Ordering.{nat_cmp};
    ghost use Rattle.std.specs.FinMap as map;
    ghost use Rattle.std.specs.Coded.{coded_ℕ};

    ghost Value = { map.FinMap nat_cmp V };

    ghost coded = { map.code coded_ℕ V.code };

    ghost view = { λ a. map.from_entries a.entries.entries };
}

impl<V> Map<V> {
    ghost use Rattle.std.specs.Borrow.{sem};
    ghost use Rattle.std.specs.Option.{option_copied_mut};
    ghost use Rattle.sn_base.specs.laws.MapLends.{lends_value};

    /// The empty map, which takes no memory.
    pub fn new(alloc: Global) -> Self
        ensures { result ≡ map.empty }
    {
        Map {
            entries: BTreeMap::new(alloc),
        }
    }

    /// How many keys have a value.
    pub fn len(&self) -> usize
        ensures { result ≡ map.len self.now }
    {
        self.entries.len()
    }

    /// Whether no key has a value.
    pub fn is_empty(&self) -> bool
        ensures { IsTrue result ↔ (self.now ≡ map.empty) }
    {
        self.entries.is_empty()
    }

    /// What a key has.
    pub fn get(&self, key: u64) -> Option<&V>
        ensures { option_copied result ≡ map.get self.now key }
    {
        self.entries.get(&key)
    }

    /// What a key has, for writing.
    pub fn get_mut(&mut self, key: u64) -> Option<&mut V>
        ensures* writes_back { sem 𝓛 (lends_value V.row self.entry key result) }
        ensures value { option_copied_mut result ≡ map.get self.old key }
    {
        self.entries.get_mut(&key)
    }

    /// Whether a key has a value.
    pub fn contains(&self, key: u64) -> bool
        ensures { result ≡ map.contains_key self.now key }
    {
        self.entries.contains_key(&key)
    }

    /// Sets what a key has. An `Err` leaves the map as it was, and comes only where the key has nothing.
    pub fn insert(&mut self, key: u64, value: V) -> Result<(), Memory>
    where
        V: Drop,
        ensures ok { OnOk result (self.new ≡ map.insert self.old key value) }
        ensures err { OnErr result (self.new ≡ self.old) }
        ensures absent { OnErr result (map.get self.old key ≡ None) }
    {
        self.entries.insert(key, value)?;
        Ok(())
    }

    /// Sets what a key has that has a value already. It takes no memory.
    pub fn replace(&mut self, key: u64, value: V)
    where
        V: Drop,
        requires { IsTrue (map.contains_key self.old key) }
        ensures { self.new ≡ map.insert self.old key value }
    {
        let _ = self.entries.insert(key, value);
    }

    /// Takes a key out, and answers what it had. It takes no memory.
    pub fn remove(&mut self, key: u64) -> Option<V>
        ensures value { result ≡ map.get self.old key }
        ensures after { self.new ≡ map.remove self.old key }
    {
        self.entries.remove(&key)
    }

    /// The least key above another that has a value.
    pub fn first_above(&self, after: u64) -> Option<u64>
        ensures { IsLeastAbove self.now after result }
    {
        let behind = (Bound::Excluded(after), Bound::Unbounded);
        match self.entries.range(behind).next() {
            Some((key, _)) => Some(*key),
            None => None,
        }
    }

    /// The keys that have a value, ascending.
    pub fn keys(&self, alloc: Global) -> Result<List<u64>, Memory>
        ensures { IfOk result (λ ks. ks ≡ map.keys self.now) }
    {
        let keys = keys_of(alloc, &self.entries)?;
        Ok(List::from_vec(keys))
    }
}

fn keys_of<V>(alloc: Global, entries: &BTreeMap<u64, V>) -> Result<Vec<u64>, AllocError>
    ensures items { IfOk result (λ ks. ks.items ≡ tree.keys entries.now) }
    ensures ordered { tree.IsOrdered nat_cmp entries.now }
{
    entries.keys().copied().collect(alloc)
}
