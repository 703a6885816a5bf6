//! The entries of a directory: their names, and what stands there.

ghost use Rattle.std.specs.Prelude.{◌≡◌, ◌<◌, ◌↔◌, [], ◌∷◌, ◌++◌, length, IsTrue, OnOk, OnErr};
ghost use Rattle.std.specs.Slice.{IsItemAt};

use crate::kind::Kind;
use sn_base::Memory;
use sn_text::Name;
use std::alloc::Global;
use std::marker::Model;

/// An entry of a directory: its name, and what stands there (readdir(3)).
#[derive(Debug, Drop)]
pub struct Listed {
    /// The name.
    pub name: Name,
    /// What stands under it.
    pub kind: Kind,
}

/// The entries of a directory. Contracts see it as the list of the entries.
#[derive(Debug, Drop)]
pub struct Listing {
    entries: Vec<Listed>,
}

impl Model for Listing {
    ghost use Rattle.std.specs.Prelude.{List};
    ghost use Rattle.host_node.specs.declared.listing.Listed.{Listed};

    ghost Value = { List Listed };

    ghost view = { λ a. a.entries.items };
}

impl Listing {
    /// No entries. It takes no memory.
    pub fn new(alloc: Global) -> Listing
        ensures { result ≡ [] }
    {
        Listing {
            entries: Vec::new(alloc),
        }
    }

    /// How many entries there are.
    pub fn len(&self) -> usize
        ensures { result ≡ length self.now }
    {
        self.entries.len()
    }

    /// Whether there are no entries.
    pub fn is_empty(&self) -> bool
        ensures { IsTrue result ↔ (self.now ≡ []) }
    {
        self.entries.is_empty()
    }

    /// The entry at an index, counted from 0, or `None` past the end.
    pub fn get(&self, index: usize) -> Option<&Listed>
        ensures { IsItemAt self.now index result }
    {
        self.entries.get(index)
    }

    /// The entries, in order.
    pub fn entries(&self) -> &[Listed]
        ensures { result.now ≡ self.now }
    {
        self.entries.as_slice()
    }

    /// The allocator that the entries come from.
    pub fn allocator(&self) -> Global {
        *self.entries.allocator()
    }

    /// Adds an entry at the end. An `Err` leaves the listing as it was.
    pub fn push(&mut self, entry: Listed) -> Result<(), Memory>
        ensures ok { OnOk result (self.new ≡ self.old ++ entry ∷ []) }
        ensures err { OnErr result (self.new ≡ self.old) }
    {
        self.entries.push(entry)?;
        Ok(())
    }

    /// Drops all entries, and keeps the memory for those that come.
    pub fn clear(&mut self)
        ensures { self.new ≡ [] }
    {
        self.entries.clear();
    }
}
