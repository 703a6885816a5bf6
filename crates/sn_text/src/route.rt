//! Routes: names that lead from a directory down to a file.

ghost use Rattle.std.specs.Prelude.{◌≡◌, ◌<◌, ◌↔◌, [], ◌∷◌, ◌++◌, length, All, IsTrue, IfOk, OnOk, OnErr};
ghost use Rattle.std.specs.Slice.{IsItemAt};
ghost use Rattle.sn_text.specs.Names.{IsName};

use crate::name::Name;
use sn_base::Memory;
use std::alloc::Global;
use std::marker::Model;

/// Names in order, as those from a directory down to one of its files. Contracts see it as the list
/// of the names.
#[derive(Debug, Drop)]
pub struct Route {
    items: Vec<Name>,
}

impl Model for Route {
    ghost use Rattle.std.specs.Prelude.{ℕ, List};
    ghost use Rattle.std.specs.Coded.{coded_list, coded_ℕ};

    ghost Value = { List (List ℕ) };

    ghost coded = { coded_list (coded_list coded_ℕ) };

    ghost view = { λ a. a.items.items };

    ghost use Rattle.std.specs.Prelude.{All};
    ghost use Rattle.sn_text.specs.Names.{IsName};

    ghost invariant = { λ a. All IsName a.items.items };
}

impl Route {
    /// No names. It takes no memory.
    pub fn new(alloc: Global) -> Route
        ensures { result ≡ [] }
    {
        Route {
            items: Vec::new(alloc),
        }
    }

    /// How many names the route has.
    pub fn len(&self) -> usize
        ensures { result ≡ length self.now }
    {
        self.items.len()
    }

    /// Whether the route has no names.
    pub fn is_empty(&self) -> bool
        ensures { IsTrue result ↔ (self.now ≡ []) }
    {
        self.items.is_empty()
    }

    /// The name at an index, counted from 0, or `None` past the end.
    pub fn get(&self, index: usize) -> Option<&Name>
        ensures { IsItemAt self.now index result }
    {
        self.items.get(index)
    }

    /// The names, in order.
    pub fn names(&self) -> &[Name]
        ensures value { result.now ≡ self.now }
        ensures are_names { All IsName self.now }
    {
        self.items.as_slice()
    }

    /// Adds a name at the end. An `Err` leaves the route as it was.
    pub fn push(&mut self, name: Name) -> Result<(), Memory>
        ensures ok { OnOk result (self.new ≡ self.old ++ name ∷ []) }
        ensures err { OnErr result (self.new ≡ self.old) }
    {
        // What is read here shows that the bytes are a name.
        let _bytes = name.as_bytes();
        self.items.push(name)?;
        Ok(())
    }

    /// The same names, in memory of their own. No names take none.
    pub fn copy(&self, alloc: Global) -> Result<Route, Memory>
        ensures ok { IfOk result (λ r. r ≡ self.now) }
        ensures some { OnErr result (0 < length self.now) }
    {
        let mut copy = Route::new(alloc);
        for name in self.names() {
            copy.push(name.copy(alloc)?)?;
        }
        Ok(copy)
    }
}
