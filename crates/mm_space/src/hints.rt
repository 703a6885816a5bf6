//! Loads and stores by hints: the fast form, which answers nothing wide and leaves what it can't do to the exact one.

ghost use Rattle.std.specs.Prelude.{◌≡◌, ℕ, ◌/◌, ◌%◌, ◌<◌, ◌↔◌, IfSome, IsTrue};
ghost use Rattle.std.specs.Bool.{OnTrue, OnFalse};
ghost use Rattle.std.specs.FinMap as map_of;
ghost use Rattle.rv_table.specs.Words.{IsWidth};
ghost use Rattle.mm_space.specs.Accesses.{LoadsNear, readable};
ghost use Rattle.mm_space.specs.Conditionals.{HasRoomBy};
ghost use Rattle.mm_space.specs.Places.{AreAsReady};
ghost use Rattle.mm_space.specs.Puts.{StoresNear};
ghost use Rattle.mm_space.specs.Spaces.{space_of};
ghost use Rattle.mm_space.specs.declared.handed.Handed.{Handed};

use crate::Space;
use mm_areas::Rights;

/// How many pages hints are kept of at once.
const HINTS: usize = 64;

/// Guesses at where pages of an address space lie, of each page one by its number modulo 64. They are tested where they
/// are used, so that no answer rests on them; a wrong one costs a look-up.
#[derive(Drop)]
pub struct Hints {
    regions: [usize; HINTS],
}

impl Hints {
    /// No guesses yet. It takes no memory.
    pub fn new() -> Hints {
        Hints {
            regions: [0; HINTS],
        }
    }

    /// The guess at a page.
    #[inline(always)]
    pub(crate) fn of(&self, page: u64) -> usize {
        self.regions[(page % 64) as usize]
    }

    /// Keeps a guess at a page, in the place of another's.
    pub(crate) fn keep(&mut self, page: u64, hint: usize) {
        self.regions[(page % 64) as usize] = hint;
    }
}

impl Space {
    /// The number of so many bytes at an address, where they lie in one private page that may be read: the one that
    /// `load` answers, whichever areas are handed in. `None` elsewhere. Of a page met before it costs one test of the
    /// guess and of the right. It takes no memory.
    #[inline(always)]
    pub fn load_near(&self, hints: &mut Hints, at: u64, width: u8) -> Option<u64>
        ensures near { IfSome result (LoadsNear readable (space_of self.now) at width) }
    {
        let page = at / 4096;
        match self.number_by(hints.of(page), at, width) {
            Some(number) => Some(number),
            None => self.load_anew(hints, at, width),
        }
    }

    /// The same by a new guess at the page, which is kept.
    #[cold]
    #[inline(never)]
    fn load_anew(&self, hints: &mut Hints, at: u64, width: u8) -> Option<u64>
        ensures near { IfSome result (LoadsNear readable (space_of self.now) at width) }
    {
        let page = at / 4096;
        let hint = self.areas.hint(page);
        hints.keep(page, hint);
        self.number_by(hint, at, width)
    }

    /// The number of so many bytes at an address by a guess at the page.
    #[inline(always)]
    fn number_by(&self, hint: usize, at: u64, width: u8) -> Option<u64>
        ensures near { IfSome result (LoadsNear readable (space_of self.now) at width) }
    {
        let offset = (at % 4096) as usize;
        self.areas
            .number_near(hint, at / 4096, offset, width, Rights::READ)
    }

    /// Stores so many of a number's bytes at an address for a task, where they lie in one page that may be written and
    /// has its bytes for itself, as `store` does, whichever areas are handed in; and answers whether it has. Elsewhere
    /// it does nothing. It takes no memory.
    #[inline(always)]
    pub fn store_near(
        &mut self,
        hints: &mut Hints,
        task: u32,
        at: u64,
        width: u8,
        value: u64,
    ) -> bool
        requires { IsWidth width }
        ensures done { OnTrue result (StoresNear (space_of self.old) (space_of self.new) task at width value) }
        ensures apart { OnTrue result ((page : ℕ) → (page ≡ at / 4096 → ⊥) →
            map_of.get (space_of self.new).mapping.pages page ≡ map_of.get (space_of self.old).mapping.pages page) }
        ensures unchanged { OnFalse result (space_of self.new ≡ space_of self.old) }
    {
        let page = at / 4096;
        if self.store_by(hints.of(page), task, at, width, value) {
            true
        } else {
            self.store_anew(hints, task, at, width, value)
        }
    }

    /// The same by a new guess at the page, which is kept.
    #[cold]
    #[inline(never)]
    fn store_anew(&mut self, hints: &mut Hints, task: u32, at: u64, width: u8, value: u64) -> bool
        requires { IsWidth width }
        ensures done { OnTrue result (StoresNear (space_of self.old) (space_of self.new) task at width value) }
        ensures apart { OnTrue result ((page : ℕ) → (page ≡ at / 4096 → ⊥) →
            map_of.get (space_of self.new).mapping.pages page ≡ map_of.get (space_of self.old).mapping.pages page) }
        ensures unchanged { OnFalse result (space_of self.new ≡ space_of self.old) }
    {
        let page = at / 4096;
        let hint = self.areas.hint(page);
        hints.keep(page, hint);
        self.store_by(hint, task, at, width, value)
    }

    /// Stores by a guess at the page.
    #[inline(always)]
    pub(crate) fn store_by(
        &mut self,
        hint: usize,
        task: u32,
        at: u64,
        width: u8,
        value: u64,
    ) -> bool
        requires { IsWidth width }
        ensures done { OnTrue result (StoresNear (space_of self.old) (space_of self.new) task at width value) }
        ensures apart { OnTrue result ((page : ℕ) → (page ≡ at / 4096 → ⊥) →
            map_of.get (space_of self.new).mapping.pages page ≡ map_of.get (space_of self.old).mapping.pages page) }
        ensures unchanged { OnFalse result (space_of self.new ≡ space_of self.old) }
        ensures fits { IsTrue result ↔ HasRoomBy self.old hint at width }
        ensures ready { OnFalse result ((handed : Handed) → AreAsReady self.old self.new handed handed) }
    {
        let offset = (at % 4096) as usize;
        let done = self
            .areas
            .put_number_near(hint, at / 4096, offset, width, value, Rights::WRITE);
        if done {
            self.reservations.stored(task, at, width);
        }
        done
    }
}
