//! Store-conditionals by hints: the fast form, which leaves what it can't do to the exact calls.

ghost use Rattle.std.specs.Prelude.{◌≡◌, ℕ, ◌/◌, false, is_some, IfSome};
ghost use Rattle.std.specs.FinMap as map_of;
ghost use Rattle.rv_table.specs.Words.{IsWidth};
ghost use Rattle.mm_space.specs.Conditionals.{ConditionalNear};
ghost use Rattle.mm_space.specs.Spaces.{space_of};

use crate::{Hints, Space};
use mm_areas::Rights;

impl Space {
    /// Does what a store-conditional of a task does to so many bytes at an address, where they lie in one page that may
    /// be written and has its bytes for itself: ends the task's reservation, and stores where that was of just that
    /// address and so many bytes, which it answers. Elsewhere it does nothing, and answers `None`. It takes no memory.
    #[inline(always)]
    pub fn conditional_near(
        &mut self,
        hints: &mut Hints,
        task: u32,
        at: u64,
        width: u8,
        value: u64,
    ) -> Option<bool>
        requires { IsWidth width }
        ensures done { IfSome result (ConditionalNear (space_of self.old) (space_of self.new) task at width value) }
        ensures apart { IfSome result (λ held. (page : ℕ) → (page ≡ at / 4096 → ⊥) →
            map_of.get (space_of self.new).mapping.pages page ≡ map_of.get (space_of self.old).mapping.pages page) }
        ensures unchanged { is_some result ≡ false → space_of self.new ≡ space_of self.old }
    {
        let page = at / 4096;
        let hint = self.areas.hint_from(hints.of(page), page);
        hints.keep(page, hint);
        self.conditional_by(hint, task, at, width, value)
    }

    /// The same by a guess at the page.
    fn conditional_by(
        &mut self,
        hint: usize,
        task: u32,
        at: u64,
        width: u8,
        value: u64,
    ) -> Option<bool>
        requires { IsWidth width }
        ensures done { IfSome result (ConditionalNear (space_of self.old) (space_of self.new) task at width value) }
        ensures apart { IfSome result (λ held. (page : ℕ) → (page ≡ at / 4096 → ⊥) →
            map_of.get (space_of self.new).mapping.pages page ≡ map_of.get (space_of self.old).mapping.pages page) }
        ensures unchanged { is_some result ≡ false → space_of self.new ≡ space_of self.old }
    {
        let offset = (at % 4096) as usize;
        if !self
            .areas
            .has_room_near(hint, at / 4096, offset, width, Rights::WRITE)
        {
            return None;
        }
        let held = self.reservations.take(task, at, width, None);
        if held {
            self.store_by(hint, task, at, width, value);
        }
        Some(held)
    }
}
