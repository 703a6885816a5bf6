//! Numbers of pages by hints: guesses at the region that has a page, which are tested where they are used.

ghost use Rattle.std.specs.Prelude.{◌≡◌, ℕ, ◌-◌, ◌<◌, ◌↔◌, true, false, length, is_some, IsTrue, Some};
ghost use Rattle.std.specs.Prelude.{None, [], IfSome, SomeIff, unwrap_or, option_map};
ghost use Rattle.std.specs.Bool.{OnTrue, OnFalse};
ghost use Rattle.mm_frames.specs.Numbers.{IsInPage, little_number_at, with_number};
ghost use Rattle.std.specs.List.{HoldsAt};
ghost use Rattle.std.specs.Option.{option_copied};
ghost use Rattle.mm_areas.specs.Pages.{is_within, mapped_by};
ghost use Rattle.mm_areas.specs.Contents.{bytes_mapped, with_bytes_changed};
ghost use Rattle.mm_areas.specs.Own.{is_own_content};
ghost use Rattle.mm_areas.specs.DecodedWords.{has_row_content};

use crate::regions::{find, page_in};
use crate::{Areas, Content, Page, Rights};

impl Page {
    ghost use Rattle.mm_areas.specs.Rights.{has};

    /// The number of so many bytes from an offset on, where the page has a right and bytes of its own.
    #[inline(always)]
    fn number_allowed(&self, offset: usize, width: u8, right: Rights) -> Option<u64>
        ensures { SomeIff result
            ((has self.now.rights right ≡ true) ×
            (is_some (bytes_mapped (Some (mapped_by self.now))) ≡ true) × IsInPage offset width)
            (little_number_at (unwrap_or (bytes_mapped (Some (mapped_by self.now))) []) offset width) }
    {
        if !self.rights.allows(right) {
            return None;
        }
        match &self.content {
            Content::Private(frame) => frame.number(offset, width),
            Content::Shared(_) => None,
        }
    }

    /// Whether a number is put where it is asked: the page has a right, its bytes are its own, it reaches so far and an
    /// access is so wide.
    #[inline(always)]
    fn has_room_allowed(&self, offset: usize, width: u8, right: Rights) -> bool
        ensures { IsTrue result ↔ ((is_own_content self.now.content ≡ true) ×
            (has self.now.rights right ≡ true) × IsInPage offset width) }
    {
        if !self.rights.allows(right) {
            return false;
        }
        match &self.content {
            Content::Private(frame) => frame.has_room(offset, width),
            Content::Shared(_) => false,
        }
    }

    /// Puts so many of a number's bytes from an offset on, where the page has a right and its bytes are its own.
    #[inline(always)]
    fn put_allowed(&mut self, offset: usize, width: u8, value: u64, right: Rights) -> bool
        ensures fits { IsTrue result ↔ ((is_own_content self.old.content ≡ true) ×
            (has self.old.rights right ≡ true) × IsInPage offset width) }
        ensures bytes { OnTrue result (mapped_by self.new ≡
            with_bytes_changed (λ bytes. with_number bytes offset width value) (mapped_by self.old)) }
        ensures own { is_own_content self.new.content ≡ is_own_content self.old.content }
        ensures unchanged { OnFalse result (self.new ≡ self.old) }
        ensures row { has_row_content self.new.content ≡ has_row_content self.old.content }
    {
        if !self.rights.allows(right) {
            return false;
        }
        self.put_number(offset, width, value)
    }
}

impl Areas {
    ghost use Rattle.std.specs.FinMap as map_of;
    ghost use Rattle.mm_areas.specs.Contents.{bytes_at, with_change};
    ghost use Rattle.mm_areas.specs.Hints.{is_hint, allows_at};
    ghost use Rattle.mm_areas.specs.Mappings.{mapping, with_pages};
    ghost use Rattle.mm_areas.specs.Own.{owns};
    ghost use Rattle.mm_areas.specs.DecodedWords.{has_row_at};

    /// A hint of the region that has a page: 0 where none has it.
    #[tactic(auto, using(crate::proofs::RegionLaws::order_from_test))]
    pub fn hint(&self, page: u64) -> usize
        ensures held { map_of.contains_key (mapping self.now).pages page ≡ true →
            is_hint self.now result page ≡ true }
        ensures none { map_of.contains_key (mapping self.now).pages page ≡ false → result ≡ 0 }
    {
        match find(self.regions.as_slice(), page) {
            Some(index) => index,
            None => 0,
        }
    }

    /// A hint of the region that has a page, by another guess, which is the answer where it is right: 0 where none has
    /// the page.
    pub fn hint_from(&self, hint: usize, page: u64) -> usize
        ensures held { map_of.contains_key (mapping self.now).pages page ≡ true →
            is_hint self.now result page ≡ true }
        ensures none { map_of.contains_key (mapping self.now).pages page ≡ false → result ≡ 0 }
    {
        if self.is_near(hint, page) {
            hint
        } else {
            self.hint(page)
        }
    }

    /// The index of the region that has a page, by a hint: a wrong one costs a look-up.
    #[tactic(auto, using(crate::proofs::RegionLaws::order_from_test))]
    #[inline(always)]
    pub(crate) fn index_near(&self, hint: usize, page: u64) -> Option<usize>
        ensures within { IfSome result (λ i. i < length self.now.regions.items) }
        ensures held { IfSome result
            (HoldsAt (λ r. is_within r.first (length r.pages.items) page ≡ true) self.now.regions.items) }
        ensures mapped { is_some result ≡ map_of.contains_key (mapping self.now).pages page }
    {
        if self.is_near(hint, page) {
            Some(hint)
        } else {
            find(self.regions.as_slice(), page)
        }
    }

    /// The page of that number, or `None` where it isn't mapped, by a hint: a wrong one costs a look-up.
    #[tactic(auto, using(crate::proofs::RegionLaws::order_from_test))]
    pub fn page_from(&self, hint: usize, page: u64) -> Option<&Page>
        ensures { option_map mapped_by (option_copied result) ≡ map_of.get (mapping self.now).pages page }
    {
        let index = self.index_near(hint, page)?;
        Some(page_in(self.regions.as_slice(), index, page))
    }

    /// Whether a hint is right.
    #[inline(always)]
    fn is_near(&self, hint: usize, page: u64) -> bool
        ensures { result ≡ is_hint self.now hint page }
    {
        match self.regions.get(hint) {
            Some(region) => region.first <= page && page - region.first < region.pages.len() as u64,
            None => false,
        }
    }

    /// The number of so many bytes of a private page from an offset on, the lowest first: `None` too where the hint is
    /// wrong or the page hasn't the right.
    #[inline(always)]
    pub fn number_near(
        &self,
        hint: usize,
        page: u64,
        offset: usize,
        width: u8,
        right: Rights,
    ) -> Option<u64>
        ensures { SomeIff result
            ((is_hint self.now hint page ≡ true) × (allows_at (mapping self.now).pages page right ≡ true)
            × (is_some (bytes_at (mapping self.now).pages page) ≡ true) × IsInPage offset width)
            (little_number_at (unwrap_or (bytes_at (mapping self.now).pages page) []) offset width) }
    {
        if !self.is_near(hint, page) {
            return None;
        }
        let region = &self.regions[hint];
        region.pages[(page - region.first) as usize].number_allowed(offset, width, right)
    }

    /// Whether `put_number_near` puts a number where it is asked.
    #[inline(always)]
    pub fn has_room_near(
        &self,
        hint: usize,
        page: u64,
        offset: usize,
        width: u8,
        right: Rights,
    ) -> bool
        ensures { IsTrue result ↔
            ((is_hint self.now hint page ≡ true) × (owns self.now page ≡ true)
            × (allows_at (mapping self.now).pages page right ≡ true) × IsInPage offset width) }
    {
        if !self.is_near(hint, page) {
            return false;
        }
        let region = &self.regions[hint];
        region.pages[(page - region.first) as usize].has_room_allowed(offset, width, right)
    }

    /// Puts so many of a number's bytes into a page from an offset on, the lowest first, where the page's bytes are its
    /// own, and answers whether it has: not where the hint is wrong or the page hasn't the right. It takes no memory.
    #[inline(always)]
    pub fn put_number_near(
        &mut self,
        hint: usize,
        page: u64,
        offset: usize,
        width: u8,
        value: u64,
        right: Rights,
    ) -> bool
        ensures fits { IsTrue result ↔
            ((is_hint self.old hint page ≡ true) × (owns self.old page ≡ true)
            × (allows_at (mapping self.old).pages page right ≡ true) × IsInPage offset width) }
        ensures bytes { OnTrue result (mapping self.new ≡
            with_pages (mapping self.old)
            (with_change (mapping self.old).pages page (λ bytes. with_number bytes offset width value))) }
        ensures unchanged { OnFalse result (mapping self.new ≡ mapping self.old) }
        ensures owned { (other : ℕ) → owns self.new other ≡ owns self.old other }
        ensures rows { (other : ℕ) → has_row_at self.new other ≡ has_row_at self.old other }
    {
        if !self.is_near(hint, page) {
            return false;
        }
        let region = &mut self.regions[hint];
        let at = (page - region.first) as usize;
        region.pages[at].put_allowed(offset, width, value, right)
    }
}
