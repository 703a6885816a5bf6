//! The bytes of private pages: to read, and to write in place.

ghost use Rattle.std.specs.Prelude.{◌≡◌, ℕ, ◌+◌, ◌-◌, ◌<◌, ◌≤◌, ◌↔◌, true, false, length, is_some, IsTrue, OnOk};
ghost use Rattle.std.specs.Prelude.{OnErr, Some, None, [], SomeIff, unwrap_or, option_and_then, slice_get};
ghost use Rattle.std.specs.Bool.{OnTrue, OnFalse};
ghost use Rattle.rv_table.specs.Words.{IsWidth};
ghost use Rattle.mm_frames.specs.Numbers.{IsInPage, little_number_at, with_number, with_run};
ghost use Rattle.mm_areas.specs.Pages.{mapped_by};
ghost use Rattle.mm_areas.specs.Contents.{bytes_mapped, with_bytes_changed};
ghost use Rattle.mm_areas.specs.Own.{is_own_content};
ghost use Rattle.mm_areas.specs.DecodedWords.{has_row_content};

use crate::regions::find;
use crate::{Areas, Content, Page};
use sn_base::Memory;
use std::alloc::Global;

impl Page {
    /// Whether the page's bytes are its own.
    fn is_own(&self) -> bool
        ensures { result ≡ is_own_content self.now.content }
    {
        match &self.content {
            Content::Private(frame) => frame.is_own(),
            Content::Shared(_) => false,
        }
    }

    /// Makes the bytes of a private page its own. A page of a shared area stays as it is.
    fn own(&mut self, alloc: Global) -> Result<(), Memory>
        ensures mapped { mapped_by self.new ≡ mapped_by self.old }
        ensures own { OnOk result (is_some (bytes_mapped (Some (mapped_by self.old))) ≡ true →
            is_own_content self.new.content ≡ true) }
        ensures still { is_own_content self.old.content ≡ true → is_own_content self.new.content ≡ true }
        ensures err { OnErr result (self.new ≡ self.old) }
        ensures lacking { OnErr result (is_own_content self.old.content ≡ false) }
        ensures private { OnErr result (is_some (bytes_mapped (Some (mapped_by self.old))) ≡ true) }
        ensures row { has_row_content self.new.content ≡ has_row_content self.old.content }
    {
        match &mut self.content {
            Content::Private(frame) => frame.own(alloc),
            Content::Shared(_) => Ok(()),
        }
    }

    /// Puts so many of a number's bytes into a private page from an offset on.
    fn write_number(
        &mut self,
        alloc: Global,
        offset: usize,
        width: u8,
        value: u64,
    ) -> Result<(), Memory>
        requires private { is_some (bytes_mapped (Some (mapped_by self.old))) ≡ true }
        requires width { IsWidth width }
        requires fits { offset + width ≤ 4096 }
        ensures ok { OnOk result (mapped_by self.new ≡
            with_bytes_changed (λ bytes. with_number bytes offset width value) (mapped_by self.old)) }
        ensures own { OnOk result (is_own_content self.new.content ≡ true) }
        ensures err { OnErr result (self.new ≡ self.old) }
        ensures lacking { OnErr result (is_own_content self.old.content ≡ false) }
        ensures row { has_row_content self.new.content ≡ has_row_content self.old.content }
    {
        match &mut self.content {
            Content::Private(frame) => frame.write_number(alloc, offset, width, value),
            Content::Shared(_) => unreachable!(),
        }
    }

    /// Puts a run of bytes into a private page from an offset on.
    fn write_bytes(&mut self, alloc: Global, offset: usize, run: &[u8]) -> Result<(), Memory>
        requires private { is_some (bytes_mapped (Some (mapped_by self.old))) ≡ true }
        requires fits { offset + length run.now ≤ 4096 }
        ensures ok { OnOk result (mapped_by self.new ≡
            with_bytes_changed (λ bytes. with_run bytes offset run.now) (mapped_by self.old)) }
        ensures own { OnOk result (is_own_content self.new.content ≡ true) }
        ensures err { OnErr result (self.new ≡ self.old) }
        ensures lacking { OnErr result (is_own_content self.old.content ≡ false) }
        ensures row { OnOk result (has_row_content self.new.content ≡ false) }
    {
        match &mut self.content {
            Content::Private(frame) => frame.write_bytes(alloc, offset, run),
            Content::Shared(_) => unreachable!(),
        }
    }

    /// Puts so many of a number's bytes into a page whose bytes are its own, and answers whether it has.
    #[inline(always)]
    pub(crate) fn put_number(&mut self, offset: usize, width: u8, value: u64) -> bool
        ensures fits { IsTrue result ↔ ((is_own_content self.old.content ≡ true) × IsInPage offset width) }
        ensures bytes { OnTrue result (mapped_by self.new ≡
            with_bytes_changed (λ bytes. with_number bytes offset width value) (mapped_by self.old)) }
        ensures own { is_own_content self.new.content ≡ is_own_content self.old.content }
        ensures unchanged { OnFalse result (self.new ≡ self.old) }
        ensures row { has_row_content self.new.content ≡ has_row_content self.old.content }
    {
        match &mut self.content {
            Content::Private(frame) => frame.put_number(offset, width, value),
            Content::Shared(_) => false,
        }
    }
}

impl Areas {
    ghost use Rattle.std.specs.Prelude.{Ok};
    ghost use Rattle.std.specs.FinMap as map_of;
    ghost use Rattle.mm_areas.specs.Contents.{bytes_at, with_change};
    ghost use Rattle.mm_areas.specs.Mappings.{mapping, with_pages};
    ghost use Rattle.mm_areas.specs.Own.{owns};
    ghost use Rattle.mm_areas.specs.DecodedWords.{has_row_at};

    /// Puts so many of a number's bytes into a private page from an offset on, the lowest first. A page that shares its
    /// bytes gets a copy of its own first, so that other holders keep theirs. An `Err` changes nothing, and comes only
    /// there.
    #[tactic(auto, using(crate::proofs::RegionLaws::order_from_test))]
    pub fn write_number(
        &mut self,
        alloc: Global,
        page: u64,
        offset: usize,
        width: u8,
        value: u64,
    ) -> Result<(), Memory>
        requires private { is_some (bytes_at (mapping self.old).pages page) ≡ true }
        requires width { IsWidth width }
        requires fits { offset + width ≤ 4096 }
        ensures ok { OnOk result (mapping self.new ≡
            with_pages (mapping self.old)
            (with_change (mapping self.old).pages page (λ bytes. with_number bytes offset width value))) }
        ensures own { OnOk result (owns self.new page ≡ true) }
        ensures err { OnErr result (mapping self.new ≡ mapping self.old) }
        ensures lacking { OnErr result (owns self.old page ≡ false) }
        ensures kept { OnErr result (owns self.new page ≡ owns self.old page) }
        ensures others { (other : ℕ) → (other ≡ page → ⊥) → owns self.new other ≡ owns self.old other }
        ensures rows { (other : ℕ) → has_row_at self.new other ≡ has_row_at self.old other }
    {
        match find(self.regions.as_slice(), page) {
            Some(index) => {
                let region = &mut self.regions[index];
                let at = (page - region.first) as usize;
                region.pages[at].write_number(alloc, offset, width, value)
            }
            None => unreachable!(),
        }
    }

    /// Puts a run of bytes into a private page from an offset on, in the way of `write_number`. It gives up the page's
    /// decoded words.
    #[tactic(auto, using(crate::proofs::RegionLaws::order_from_test))]
    pub fn write_bytes(
        &mut self,
        alloc: Global,
        page: u64,
        offset: usize,
        run: &[u8],
    ) -> Result<(), Memory>
        requires private { is_some (bytes_at (mapping self.old).pages page) ≡ true }
        requires fits { offset + length run.now ≤ 4096 }
        ensures ok { OnOk result (mapping self.new ≡
            with_pages (mapping self.old)
            (with_change (mapping self.old).pages page (λ bytes. with_run bytes offset run.now))) }
        ensures own { OnOk result (owns self.new page ≡ true) }
        ensures err { OnErr result (mapping self.new ≡ mapping self.old) }
        ensures lacking { OnErr result (owns self.old page ≡ false) }
        ensures kept { OnErr result (owns self.new page ≡ owns self.old page) }
        ensures others { (other : ℕ) → (other ≡ page → ⊥) → owns self.new other ≡ owns self.old other }
        ensures row { OnOk result (has_row_at self.new page ≡ false) }
        ensures row_kept { OnErr result (has_row_at self.new page ≡ has_row_at self.old page) }
        ensures rows { (other : ℕ) → (other ≡ page → ⊥) →
            has_row_at self.new other ≡ has_row_at self.old other }
    {
        match find(self.regions.as_slice(), page) {
            Some(index) => {
                let region = &mut self.regions[index];
                let at = (page - region.first) as usize;
                region.pages[at].write_bytes(alloc, offset, run)
            }
            None => unreachable!(),
        }
    }

    /// Makes a private page's bytes its own: where it shares them they are copied. Nothing else changes. Of a page that
    /// isn't mapped or is a page of a shared area nothing is done.
    #[tactic(auto, using(crate::proofs::RegionLaws::order_from_test))]
    pub fn own(&mut self, alloc: Global, page: u64) -> Result<(), Memory>
        ensures mapped { mapping self.new ≡ mapping self.old }
        ensures own { OnOk result (is_some (bytes_at (mapping self.old).pages page) ≡ true →
            owns self.new page ≡ true) }
        ensures private { OnErr result (is_some (bytes_at (mapping self.old).pages page) ≡ true) }
        ensures lacking { OnErr result (owns self.old page ≡ false) }
        ensures kept { OnErr result (owns self.new page ≡ owns self.old page) }
        ensures others { (other : ℕ) → (other ≡ page → ⊥) → owns self.new other ≡ owns self.old other }
        ensures still { (other : ℕ) → owns self.old other ≡ true → owns self.new other ≡ true }
        ensures rows { (other : ℕ) → has_row_at self.new other ≡ has_row_at self.old other }
    {
        match find(self.regions.as_slice(), page) {
            Some(index) => {
                let region = &mut self.regions[index];
                let at = (page - region.first) as usize;
                region.pages[at].own(alloc)
            }
            None => Ok(()),
        }
    }

    /// Puts so many of a number's bytes into a page from an offset on, the lowest first, where the page's bytes are its
    /// own, and answers whether it has. It takes no memory.
    #[tactic(auto, using(crate::proofs::RegionLaws::order_from_test))]
    pub fn put_number(&mut self, page: u64, offset: usize, width: u8, value: u64) -> bool
        ensures fits { IsTrue result ↔ ((owns self.old page ≡ true) × IsInPage offset width) }
        ensures bytes { OnTrue result (mapping self.new ≡
            with_pages (mapping self.old)
            (with_change (mapping self.old).pages page (λ bytes. with_number bytes offset width value))) }
        ensures unchanged { OnFalse result (mapping self.new ≡ mapping self.old) }
        ensures owned { (other : ℕ) → owns self.new other ≡ owns self.old other }
        ensures rows { (other : ℕ) → has_row_at self.new other ≡ has_row_at self.old other }
    {
        match find(self.regions.as_slice(), page) {
            Some(index) => {
                let region = &mut self.regions[index];
                let at = (page - region.first) as usize;
                region.pages[at].put_number(offset, width, value)
            }
            None => false,
        }
    }

    /// The number of so many bytes of a private page from an offset on, the lowest first: `None` where the page isn't
    /// mapped or is a page of a shared area, where it doesn't reach so far, and for a width that no access has.
    pub fn number(&self, page: u64, offset: usize, width: u8) -> Option<u64>
        ensures { SomeIff result
            ((is_some (bytes_at (mapping self.now).pages page) ≡ true) × IsInPage offset width)
            (little_number_at (unwrap_or (bytes_at (mapping self.now).pages page) []) offset width) }
    {
        match &self.page(page)?.content {
            Content::Private(frame) => frame.number(offset, width),
            Content::Shared(_) => None,
        }
    }

    /// The byte at an offset of a private page: `None` where the page isn't mapped or is a page of a shared area, and
    /// past its end.
    pub fn byte(&self, page: u64, offset: usize) -> Option<u8>
        ensures { result ≡ option_and_then (λ bytes. slice_get bytes offset) (bytes_at (mapping self.now).pages page) }
    {
        match &self.page(page)?.content {
            Content::Private(frame) => frame.byte(offset),
            Content::Shared(_) => None,
        }
    }

    /// Whether a page's bytes are its own.
    #[tactic(auto, using(crate::proofs::RegionLaws::order_from_test))]
    pub fn is_own(&self, page: u64) -> bool
        ensures { result ≡ owns self.now page }
    {
        match find(self.regions.as_slice(), page) {
            Some(index) => {
                let region = &self.regions[index];
                region.pages[(page - region.first) as usize].is_own()
            }
            None => false,
        }
    }
}
