//! The decoded words of private pages.

ghost use Rattle.std.specs.Prelude.{◌≡◌, ℕ, ◌-◌, ◌<◌, ◌↔◌, true, false, is_some, IsTrue, IfSome};
ghost use Rattle.std.specs.Prelude.{Some, None};
ghost use Rattle.std.specs.Option.{ForSome};
ghost use Rattle.mm_frames.specs.Rows.{words_of};
ghost use Rattle.mm_areas.specs.Pages.{mapped_by};
ghost use Rattle.mm_areas.specs.DecodedWords.{has_row_content, row_mapped};
ghost use Rattle.mm_areas.specs.Own.{is_own_content};

use crate::regions::find;
use crate::{Areas, Content, Page, Rights};
use mm_frames::Row;
use rv_table::Instr;
use std::alloc::Global;

impl Page {
    ghost use Rattle.mm_areas.specs.Contents.{bytes_mapped};
    ghost use Rattle.mm_areas.specs.Rights.{has};

    /// Decodes the words of a private page that has a right, where that hasn't been done, and answers whether they are
    /// there decoded.
    fn decode(&mut self, alloc: Global, right: Rights) -> bool
        ensures row { IsTrue result ↔
            ((has_row_content self.new.content ≡ true) × (has self.old.rights right ≡ true)) }
        ensures kept { IsTrue (has_row_content self.old.content) → IsTrue (has_row_content self.new.content) }
        ensures private { IsTrue result → is_some (bytes_mapped (Some (mapped_by self.old))) ≡ true }
        ensures mapped { mapped_by self.new ≡ mapped_by self.old }
        ensures own { is_own_content self.new.content ≡ is_own_content self.old.content }
    {
        if !self.rights.allows(right) {
            return false;
        }
        match &mut self.content {
            Content::Private(frame) => frame.decode(alloc),
            Content::Shared(_) => false,
        }
    }

    /// The words of a private page, decoded, where they are there.
    fn row(&self) -> Option<&[Instr]>
        ensures there { is_some result ≡ has_row_content self.now.content }
        ensures words { IfSome result (λ words. row_mapped (Some (mapped_by self.now)) ≡ Some words.now) }
    {
        match &self.content {
            Content::Private(frame) => frame.row(),
            Content::Shared(_) => None,
        }
    }

    /// Takes the decoded words of a private page out, where they are there, and puts others in, which are those of the
    /// page's bytes too.
    fn swap_row(&mut self, row: Option<Row>) -> Option<Row>
        requires { ForSome row (λ r. row_mapped (Some (mapped_by self.old)) ≡ Some (words_of r)) }
        ensures there { is_some result ≡ has_row_content self.old.content }
        ensures words { IfSome result (λ r. row_mapped (Some (mapped_by self.old)) ≡ Some (words_of r)) }
        ensures row { has_row_content self.new.content ≡ is_some row }
        ensures mapped { mapped_by self.new ≡ mapped_by self.old }
        ensures own { is_own_content self.new.content ≡ is_own_content self.old.content }
    {
        match &mut self.content {
            Content::Private(frame) => {
                let before = frame.take_row();
                if let Some(row) = row {
                    frame.put_row(row);
                }
                before
            }
            Content::Shared(_) => None,
        }
    }
}

impl Areas {
    ghost use Rattle.std.specs.FinMap as map_of;
    ghost use Rattle.mm_areas.specs.Contents.{bytes_at};
    ghost use Rattle.mm_areas.specs.Hints.{allows_at};
    ghost use Rattle.mm_areas.specs.Mappings.{mapping};
    ghost use Rattle.mm_areas.specs.Own.{owns};
    ghost use Rattle.mm_areas.specs.DecodedWords.{has_row_at, row_at};

    /// Decodes the words of a private page that has a right, where that hasn't been done, and answers whether they are
    /// there decoded: not where memory was wanting, and where the page isn't mapped so or is a page of a shared area. A
    /// wrong hint costs a look-up.
    pub fn decode(&mut self, alloc: Global, hint: usize, page: u64, right: Rights) -> bool
        ensures row { IsTrue result ↔
            ((has_row_at self.new page ≡ true) × (allows_at (mapping self.old).pages page right ≡ true)) }
        ensures kept { IsTrue (has_row_at self.old page) → IsTrue (has_row_at self.new page) }
        ensures private { IsTrue result → is_some (bytes_at (mapping self.old).pages page) ≡ true }
        ensures mapped { mapping self.new ≡ mapping self.old }
        ensures owned { (other : ℕ) → owns self.new other ≡ owns self.old other }
        ensures others { (other : ℕ) → (other ≡ page → ⊥) →
            has_row_at self.new other ≡ has_row_at self.old other }
    {
        match self.index_near(hint, page) {
            Some(index) => {
                let region = &mut self.regions[index];
                let at = (page - region.first) as usize;
                region.pages[at].decode(alloc, right)
            }
            None => false,
        }
    }

    /// The words of a private page, decoded, where they are there.
    #[tactic(auto, using(crate::proofs::RegionLaws::order_from_test))]
    pub fn row(&self, page: u64) -> Option<&[Instr]>
        ensures there { is_some result ≡ has_row_at self.now page }
        ensures words { IfSome result (λ words. row_at (mapping self.now).pages page ≡ Some words.now) }
    {
        match find(self.regions.as_slice(), page) {
            Some(index) => {
                let region = &self.regions[index];
                region.pages[(page - region.first) as usize].row()
            }
            None => None,
        }
    }

    /// Takes the decoded words of a page out, where they are there, and puts others in, which are those of the page's
    /// bytes too.
    fn swap_row(&mut self, hint: usize, page: u64, row: Option<Row>) -> Option<Row>
        requires { ForSome row (λ r. row_at (mapping self.old).pages page ≡ Some (words_of r)) }
        ensures there { is_some result ≡ has_row_at self.old page }
        ensures words { IfSome result (λ r. row_at (mapping self.old).pages page ≡ Some (words_of r)) }
        ensures row { has_row_at self.new page ≡ is_some row }
        ensures mapped { mapping self.new ≡ mapping self.old }
        ensures owned { (other : ℕ) → owns self.new other ≡ owns self.old other }
        ensures others { (other : ℕ) → (other ≡ page → ⊥) →
            has_row_at self.new other ≡ has_row_at self.old other }
    {
        match self.index_near(hint, page) {
            Some(index) => {
                let region = &mut self.regions[index];
                let at = (page - region.first) as usize;
                region.pages[at].swap_row(row)
            }
            None => None,
        }
    }

    /// Takes the decoded words of a page out, where they are there, so that they can be read while the address space is
    /// written to. A wrong hint costs a look-up.
    pub fn take_row(&mut self, hint: usize, page: u64) -> Option<Row>
        ensures there { is_some result ≡ has_row_at self.old page }
        ensures words { IfSome result (λ r. row_at (mapping self.old).pages page ≡ Some (words_of r)) }
        ensures row { has_row_at self.new page ≡ false }
        ensures mapped { mapping self.new ≡ mapping self.old }
        ensures owned { (other : ℕ) → owns self.new other ≡ owns self.old other }
        ensures others { (other : ℕ) → (other ≡ page → ⊥) →
            has_row_at self.new other ≡ has_row_at self.old other }
    {
        self.swap_row(hint, page, None)
    }

    /// Puts back the decoded words of a private page, which are those of its bytes. A wrong hint costs a look-up.
    pub fn put_row(&mut self, hint: usize, page: u64, row: Row)
        requires { row_at (mapping self.old).pages page ≡ Some (words_of row) }
        ensures row { has_row_at self.new page ≡ true }
        ensures mapped { mapping self.new ≡ mapping self.old }
        ensures owned { (other : ℕ) → owns self.new other ≡ owns self.old other }
        ensures others { (other : ℕ) → (other ≡ page → ⊥) →
            has_row_at self.new other ≡ has_row_at self.old other }
    {
        self.swap_row(hint, page, Some(row));
    }

    /// Gives up the decoded words of a page, and the memory that they take.
    pub fn drop_row(&mut self, page: u64)
        ensures row { has_row_at self.new page ≡ false }
        ensures mapped { mapping self.new ≡ mapping self.old }
        ensures owned { (other : ℕ) → owns self.new other ≡ owns self.old other }
        ensures others { (other : ℕ) → (other ≡ page → ⊥) →
            has_row_at self.new other ≡ has_row_at self.old other }
    {
        self.swap_row(0, page, None);
    }
}
