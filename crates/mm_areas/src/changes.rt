//! What maps, unmaps and moves the break.

ghost use Rattle.std.specs.Prelude.{◌≡◌, ℕ, ◌/◌, true, false, Some, Err, IfOk, OnOk, OnErr, IfSome};
ghost use Rattle.std.specs.FinMap as map_of;
ghost use Rattle.mm_areas.specs.declared.fault.AreaFault.{AreaFault as AFault};
ghost use Rattle.mm_areas.specs.Pages.{is_within};
ghost use Rattle.mm_areas.specs.Own.{page_of, owns};
ghost use Rattle.mm_areas.specs.DecodedWords.{has_row_at};
ghost use Rattle.mm_areas.specs.Mappings.{mapping, pages_in, first_page_for, address_of, map_fault, mapped_at, unmap_fault};
ghost use Rattle.mm_areas.specs.Mappings.{unmapped_at, is_break, broken_at, after_brk};

use crate::lengths::{PAGE_SIZE, is_no_range, pages_in};
use crate::new_pages::new_pages;
use crate::places::{is_break, place};
use crate::{AreaErr, AreaFault, Areas, Backing, Rights};
use sn_base::Memory;
use std::alloc::Global;

impl Areas {
    /// Maps new pages over so many bytes, and answers their address: the one that is asked, in the places of the pages
    /// that are there, or that of the highest free range. The other pages keep their bytes as their own, if they were,
    /// and their decoded words. New pages have no bytes of their own until they are written.
    #[tactic(auto, using(crate::proofs::PlaceLaws::len_laid_new))]
    pub fn map(
        &mut self,
        alloc: Global,
        at: Option<u64>,
        length: u64,
        rights: Rights,
        backing: Backing,
    ) -> Result<u64, AreaErr>
        ensures place { IfOk result (λ address.
            address_of (first_page_for (mapping self.old).pages at (pages_in length)) ≡ Some address) }
        ensures ok { IfOk result (λ address.
            mapping self.new ≡ mapped_at (mapping self.old) (address / 4096) length rights backing) }
        ensures fault { (fault : AFault) → result ≡ Err (AreaErr.Fault fault) →
            map_fault (mapping self.old) at length ≡ Some fault }
        ensures faulty { IfSome (map_fault (mapping self.old) at length) (λ fault.
            result ≡ Err (AreaErr.Fault fault)) }
        ensures err { OnErr result (mapping self.new ≡ mapping self.old) }
        ensures owned { IfOk result (λ address.
            (page : ℕ) → is_within (address / 4096) (pages_in length) page ≡ false →
            owns self.new page ≡ owns self.old page) }
        ensures fresh { IfOk result (λ address.
            (page : ℕ) → is_within (address / 4096) (pages_in length) page ≡ true →
            owns self.new page ≡ false) }
        ensures kept { OnErr result ((page : ℕ) → owns self.new page ≡ owns self.old page) }
        ensures rows { IfOk result (λ address.
            (page : ℕ) → is_within (address / 4096) (pages_in length) page ≡ false →
            has_row_at self.new page ≡ has_row_at self.old page) }
        ensures undecoded { IfOk result (λ address.
            (page : ℕ) → is_within (address / 4096) (pages_in length) page ≡ true →
            has_row_at self.new page ≡ false) }
        ensures rows_kept { OnErr result ((page : ℕ) → has_row_at self.new page ≡ has_row_at self.old page) }
    {
        let first = place(self, at, length)?;
        let pages = new_pages(alloc, backing, rights, pages_in(length))?;
        self.lay(first, pages)?;
        Ok(PAGE_SIZE * first)
    }

    /// Unmaps the pages of so many bytes from an address on; pages that aren't mapped stay so. The other pages keep
    /// their bytes as their own, if they were, and their decoded words.
    pub fn unmap(&mut self, address: u64, length: u64) -> Result<(), AreaErr>
        ensures ok { OnOk result (mapping self.new ≡ unmapped_at (mapping self.old) address length) }
        ensures fault { (fault : AFault) → result ≡ Err (AreaErr.Fault fault) →
            unmap_fault address length ≡ Some fault }
        ensures faulty { IfSome (unmap_fault address length) (λ fault. result ≡ Err (AreaErr.Fault fault)) }
        ensures err { OnErr result (mapping self.new ≡ mapping self.old) }
        ensures owned { (page : ℕ) → is_within (address / 4096) (pages_in length) page ≡ false →
            owns self.new page ≡ owns self.old page }
        ensures kept { OnErr result ((page : ℕ) → owns self.new page ≡ owns self.old page) }
        ensures rows { (page : ℕ) → is_within (address / 4096) (pages_in length) page ≡ false →
            has_row_at self.new page ≡ has_row_at self.old page }
        ensures rows_kept { OnErr result ((page : ℕ) → has_row_at self.new page ≡ has_row_at self.old page) }
    {
        if length == 0 || is_no_range(address, length) {
            return Err(AreaFault::Invalid.into());
        }
        self.take(address / PAGE_SIZE, pages_in(length))?;
        Ok(())
    }

    /// Puts the break at an address, if it may be put there, and answers where it is then. Where it stays, no memory is
    /// taken. Pages that stay mapped keep their bytes as their own, if they were, and their decoded words.
    pub fn brk(&mut self, alloc: Global, to: u64) -> Result<u64, Memory>
        ensures ok { OnOk result (mapping self.new ≡ after_brk (mapping self.old) to) }
        ensures answer { IfOk result (λ at. at ≡ (mapping self.new).program_break) }
        ensures refused { is_break (mapping self.old) to ≡ false → result ≡ Ok (mapping self.old).program_break }
        ensures err { OnErr result (mapping self.new ≡ mapping self.old) }
        ensures owned { (page : ℕ) → map_of.contains_key (mapping self.old).pages page ≡ true →
            map_of.contains_key (mapping self.new).pages page ≡ true → owns self.new page ≡ owns self.old page }
        ensures fresh { (page : ℕ) → map_of.contains_key (mapping self.old).pages page ≡ false →
            owns self.new page ≡ false }
        ensures rows { (page : ℕ) → map_of.contains_key (mapping self.old).pages page ≡ true →
            map_of.contains_key (mapping self.new).pages page ≡ true →
            has_row_at self.new page ≡ has_row_at self.old page }
        ensures undecoded { (page : ℕ) → map_of.contains_key (mapping self.old).pages page ≡ false →
            has_row_at self.new page ≡ false }
    {
        if is_break(self, to) {
            self.move_break(alloc, to)?;
        }
        Ok(self.program_break)
    }

    /// Puts the break at an address where it may be put.
    #[tactic(auto, using(crate::proofs::PlaceLaws::len_laid_new))]
    fn move_break(&mut self, alloc: Global, to: u64) -> Result<(), Memory>
        requires { is_break (mapping self.old) to ≡ true }
        ensures ok { OnOk result (mapping self.new ≡ broken_at (mapping self.old) to) }
        ensures err { OnErr result (mapping self.new ≡ mapping self.old) }
        ensures kept { (page : ℕ) → map_of.contains_key (mapping self.old).pages page ≡ true →
            map_of.contains_key (mapping self.new).pages page ≡ true → page_of self.new page ≡ page_of self.old page }
        ensures fresh { (page : ℕ) → map_of.contains_key (mapping self.old).pages page ≡ false →
            owns self.new page ≡ false }
        ensures undecoded { (page : ℕ) → map_of.contains_key (mapping self.old).pages page ≡ false →
            has_row_at self.new page ≡ false }
    {
        let broken = pages_in(self.program_break);
        let wanted = pages_in(to);
        if broken < wanted {
            let pages = new_pages(alloc, Backing::Zeros, Rights::READ_WRITE, wanted - broken)?;
            self.lay(broken, pages)?;
        } else {
            self.take(wanted, broken - wanted)?;
        }
        self.program_break = to;
        Ok(())
    }
}
