//! The areas of an address space.

ghost use Rattle.std.specs.Prelude.{◌≡◌, ℕ, ◌+◌, ◌-◌, ◌≤◌, ◌<◌, ◌^◌, true, false};
ghost use Rattle.std.specs.FinMap as map_of;
ghost use Rattle.mm_areas.specs.Order.{are_from};
ghost use Rattle.mm_areas.specs.Regions.{pages_of};
ghost use Rattle.mm_areas.specs.declared.places.TheConstants.{MOST_PAGES};

use crate::Page;
use crate::free::mapped_within;
use crate::regions::{clear, lay_over, page_at};
use sn_base::Memory;
use std::alloc::Global;

/// Pages one behind another, from the page `first` on.
#[derive(Drop)]
pub struct Region {
    pub first: u64,
    pub pages: Vec<Page>,
}

/// What is mapped in an address space, the start of its break and its break.
#[derive(Drop)]
pub struct Areas {
    pub(crate) regions: Vec<Region>,
    pub(crate) count: u64,
    pub(crate) start: u64,
    pub(crate) program_break: u64,
    ghost in_order: { are_from 0 regions.items ≡ true },
    ghost counted: { count ≡ map_of.len (pages_of regions.items) },
    ghost limited: { count ≤ MOST_PAGES },
}

impl Areas {
    ghost use Rattle.std.specs.Prelude.{length, option_map, slice_get, OnOk, OnErr};
    ghost use Rattle.std.specs.Option.{option_copied};
    ghost use Rattle.mm_areas.specs.Pages.{mapped_by, is_within};
    ghost use Rattle.mm_areas.specs.Own.{page_of};
    ghost use Rattle.mm_areas.specs.Mappings.{mapping, unmapped_from, laid_in, taken_from};

    /// Nothing mapped, with the break at its start. It takes no memory.
    #[tactic(auto, using(crate::proofs::RegionLaws::len_of_none))]
    pub fn new(alloc: Global, start: u64) -> Areas
        ensures { mapping result ≡ unmapped_from start }
    {
        Areas {
            regions: Vec::new(alloc),
            count: 0,
            start,
            program_break: start,
        }
    }

    /// How many pages are mapped.
    pub fn len(&self) -> u64
        ensures { result ≡ map_of.len (mapping self.now).pages }
    {
        self.count
    }

    /// Where the break begins.
    pub fn start(&self) -> u64
        ensures { result ≡ (mapping self.now).start }
    {
        self.start
    }

    /// Where the break is.
    pub fn program_break(&self) -> u64
        ensures { result ≡ (mapping self.now).program_break }
    {
        self.program_break
    }

    /// The page of that number, or `None` where it isn't mapped.
    #[tactic(auto, using(crate::proofs::RegionLaws::order_from_test))]
    pub fn page(&self, number: u64) -> Option<&Page>
        ensures { option_map mapped_by (option_copied result) ≡ map_of.get (mapping self.now).pages number }
    {
        page_at(self.regions.as_slice(), number)
    }

    /// Lays pages from one on, in the places of those that are there. Each is there then as it was handed in, and the
    /// pages outside keep their frames.
    #[tactic(auto, using(crate::proofs::RegionLaws::order_from_test, crate::proofs::RegionLaws::test_from_order))]
    pub fn lay(&mut self, first: u64, pages: Vec<Page>) -> Result<(), Memory>
        requires end { first + length pages.items ≤ 2 ^ 26 }
        requires limit { map_of.len (laid_in (mapping self.old) first pages.items).pages ≤ MOST_PAGES }
        ensures ok { OnOk result (mapping self.new ≡ laid_in (mapping self.old) first pages.items) }
        ensures err { OnErr result (mapping self.new ≡ mapping self.old) }
        ensures kept { (page : ℕ) → is_within first (length pages.items) page ≡ false →
            page_of self.new page ≡ page_of self.old page }
        ensures put { OnOk result ((page : ℕ) → is_within first (length pages.items) page ≡ true →
            page_of self.new page ≡ slice_get pages.items (page - first)) }
        ensures same { OnErr result ((page : ℕ) → page_of self.new page ≡ page_of self.old page) }
    {
        if pages.is_empty() {
            return Ok(());
        }
        let count = pages.len() as u64;
        let gone = mapped_within(self.regions.as_slice(), first, count);
        lay_over(&mut self.regions, Region { first, pages })?;
        self.count = self.count - gone + count;
        Ok(())
    }

    /// Takes out the pages of a range. The pages outside keep their frames.
    #[tactic(auto, using(crate::proofs::RegionLaws::order_from_test, crate::proofs::RegionLaws::test_from_order))]
    pub(crate) fn take(&mut self, first: u64, count: u64) -> Result<(), Memory>
        requires { first + count < 2 ^ 64 }
        ensures ok { OnOk result (mapping self.new ≡ taken_from (mapping self.old) first count) }
        ensures err { OnErr result (mapping self.new ≡ mapping self.old) }
        ensures kept { (page : ℕ) → is_within first count page ≡ false →
            page_of self.new page ≡ page_of self.old page }
        ensures same { OnErr result ((page : ℕ) → page_of self.new page ≡ page_of self.old page) }
    {
        let gone = mapped_within(self.regions.as_slice(), first, count);
        clear(&mut self.regions, first, count)?;
        self.count -= gone;
        Ok(())
    }
}
