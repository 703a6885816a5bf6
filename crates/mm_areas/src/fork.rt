//! A copy of an address space, whose pages share their bytes with the first until one of the two is written.

ghost use Rattle.std.specs.Prelude.{◌≡◌, ℕ, ◌<◌, false, map, IfOk, OnOk};
ghost use Rattle.mm_areas.specs.Pages.{mapped_by, held_in};
ghost use Rattle.mm_areas.specs.Own.{is_own_content};
ghost use Rattle.mm_areas.specs.Shares.{seen_by, AreShared, AreSharedIn};

use crate::areas::Region;
use crate::{Areas, Content, Page};
use sn_base::Memory;
use std::alloc::Global;

/// Another holder of a page's content.
fn share_content(alloc: Global, content: &mut Content) -> Result<Content, Memory>
    ensures kept { held_in content.new ≡ held_in content.old }
    ensures copied { IfOk result (λ other. held_in other ≡ held_in content.old) }
    ensures lost { OnOk result (is_own_content content.new ≡ false) }
    ensures shared { IfOk result (λ other. is_own_content other ≡ false) }
{
    match content {
        Content::Private(frame) => Ok(Content::Private(frame.share(alloc)?)),
        Content::Shared(page) => Ok(Content::Shared(*page)),
    }
}

/// Another page of the same rights and content.
fn share_page(alloc: Global, page: &mut Page) -> Result<Page, Memory>
    ensures kept { mapped_by page.new ≡ mapped_by page.old }
    ensures copied { IfOk result (λ other. mapped_by other ≡ mapped_by page.old) }
    ensures lost { OnOk result (is_own_content page.new.content ≡ false) }
    ensures shared { IfOk result (λ other. is_own_content other.content ≡ false) }
{
    let rights = page.rights;
    let content = share_content(alloc, &mut page.content)?;
    Ok(Page { rights, content })
}

/// Other pages of the same rights and contents.
#[tactic(auto, using(crate::proofs::ShareLaws::kept_more, crate::proofs::SharedLaws::lost_all))]
fn share_pages(alloc: Global, pages: &mut [Page]) -> Result<Vec<Page>, Memory>
    ensures kept { map mapped_by pages.new ≡ map mapped_by pages.old }
    ensures copied { IfOk result (λ others. map mapped_by others.items ≡ map mapped_by pages.old) }
    ensures lost { OnOk result (AreShared pages.new) }
    ensures shared { IfOk result (λ others. AreShared others.items) }
{
    let mut others = Vec::with_capacity(alloc, pages.len())?;
    for index in 0..pages.len() {
        others.push(share_page(alloc, &mut pages[index])?)?;
    }
    Ok(others)
}

/// Another region of the same pages.
fn share_region(alloc: Global, region: &mut Region) -> Result<Region, Memory>
    ensures kept { seen_by region.new ≡ seen_by region.old }
    ensures copied { IfOk result (λ other. seen_by other ≡ seen_by region.old) }
    ensures lost { OnOk result (AreShared region.new.pages.items) }
    ensures shared { IfOk result (λ other. AreShared other.pages.items) }
{
    let first = region.first;
    let pages = share_pages(alloc, region.pages.as_mut_slice())?;
    Ok(Region { first, pages })
}

/// Other regions of the same pages.
#[tactic(auto, using(crate::proofs::ShareLaws::kept_more, crate::proofs::SharedLaws::lost_region_all))]
fn share_regions(alloc: Global, regions: &mut Vec<Region>) -> Result<Vec<Region>, Memory>
    ensures kept { map seen_by regions.new.items ≡ map seen_by regions.old.items }
    ensures copied { IfOk result (λ others. map seen_by others.items ≡ map seen_by regions.old.items) }
    ensures lost { OnOk result (AreSharedIn regions.new.items) }
    ensures shared { IfOk result (λ others. AreSharedIn others.items) }
{
    let mut others = Vec::with_capacity(alloc, regions.len())?;
    for index in 0..regions.len() {
        others.push(share_region(alloc, &mut regions[index])?)?;
    }
    Ok(others)
}

impl Areas {
    ghost use Rattle.mm_areas.specs.Mappings.{mapping};
    ghost use Rattle.mm_areas.specs.Own.{owns};

    /// Another address space of the same mapping. Private pages share their bytes from then on until one is written;
    /// pages of shared areas are named by both. An `Err` leaves the mapping as it was.
    #[tactic(auto, using(crate::proofs::ShareLaws::seen_order, crate::proofs::ShareLaws::seen_pages))]
    pub fn fork(&mut self, alloc: Global) -> Result<Areas, Memory>
        ensures kept { mapping self.new ≡ mapping self.old }
        ensures copied { IfOk result (λ other. mapping other ≡ mapping self.old) }
        ensures lost { OnOk result ((page : ℕ) → owns self.new page ≡ false) }
        ensures shared { IfOk result (λ other. (page : ℕ) → owns other page ≡ false) }
    {
        let regions = share_regions(alloc, &mut self.regions)?;
        Ok(Areas {
            regions,
            count: self.count,
            start: self.start,
            program_break: self.program_break,
        })
    }
}
