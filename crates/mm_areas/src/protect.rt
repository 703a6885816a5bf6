//! Other rights for the pages of a range.

ghost use Rattle.std.specs.Prelude.{◌≡◌, ℕ, ◌-◌, ◌≤◌, length, map, Err, OnOk, OnErr, IfErr, IfSome};
ghost use Rattle.mm_areas.specs.Order.{AreFrom};
ghost use Rattle.mm_areas.specs.Pages.{mapped_by, protected};
ghost use Rattle.mm_areas.specs.Protected.{protected_from, IsProtected, content_in};
ghost use Rattle.mm_areas.specs.Own.{page_in, owns};
ghost use Rattle.mm_areas.specs.DecodedWords.{has_row_at};
ghost use Rattle.mm_areas.specs.Regions.{pages_of};
ghost use Rattle.mm_areas.specs.Mappings.{mapping, protect_fault, protected_in};

use crate::areas::Region;
use crate::free::is_covered;
use crate::lengths::{PAGE_SIZE, is_no_range, pages_in};
use crate::regions::first_behind;
use crate::{AreaFault, Areas, Page, Rights};

/// Gives the pages from one index up to another other rights.
fn protect_between(pages: &mut [Page], low: usize, high: usize, rights: Rights)
    requires range { low ≤ high }
    requires bound { high ≤ length pages.old }
    ensures mapped { map mapped_by pages.new ≡ protected_from rights low (high - low) 0 (map mapped_by pages.old) }
    ensures contents { map (λ p. p.content) pages.new ≡ map (λ p. p.content) pages.old }
{
    for index in low..high {
        pages[index].rights = rights;
    }
}

/// Gives the pages of a region that are from one on and below another other rights.
fn protect_region(region: &mut Region, first: u64, end: u64, rights: Rights)
    requires { first ≤ end }
    ensures { IsProtected rights first (end - first) region.old region.new }
{
    let high = end
        .saturating_sub(region.first)
        .min(region.pages.len() as u64);
    let low = first.saturating_sub(region.first).min(high);
    protect_between(
        region.pages.as_mut_slice(),
        low as usize,
        high as usize,
        rights,
    );
}

/// Gives the pages from one on and below another other rights.
fn protect_pages(regions: &mut [Region], first: u64, end: u64, rights: Rights)
    requires range { first ≤ end }
    requires order { AreFrom 0 regions.old }
    ensures order { AreFrom 0 regions.new }
    ensures pages { pages_of regions.new ≡ protected rights first (end - first) (pages_of regions.old) }
    ensures contents { (page : ℕ) → content_in (page_in regions.new page) ≡ content_in (page_in regions.old page) }
{
    for index in first_behind(regions, first)..regions.len() {
        if regions[index].first >= end {
            return;
        }
        protect_region(&mut regions[index], first, end, rights);
    }
}

impl Areas {
    /// Gives the pages of so many bytes from an address on other rights, where each of them is mapped. It takes no
    /// memory. Each page keeps its bytes as its own, if they were, and its decoded words.
    #[rattlefmt::skip]
    #[tactic(auto, using(crate::proofs::RegionLaws::order_from_test, crate::proofs::RegionLaws::test_from_order,
        crate::proofs::ProtectLaws::as_many_protected))]
    pub fn protect(&mut self, address: u64, length: u64, rights: Rights) -> Result<(), AreaFault>
        ensures ok { OnOk result (mapping self.new ≡ protected_in (mapping self.old) address length rights) }
        ensures fault { IfErr result (λ e. protect_fault (mapping self.old) address length ≡ Some e) }
        ensures faulty { IfSome (protect_fault (mapping self.old) address length) (λ fault. result ≡ Err fault) }
        ensures err { OnErr result (mapping self.new ≡ mapping self.old) }
        ensures owned { (page : ℕ) → owns self.new page ≡ owns self.old page }
        ensures rows { (page : ℕ) → has_row_at self.new page ≡ has_row_at self.old page }
    {
        if is_no_range(address, length) {
            return Err(AreaFault::Invalid);
        }
        let first = address / PAGE_SIZE;
        let count = pages_in(length);
        if !is_covered(self.regions.as_slice(), first, count) {
            return Err(AreaFault::Hole);
        }
        protect_pages(self.regions.as_mut_slice(), first, first + count, rights);
        Ok(())
    }
}
