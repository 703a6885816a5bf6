//! Regions in order: where a page is, how they are cut, what is taken out and what is put in.

ghost use Rattle.std.specs.Prelude.{◌≡◌, ℕ, ◌+◌, ◌-◌, ◌^◌, ◌<◌, ◌≤◌, nat_le, true, false, length, map, option_map};
ghost use Rattle.std.specs.Prelude.{is_some, Some, IfSome, IfOk, OnOk, OnErr, vec_len, vec_capacity, slice_get};
ghost use Rattle.std.specs.List.{HoldsAt, remove_range};
ghost use Rattle.std.specs.Option.{option_copied};
ghost use Rattle.std.specs.FinMap as map_of;
ghost use Rattle.mm_areas.specs.Order.{AreFrom};
ghost use Rattle.mm_areas.specs.Places.{AreCut, AreHalves, index_behind};
ghost use Rattle.mm_areas.specs.Pages.{is_within, is_free, mapped_by, laid, unmapped};
ghost use Rattle.mm_areas.specs.Regions.{pages_of};
ghost use Rattle.mm_areas.specs.Own.{page_in};

use crate::Page;
use crate::areas::Region;
use sn_base::Memory;

/// Whether a region ends by a page.
#[tactic(auto, using(crate::proofs::IndexLaws::ends_by))]
fn ends_by(region: &Region, page: u64) -> bool
    ensures { result ≡ nat_le (region.now.first + length region.now.pages.items) page }
{
    region.first <= page && region.pages.len() as u64 <= page - region.first
}

/// The index of the first region that ends behind a page.
pub(crate) fn first_behind(regions: &[Region], page: u64) -> usize
    requires { AreFrom 0 regions.now }
    ensures index { result ≡ index_behind page regions.now }
    ensures bound { result ≤ length regions.now }
{
    regions.partition_point(|region| ends_by(region, page))
}

/// The index of the region that has a page.
pub(crate) fn find(regions: &[Region], page: u64) -> Option<usize>
    requires { AreFrom 0 regions.now }
    ensures within { IfSome result (λ i. i < length regions.now) }
    ensures held { IfSome result (HoldsAt (λ r. is_within r.first (length r.pages.items) page ≡ true) regions.now) }
    ensures mapped { is_some result ≡ map_of.contains_key (pages_of regions.now) page }
{
    let index = first_behind(regions, page);
    if index < regions.len() && regions[index].first <= page {
        Some(index)
    } else {
        None
    }
}

/// Cuts a region at a page inside it: it keeps the pages below, and those from the page on are a region of their own.
fn halve(region: &mut Region, page: u64) -> Result<Region, Memory>
    requires low { region.old.first < page }
    requires high { page < region.old.first + length region.old.pages.items }
    ensures ok { IfOk result (AreHalves page region.old region.new) }
    ensures err { OnErr result (region.new ≡ region.old) }
{
    let kept = page - region.first;
    let pages = region.pages.split_off(kept as usize)?;
    Ok(Region { first: page, pages })
}

/// Cuts the region that reaches over a page, if there is one.
pub(crate) fn cut(regions: &mut Vec<Region>, page: u64) -> Result<(), Memory>
    requires { AreFrom 0 regions.old.items }
    ensures order { AreFrom 0 regions.new.items }
    ensures pages { pages_of regions.new.items ≡ pages_of regions.old.items }
    ensures ok { OnOk result (AreCut page regions.new.items) }
    ensures others { (other : ℕ) → AreCut other regions.old.items → AreCut other regions.new.items }
    ensures kept { (page : ℕ) → page_in regions.new.items page ≡ page_in regions.old.items page }
{
    let index = first_behind(regions.as_slice(), page);
    if index < regions.len() && regions[index].first < page {
        regions.reserve(1)?;
        let behind = halve(&mut regions[index], page)?;
        if regions.insert(index + 1, behind).is_err() {
            unreachable!();
        }
    }
    Ok(())
}

/// Takes out the regions from one index up to another.
fn remove_between(regions: &mut Vec<Region>, from: usize, to: usize)
    requires range { from ≤ to }
    requires bound { to ≤ length regions.old.items }
    ensures items { regions.new.items ≡ remove_range regions.old.items from to }
    ensures capacity { vec_capacity regions.new ≡ vec_capacity regions.old }
{
    regions.drain(from..to);
}

/// Takes out the regions of a range that none reaches over.
pub(crate) fn take_out(regions: &mut Vec<Region>, first: u64, end: u64)
    requires range { first ≤ end }
    requires order { AreFrom 0 regions.old.items }
    requires cut_first { AreCut first regions.old.items }
    requires cut_end { AreCut end regions.old.items }
    ensures order { AreFrom 0 regions.new.items }
    ensures pages { pages_of regions.new.items ≡ unmapped first (end - first) (pages_of regions.old.items) }
    ensures room { vec_len regions.old < vec_capacity regions.old → vec_len regions.new < vec_capacity regions.new }
    ensures kept { (page : ℕ) → is_within first (end - first) page ≡ false →
        page_in regions.new.items page ≡ page_in regions.old.items page }
{
    let from = first_behind(regions.as_slice(), first);
    let to = first_behind(regions.as_slice(), end);
    remove_between(regions, from, to);
}

/// Puts in a region where its pages are free and there is room for it.
pub(crate) fn put(regions: &mut Vec<Region>, region: Region)
    requires order { AreFrom 0 regions.old.items }
    requires some { 0 < length region.pages.items }
    requires end { region.first + length region.pages.items ≤ 2 ^ 26 }
    requires free { is_free (pages_of regions.old.items) region.first (length region.pages.items) ≡ true }
    requires room { vec_len regions.old < vec_capacity regions.old }
    ensures order { AreFrom 0 regions.new.items }
    ensures pages { pages_of regions.new.items
        ≡ laid region.first (map mapped_by region.pages.items) (pages_of regions.old.items) }
    ensures kept { (page : ℕ) → is_within region.first (length region.pages.items) page ≡ false →
        page_in regions.new.items page ≡ page_in regions.old.items page }
    ensures put { (page : ℕ) → is_within region.first (length region.pages.items) page ≡ true →
        page_in regions.new.items page ≡ slice_get region.pages.items (page - region.first) }
{
    let index = first_behind(regions.as_slice(), region.first);
    if regions.insert(index, region).is_err() {
        unreachable!();
    }
}

/// Puts in a region in the places of the pages that are there.
pub(crate) fn lay_over(regions: &mut Vec<Region>, region: Region) -> Result<(), Memory>
    requires order { AreFrom 0 regions.old.items }
    requires some { 0 < length region.pages.items }
    requires end { region.first + length region.pages.items ≤ 2 ^ 26 }
    ensures order { AreFrom 0 regions.new.items }
    ensures ok { OnOk result (pages_of regions.new.items
        ≡ laid region.first (map mapped_by region.pages.items) (pages_of regions.old.items)) }
    ensures err { OnErr result (pages_of regions.new.items ≡ pages_of regions.old.items) }
    ensures kept { (page : ℕ) → is_within region.first (length region.pages.items) page ≡ false →
        page_in regions.new.items page ≡ page_in regions.old.items page }
    ensures put { OnOk result ((page : ℕ) → is_within region.first (length region.pages.items) page ≡ true →
        page_in regions.new.items page ≡ slice_get region.pages.items (page - region.first)) }
    ensures same { OnErr result ((page : ℕ) → page_in regions.new.items page ≡ page_in regions.old.items page) }
{
    let end = region.first + region.pages.len() as u64;
    cut(regions, region.first)?;
    cut(regions, end)?;
    regions.reserve(1)?;
    take_out(regions, region.first, end);
    put(regions, region);
    Ok(())
}

/// Takes out the pages of a range.
pub(crate) fn clear(regions: &mut Vec<Region>, first: u64, count: u64) -> Result<(), Memory>
    requires order { AreFrom 0 regions.old.items }
    requires end { first + count < 2 ^ 64 }
    ensures order { AreFrom 0 regions.new.items }
    ensures ok { OnOk result (pages_of regions.new.items ≡ unmapped first count (pages_of regions.old.items)) }
    ensures err { OnErr result (pages_of regions.new.items ≡ pages_of regions.old.items) }
    ensures kept { (page : ℕ) → is_within first count page ≡ false →
        page_in regions.new.items page ≡ page_in regions.old.items page }
    ensures same { OnErr result ((page : ℕ) → page_in regions.new.items page ≡ page_in regions.old.items page) }
{
    cut(regions, first)?;
    cut(regions, first + count)?;
    take_out(regions, first, first + count);
    Ok(())
}

/// The page of that number.
pub(crate) fn page_at(regions: &[Region], page: u64) -> Option<&Page>
    requires { AreFrom 0 regions.now }
    ensures { option_map mapped_by (option_copied result) ≡ map_of.get (pages_of regions.now) page }
{
    let index = find(regions, page)?;
    Some(page_in(regions, index, page))
}

/// The page of that number, in the region of an index, which has it.
pub(crate) fn page_in(regions: &[Region], index: usize, page: u64) -> &Page
    requires order { AreFrom 0 regions.now }
    requires within { index < length regions.now }
    requires held { HoldsAt (λ r. is_within r.first (length r.pages.items) page ≡ true) regions.now index }
    ensures { map_of.get (pages_of regions.now) page ≡ Some (mapped_by result.now) }
{
    let region = &regions[index];
    &region.pages[(page - region.first) as usize]
}
