//! Searches among regions in order: free ranges, covered ones, and how much of a range is mapped.

ghost use Rattle.std.specs.Prelude.{◌≡◌, ℕ, ◌+◌, ◌-◌, ◌^◌, ◌<◌, ◌≤◌, true, false, length, min, max};
ghost use Rattle.std.specs.FinMap as map_of;
ghost use Rattle.mm_areas.specs.Order.{AreFrom};
ghost use Rattle.mm_areas.specs.Pages.{is_free, is_covered, unmapped};
ghost use Rattle.mm_areas.specs.Mappings.{highest_free};
ghost use Rattle.mm_areas.specs.Regions.{pages_of};

use crate::areas::Region;
use crate::places::MOST_PAGES;
use crate::regions::first_behind;

/// The page behind the last that a mapping may be given without an asked address.
const TOP: u64 = (1 << 26) - 256;

/// The first page that a mapping may be given without an asked address.
const BOTTOM: u64 = 1 << 25;

/// Where the highest of the gaps that have so many pages ends, or the lowest region begins.
fn highest_gap(regions: &[Region], count: u64) -> u64
    requires order { AreFrom 0 regions.now }
    requires some { 0 < count }
    requires few { count ≤ MOST_PAGES }
    ensures top { result ≤ 2 ^ 26 - 256 }
    ensures free { count ≤ result → is_free (pages_of regions.now) (result - count) count ≡ true }
    ensures above { (f : ℕ) → result < f + count → f + count ≤ 2 ^ 26 - 256 →
        is_free (pages_of regions.now) f count ≡ false }
{
    let mut end = TOP;
    for index in (0..regions.len()).rev() {
        let region = &regions[index];
        if region.first + region.pages.len() as u64 + count <= end {
            return end;
        }
        end = end.min(region.first);
    }
    end
}

/// The highest of the free ranges of so many pages, between the first page and the last that may be given.
pub(crate) fn highest_free(regions: &[Region], count: u64) -> Option<u64>
    requires order { AreFrom 0 regions.now }
    requires some { 0 < count }
    requires few { count ≤ MOST_PAGES }
    ensures { result ≡ highest_free (pages_of regions.now) count }
{
    let end = highest_gap(regions, count);
    if end >= BOTTOM + count {
        Some(end - count)
    } else {
        None
    }
}

/// Whether none of so many pages is mapped.
pub(crate) fn is_free(regions: &[Region], first: u64, count: u64) -> bool
    requires order { AreFrom 0 regions.now }
    requires end { first + count < 2 ^ 64 }
    ensures { result ≡ is_free (pages_of regions.now) first count }
{
    if count == 0 {
        return true;
    }
    let index = first_behind(regions, first);
    if index < regions.len() {
        regions[index].first >= first + count
    } else {
        true
    }
}

/// How many pages of a region are from one on and below another.
fn reach(region: &Region, first: u64, end: u64) -> u64
    requires { region.now.first + length region.now.pages.items ≤ 2 ^ 26 }
    ensures { result ≡ min (region.now.first + length region.now.pages.items) end - max region.now.first first }
{
    let behind = region.first + region.pages.len() as u64;
    behind.min(end).saturating_sub(region.first.max(first))
}

/// How many of so many pages are mapped.
pub(crate) fn mapped_within(regions: &[Region], first: u64, count: u64) -> u64
    requires order { AreFrom 0 regions.now }
    requires end { first + count < 2 ^ 64 }
    ensures { result + map_of.len (unmapped first count (pages_of regions.now)) ≡ map_of.len (pages_of regions.now) }
{
    let end = first + count;
    let mut mapped = 0;
    for index in first_behind(regions, first)..regions.len() {
        let region = &regions[index];
        if region.first >= end {
            return mapped;
        }
        mapped += reach(region, first, end);
    }
    mapped
}

/// Whether each of so many pages is mapped.
pub(crate) fn is_covered(regions: &[Region], first: u64, count: u64) -> bool
    requires order { AreFrom 0 regions.now }
    requires end { first + count < 2 ^ 64 }
    ensures { result ≡ is_covered (pages_of regions.now) first count }
{
    mapped_within(regions, first, count) == count
}
