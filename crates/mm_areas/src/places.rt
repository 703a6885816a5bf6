//! Where a mapping goes, and whether the break may be put where it is asked.

ghost use Rattle.std.specs.Prelude.{◌≡◌, ◌+◌, ◌<◌, ◌≤◌, ◌^◌, None, Some, IfOk, IfErr, OnOk};
ghost use Rattle.std.specs.FinMap as map_of;
ghost use Rattle.mm_areas.specs.Mappings.{mapping, taken_from, pages_in, pages_after, first_page_for, map_fault, is_no_place};
ghost use Rattle.mm_areas.specs.Mappings.{is_break};

use crate::free::{highest_free, is_free, mapped_within};
use crate::lengths::{PAGE_SIZE, is_no_length, is_no_range, pages_in};
use crate::{AreaFault, Areas};

/// The most pages that are mapped at once: getrlimit(2), `RLIMIT_AS`.
pub const MOST_PAGES: u64 = 16_384;

/// Whether no mapping begins there or has that length.
fn is_no_place(at: Option<u64>, length: u64) -> bool
    ensures { result ≡ is_no_place at length }
{
    match at {
        None => is_no_length(length),
        Some(address) => is_no_length(length)
            || is_no_range(address, length)
            || address < PAGE_SIZE,
    }
}

/// How many pages are mapped once so many more are.
#[tactic(auto, using(crate::proofs::RegionLaws::order_from_test))]
fn pages_after(areas: &Areas, at: Option<u64>, count: u64) -> u64
    requires { count ≤ 2 ^ 51 }
    ensures { result ≡ pages_after (mapping areas.now).pages at count }
{
    match at {
        None => areas.count + count,
        Some(address) => areas.count
            - mapped_within(areas.regions.as_slice(), address / PAGE_SIZE, count)
            + count,
    }
}

/// The page that a mapping begins at, or why there is none.
#[rattlefmt::skip]
#[tactic(auto, using(crate::proofs::RegionLaws::order_from_test, crate::proofs::PlaceLaws::highest_ends,
    crate::proofs::PlaceLaws::highest_takes))]
pub(crate) fn place(areas: &Areas, at: Option<u64>, length: u64) -> Result<u64, AreaFault>
    ensures fits { IfOk result (λ page. first_page_for (mapping areas.now).pages at (pages_in length) ≡ Some page) }
    ensures ok { OnOk result (map_fault (mapping areas.now) at length ≡ None) }
    ensures some { OnOk result (0 < length) }
    ensures end { IfOk result (λ page. page + pages_in length ≤ 2 ^ 26) }
    ensures limit { IfOk result (λ page.
        map_of.len (taken_from (mapping areas.now) page (pages_in length)).pages + pages_in length ≤ MOST_PAGES) }
    ensures fault { IfErr result (λ e. map_fault (mapping areas.now) at length ≡ Some e) }
{
    if is_no_place(at, length) {
        return Err(AreaFault::Invalid);
    }
    let count = pages_in(length);
    if pages_after(areas, at, count) > MOST_PAGES {
        return Err(AreaFault::Limit);
    }
    match at {
        None => highest_free(areas.regions.as_slice(), count).ok_or(AreaFault::NoRange),
        Some(address) => Ok(address / PAGE_SIZE),
    }
}

impl Areas {
    /// The page that a mapping of that length would begin at, or why there would be none. Nothing changes.
    ///
    /// mmap(2), ERRORS.
    pub fn place_of(&self, at: Option<u64>, length: u64) -> Result<u64, AreaFault>
        ensures place { IfOk result (λ page. first_page_for (mapping self.now).pages at (pages_in length) ≡ Some page) }
        ensures ok { OnOk result (map_fault (mapping self.now) at length ≡ None) }
        ensures end { IfOk result (λ page. page + pages_in length ≤ 2 ^ 26) }
        ensures few { OnOk result (pages_in length ≤ MOST_PAGES) }
        ensures fault { IfErr result (λ e. map_fault (mapping self.now) at length ≡ Some e) }
    {
        place(self, at, length)
    }
}

/// Whether the break may be put there.
#[tactic(auto, using(crate::proofs::RegionLaws::order_from_test))]
pub(crate) fn is_break(areas: &Areas, to: u64) -> bool
    ensures { result ≡ is_break (mapping areas.now) to }
{
    let broken = pages_in(areas.program_break);
    let more = pages_in(to).saturating_sub(broken);
    areas.start <= to
        && to < 1 << 37
        && is_free(areas.regions.as_slice(), broken, more)
        && areas.count + more <= MOST_PAGES
}
