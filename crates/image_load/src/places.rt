//! Where an image's segments lie: the pages that they meet, the rights that those have, and their highest end.

ghost use Rattle.std.specs.Prelude.{◌≡◌, ◌≤◌, ◌^◌, All};
ghost use Rattle.elf_image.specs.Loadable.{first_page, page_count, IsPlaced};
ghost use Rattle.image_load.specs.Pages.{is_met, is_met_by, rights_at};
ghost use Rattle.image_load.specs.Loading.{highest_end};

use crate::rights::joined;
use elf_image::{Segment, SegmentRights};
use mm_areas::PAGE_SIZE;

/// The number of the first page of a segment.
pub(crate) fn first_page(segment: &Segment) -> u64
    ensures value { result ≡ first_page segment.now }
    ensures small { result ≤ 2 ^ 52 }
{
    segment.address / PAGE_SIZE
}

/// How many pages a segment meets.
pub(crate) fn page_count(segment: &Segment) -> u64
    ensures value { result ≡ page_count segment.now }
    ensures small { result ≤ 2 ^ 53 }
{
    let end = u128::from(segment.address) + u128::from(segment.size);
    let last_page = (end.saturating_sub(1) / u128::from(PAGE_SIZE)) as u64;
    last_page + 1 - first_page(segment)
}

/// Whether a segment meets a page.
fn is_met(segment: &Segment, page: u64) -> bool
    ensures { result ≡ is_met segment.now page }
{
    first_page(segment) <= page && page - first_page(segment) < page_count(segment)
}

/// Whether one of several segments meets a page.
pub(crate) fn is_met_by(segments: &[Segment], page: u64) -> bool
    ensures { result ≡ is_met_by segments.now page }
{
    segments.iter().any(|segment| is_met(segment, page))
}

/// The rights of a page: those of each segment that meets it.
pub(crate) fn rights_at(segments: &[Segment], page: u64) -> SegmentRights
    ensures { result ≡ rights_at segments.now page }
{
    match segments {
        [] => SegmentRights {
            read: false,
            write: false,
            execute: false,
        },
        [first, rest @ ..] => {
            let others = rights_at(rest, page);
            if is_met(first, page) {
                joined(first.rights, others)
            } else {
                others
            }
        }
    }
}

/// The highest end of segments, or 0 where there are none.
pub(crate) fn highest_end(segments: &[Segment]) -> u64
    requires { All IsPlaced segments.now }
    ensures end { result ≡ highest_end segments.now }
    ensures small { result ≤ 2 ^ 37 }
{
    match segments {
        [] => 0,
        [first, rest @ ..] => (first.address + first.size).max(highest_end(rest)),
    }
}
