//! How many pages an image has, counted as far as a program may have them.

ghost use Rattle.std.specs.Prelude.{◌≡◌, List, ◌+◌, ◌≤◌, ◌∷◌, min, nat_lt, if◌then◌else◌};
ghost use Rattle.std.specs.FinMap as map_of;
ghost use Rattle.elf_image.specs.declared.image.Segment.{Segment as SegmentSeen};
ghost use Rattle.image_load.specs.Pages.{is_met_by, pages_mapped, segments_laid};

use crate::pages::STACK_COUNT;
use crate::places::{first_page, is_met_by, page_count};
use elf_image::{Image, Segment};
use mm_areas::MOST_PAGES;

/// The most pages that an image may have: those that may be mapped, without those of the stack.
pub(crate) const MOST_IMAGE_PAGES: u64 = MOST_PAGES - STACK_COUNT;

/// Whether an image and a stack have more pages than may be mapped. It takes no memory, and goes over no more pages
/// than may be mapped for each segment.
pub fn has_too_many_pages(image: &Image) -> bool
    ensures { result ≡ nat_lt MOST_PAGES (pages_mapped image.now) }
{
    MOST_IMAGE_PAGES < capped_pages(image.segments.as_slice())
}

/// How many pages segments meet, or one more than an image may have where it's more.
fn capped_pages(segments: &[Segment]) -> u64
    ensures { (all : List SegmentSeen) →
        result ≡ min (map_of.len (segments_laid all segments.now)) (MOST_IMAGE_PAGES + 1) }
{
    match segments {
        [] => 0,
        [first, rest @ ..] => capped_with(first, rest, capped_pages(rest)),
    }
}

/// The same of segments with one more, of which the others are counted.
fn capped_with(first: &Segment, rest: &[Segment], counted: u64) -> u64
    requires { (all : List SegmentSeen) →
        counted ≡ min (map_of.len (segments_laid all rest.now)) (MOST_IMAGE_PAGES + 1) }
    ensures { (all : List SegmentSeen) →
        result ≡ min (map_of.len (segments_laid all (first.now ∷ rest.now))) (MOST_IMAGE_PAGES + 1) }
{
    if MOST_IMAGE_PAGES < counted {
        return counted;
    }
    let many = page_count(first);
    if MOST_IMAGE_PAGES < many {
        return MOST_IMAGE_PAGES + 1;
    }
    let start = first_page(first);
    let mut count = counted;
    let mut page = start + many;
    while start < page {
        page -= 1;
        count = (count + fresh(rest, page)).min(MOST_IMAGE_PAGES + 1);
    }
    count
}

/// How many pages come with a page beside those that segments meet: itself, or none where one of them meets it.
fn fresh(segments: &[Segment], page: u64) -> u64
    ensures one { result ≡ (if is_met_by segments.now page then 0 else 1) }
    ensures small { result ≤ 1 }
{
    if is_met_by(segments, page) { 0 } else { 1 }
}
