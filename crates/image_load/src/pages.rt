//! The pages of a program, made from its image and from the end of its stack.

ghost use Rattle.std.specs.Prelude.{◌≡◌, ℕ, ◌+◌, ◌-◌, ◌<◌, ◌≤◌, ◌^◌, if◌then◌else◌, All, IfOk, OnOk, map};
ghost use Rattle.std.specs.FinMap as map_of;
ghost use Rattle.elf_image.specs.Loadable.{first_page, page_count, IsPlaced};
ghost use Rattle.mm_frames.specs.Frames.{bytes_of};
ghost use Rattle.mm_areas.specs.Pages.{mapped_by};
ghost use Rattle.mm_areas.specs.Mappings.{mapping, unmapped_from, with_pages};
ghost use Rattle.image_load.specs.Pages.{byte_over, image_byte, image_page, page_bytes, run_of, segments_laid};
ghost use Rattle.image_load.specs.Pages.{stack_count, stack_first, stack_page};

use crate::counts::MOST_IMAGE_PAGES;
use crate::places::{first_page, page_count, rights_at};
use crate::rights::page_rights;
use crate::stack::OpeningStack;
use elf_image::Segment;
use mm_areas::{Areas, Content, PAGE_SIZE, Page, Rights};
use mm_frames::Frame;
use sn_base::Memory;
use std::alloc::Global;

/// The size of a page, in bytes, as a number of the 128 bits that ends of addresses take.
const PAGE: u128 = PAGE_SIZE as u128;

/// How many pages the stack has.
pub(crate) const STACK_COUNT: u64 = 64;

/// The number of the first page of the stack.
pub(crate) const STACK_FIRST: u64 = (1 << 26) - STACK_COUNT;

/// Puts into a page what it has of bytes that stand from an address on. Where it has none of them, nothing is done, and
/// a page that nobody has written takes no memory.
fn put_part(
    alloc: Global,
    address: u64,
    bytes: &[u8],
    page: u64,
    frame: &mut Frame,
) -> Result<(), Memory>
    ensures { (byte : ℕ → ℕ) → bytes_of frame.old ≡ page_bytes byte page →
        OnOk result (bytes_of frame.new ≡ page_bytes (λ at. byte_over address bytes.now at (byte at)) page) }
{
    let address = u128::from(address);
    let start = PAGE * u128::from(page);
    let from = address.max(start);
    let end = (address + bytes.len() as u128).min(start + PAGE);
    if from < end {
        let part = &bytes[(from - address) as usize..(end - address) as usize];
        frame.write_bytes(alloc, (from - start) as usize, part)?;
    }
    Ok(())
}

/// The bytes of a page of an image. Where segments overlap, the first of them counts.
fn image_frame(alloc: Global, segments: &[Segment], page: u64) -> Result<Frame, Memory>
    ensures { IfOk result (λ frame. bytes_of frame ≡ page_bytes (image_byte segments.now) page) }
{
    match segments {
        [] => Ok(Frame::zero()),
        [first, rest @ ..] => {
            let mut frame = image_frame(alloc, rest, page)?;
            put_part(
                alloc,
                first.address,
                first.bytes.as_slice(),
                page,
                &mut frame,
            )?;
            Ok(frame)
        }
    }
}

/// A page of an image.
fn image_page(alloc: Global, segments: &[Segment], page: u64) -> Result<Page, Memory>
    ensures { IfOk result (λ made. mapped_by made ≡ image_page segments.now page) }
{
    let frame = image_frame(alloc, segments, page)?;
    Ok(Page {
        rights: page_rights(rights_at(segments, page)),
        content: Content::Private(frame),
    })
}

/// So many pages of an image, one behind another, from the first on.
fn image_pages(
    alloc: Global,
    segments: &[Segment],
    first: u64,
    count: u64,
) -> Result<Vec<Page>, Memory>
    requires { first + count ≤ 2 ^ 26 }
    ensures { IfOk result (λ pages. map mapped_by pages.items ≡ run_of (image_page segments.now) first count) }
{
    let mut pages = Vec::with_capacity(alloc, count as usize)?;
    for n in 0..count {
        pages.push(image_page(alloc, segments, first + n)?)?;
    }
    Ok(pages)
}

/// Whether a page is mapped.
fn is_mapped(areas: &Areas, page: u64) -> bool
    ensures { result ≡ map_of.contains_key (mapping areas.now).pages page }
{
    areas.page(page).is_some()
}

/// The first of a segment's pages that is to be made: the one behind its first page where that is mapped already.
fn first_to_make(areas: &Areas, segment: &Segment) -> u64
    ensures { let first = first_page segment.now in
        result ≡ first + (if map_of.contains_key (mapping areas.now).pages first then 1 else 0) }
{
    let first = first_page(segment);
    first + u64::from(is_mapped(areas, first))
}

/// The number behind the last of a segment's pages that is to be made: its last page where that is mapped already.
fn end_to_make(areas: &Areas, segment: &Segment) -> u64
    requires { 0 < page_count segment.now }
    ensures { let last = first_page segment.now + page_count segment.now - 1 in
        result ≡ last + (if map_of.contains_key (mapping areas.now).pages last then 0 else 1) }
{
    let last = first_page(segment) + page_count(segment) - 1;
    last + u64::from(!is_mapped(areas, last))
}

/// Maps the pages that segments meet, a run for each of them, with the break at its start. Segments that have no
/// address in common can meet the same page only at their ends: such a page is made once.
pub(crate) fn laid_segments(
    alloc: Global,
    all: &[Segment],
    segments: &[Segment],
    start: u64,
) -> Result<Areas, Memory>
    requires placed { All IsPlaced segments.now }
    requires limit { map_of.len (segments_laid all.now segments.now) ≤ MOST_IMAGE_PAGES }
    ensures { IfOk result (λ areas.
        mapping areas ≡ with_pages (unmapped_from start) (segments_laid all.now segments.now)) }
{
    match segments {
        [] => Ok(Areas::new(alloc, start)),
        [first, rest @ ..] => {
            let mut areas = laid_segments(alloc, all, rest, start)?;
            let from = first_to_make(&areas, first);
            let end = end_to_make(&areas, first);
            let pages = image_pages(alloc, all, from, end.saturating_sub(from))?;
            areas.lay(from, pages)?;
            Ok(areas)
        }
    }
}

/// A page of the stack.
fn stack_page(alloc: Global, stack: &OpeningStack, page: u64) -> Result<Page, Memory>
    ensures { IfOk result (λ made. mapped_by made ≡ stack_page stack.now.sp stack.now.bytes page) }
{
    let mut frame = Frame::zero();
    put_part(alloc, stack.sp, stack.bytes.as_slice(), page, &mut frame)?;
    Ok(Page {
        rights: Rights::of(true, true, false),
        content: Content::Private(frame),
    })
}

/// The pages of the stack.
pub(crate) fn stack_pages(alloc: Global, stack: &OpeningStack) -> Result<Vec<Page>, Memory>
    ensures { IfOk result (λ pages. map mapped_by pages.items
        ≡ run_of (stack_page stack.now.sp stack.now.bytes) stack_first stack_count) }
{
    let mut pages = Vec::with_capacity(alloc, STACK_COUNT as usize)?;
    for n in 0..STACK_COUNT {
        pages.push(stack_page(alloc, stack, STACK_FIRST + n)?)?;
    }
    Ok(pages)
}
