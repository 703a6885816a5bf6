//! Pages as accesses see them.

ghost use Rattle.std.specs.Prelude.{◌≡◌, ℕ, ◌+◌, ◌≤◌, length, replicate};
ghost use Rattle.std.specs.FinMap as map_of;
ghost use Rattle.mm_areas.specs.Pages.{mapped_by};
ghost use Rattle.mm_space.specs.Accesses.{area_byte, mapped_byte, page_byte};
ghost use Rattle.mm_space.specs.Handed.{area_in, hand_of};
ghost use Rattle.mm_space.specs.PageSights.{IsWhole, sight_area, sight_byte, sight_bytes};
ghost use Rattle.mm_space.specs.Spaces.{space_of};

use crate::{Handed, Space};
use mm_areas::{Content, Page, Rights, SharedPage};
use rv_table::Area;

/// What a page is to an access: none of its bytes may be accessed so, all of them lie in a shared area that is not
/// handed in, or they are there.
#[derive(Drop)]
pub(crate) enum PageSight<'a> {
    Barred,
    InArea(Area),
    Bytes(&'a [u8]),
}

impl<'a> PageSight<'a> {
    /// The area that the page lies in, where that isn't handed in.
    pub(crate) fn area(&self) -> Option<Area>
        ensures { result ≡ sight_area self.now }
    {
        match self {
            PageSight::InArea(area) => Some(*area),
            PageSight::Barred => None,
            PageSight::Bytes(_) => None,
        }
    }

    /// So many of the page's bytes from an offset on, and 0 for each that may not be accessed.
    pub(crate) fn run(&self, offset: usize, count: usize) -> &'a [u8]
        requires whole { IsWhole self.now }
        requires fits { offset + count ≤ 4096 }
        ensures bytes { result.now ≡ sight_bytes self.now offset count }
        ensures count { length result.now ≡ count }
    {
        match self {
            PageSight::Bytes(bytes) => &bytes[offset..offset + count],
            PageSight::Barred => zeros(count),
            PageSight::InArea(_) => zeros(count),
        }
    }

    /// Copies the page's bytes from an offset on, and 0 for each that may not be accessed.
    pub(crate) fn copy_to(&self, offset: usize, piece: &mut [u8])
        requires whole { IsWhole self.now }
        requires fits { offset + length piece.old ≤ 4096 }
        ensures { piece.new ≡ sight_bytes self.now offset (length piece.old) }
    {
        match self {
            PageSight::Bytes(bytes) => piece.copy_from_slice(&bytes[offset..offset + piece.len()]),
            PageSight::Barred => piece.fill(0),
            PageSight::InArea(_) => piece.fill(0),
        }
    }
}

impl Space {
    /// The page of that number, as an access by that right sees it.
    pub(crate) fn page_sight<'a>(
        &'a self,
        handed: &'a Handed,
        right: Rights,
        page: u64,
    ) -> PageSight<'a>
        ensures bytes { (offset : ℕ) → sight_byte result offset ≡
            mapped_byte right (hand_of handed.now) offset (map_of.get (space_of self.now).mapping.pages page) }
        ensures whole { IsWhole result }
    {
        match self.areas.page(page) {
            Some(page) => sight_of(page, handed, right),
            None => PageSight::Barred,
        }
    }
}

static ZEROS: [u8; 4096] = [0; 4096];

/// The bytes of a page of zeros.
fn page_of_zeros() -> &'static [u8; 4096]
    ensures { result.now ≡ replicate 4096 0 }
{
    &ZEROS
}

/// So many zeros.
fn zeros(count: usize) -> &'static [u8]
    requires { count ≤ 4096 }
    ensures { result.now ≡ replicate count 0 }
{
    let page = page_of_zeros();
    &page[..count]
}

/// A page, where it has that right.
fn sight_of<'a>(page: &'a Page, handed: &'a Handed, right: Rights) -> PageSight<'a>
    ensures bytes { (offset : ℕ) →
        sight_byte result offset ≡ page_byte right (hand_of handed.now) offset (mapped_by page.now) }
    ensures whole { IsWhole result }
{
    if !page.rights.allows(right) {
        return PageSight::Barred;
    }
    match &page.content {
        Content::Private(frame) => PageSight::Bytes(frame.as_slice()),
        Content::Shared(page) => area_sight(page, handed),
    }
}

/// A page of a shared area.
fn area_sight<'a>(page: &SharedPage, handed: &'a Handed) -> PageSight<'a>
    ensures bytes { (offset : ℕ) → sight_byte result offset ≡
        area_byte page.now.area page.now.number offset (area_in page.now.area (hand_of handed.now)) }
    ensures whole { IsWhole result }
{
    match handed.get(page.area) {
        Some(area) => match area.frames.as_slice(page.number as usize) {
            Some(bytes) => PageSight::Bytes(bytes),
            None => PageSight::Barred,
        },
        None => PageSight::InArea(page.area),
    }
}
