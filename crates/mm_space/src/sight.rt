//! Bytes of an address space as accesses see them, one after another.

ghost use Rattle.std.specs.Prelude.{◌≡◌, ◌≤◌, ◌<◌, ◌^◌};
ghost use Rattle.rv_table.specs.Bytes.{first_area, first_barred, number_from, value_in};
ghost use Rattle.mm_areas.specs.Pages.{mapped_by};
ghost use Rattle.mm_space.specs.Accesses.{byte_at, page_byte};
ghost use Rattle.mm_space.specs.Handed.{hand_of};
ghost use Rattle.mm_space.specs.Sight.{seen_byte};
ghost use Rattle.mm_space.specs.Spaces.{reach};

use crate::seen::Seen;
use crate::{Handed, Space};
use mm_areas::{Page, Rights};
use rv_table::Area;

impl Space {
    /// The byte at an address, as an access by that right sees it.
    pub(crate) fn byte_at(&self, handed: &Handed, right: Rights, address: u64) -> Seen
        ensures { seen_byte result ≡ byte_at right (reach self.now handed.now) address }
    {
        match self.areas.page(address / 4096) {
            Some(page) => byte_of(page, handed, right, (address % 4096) as usize),
            None => Seen::Barred,
        }
    }

    /// The first of so many bytes from an address on that may not be accessed so.
    #[tactic(auto, unfolding(rv_table::specs::Bytes::first_barred))]
    pub(crate) fn first_barred(
        &self,
        handed: &Handed,
        right: Rights,
        at: u64,
        count: u8,
    ) -> Option<u64>
        ensures { result ≡ first_barred (byte_at right (reach self.now handed.now)) at count }
    {
        if count == 0 {
            return None;
        }
        match self.byte_at(handed, right, at) {
            Seen::Barred => Some(at),
            Seen::Value(_) => self.first_barred(handed, right, at.wrapping_add(1), count - 1),
            Seen::InArea(_) => self.first_barred(handed, right, at.wrapping_add(1), count - 1),
        }
    }

    /// The area of the first of so many bytes from an address on that lies in one which isn't handed in.
    #[tactic(auto, unfolding(rv_table::specs::Bytes::first_area))]
    pub(crate) fn first_area(
        &self,
        handed: &Handed,
        right: Rights,
        at: u64,
        count: u8,
    ) -> Option<Area>
        ensures { result ≡ first_area (byte_at right (reach self.now handed.now)) at count }
    {
        if count == 0 {
            return None;
        }
        match self.byte_at(handed, right, at) {
            Seen::InArea(area) => Some(area),
            Seen::Barred => self.first_area(handed, right, at.wrapping_add(1), count - 1),
            Seen::Value(_) => self.first_area(handed, right, at.wrapping_add(1), count - 1),
        }
    }

    /// The number of so many bytes from an address on, the lowest first.
    #[tactic(auto, unfolding(rv_table::specs::Bytes::number_from))]
    pub(crate) fn number_from(&self, handed: &Handed, right: Rights, at: u64, count: u8) -> u64
        requires { count ≤ 8 }
        ensures number { result ≡ number_from (byte_at right (reach self.now handed.now)) at count }
        ensures small { result < 256 ^ count }
    {
        if count == 0 {
            return 0;
        }
        let rest = self.number_from(handed, right, at.wrapping_add(1), count - 1);
        let first = value_in(self.byte_at(handed, right, at));
        first + 256 * rest
    }
}

/// The number that a byte is, and 0 where it can't be seen.
fn value_in(seen: Seen) -> u64
    ensures value { result ≡ value_in (seen_byte seen) }
    ensures small { result < 256 }
{
    match seen {
        Seen::Value(value) => u64::from(value),
        Seen::Barred => 0,
        Seen::InArea(_) => 0,
    }
}

/// A byte of a page, where the page has that right.
fn byte_of(page: &Page, handed: &Handed, right: Rights, offset: usize) -> Seen
    ensures { seen_byte result ≡ page_byte right (hand_of handed.now) offset (mapped_by page.now) }
{
    if page.rights.allows(right) {
        handed.byte_of(&page.content, offset)
    } else {
        Seen::Barred
    }
}
