//! Shared areas, and those that are handed in with an access.

ghost use Rattle.std.specs.Prelude.{◌≡◌, ℕ, ◌<◌, true, false, None, [], ◌∷◌, ◌++◌, IfOk, IfSome, OnOk, OnErr};
ghost use Rattle.std.specs.Prelude.{option_map, option_copied};
ghost use Rattle.rv_table.specs.Areas.{is_area};
ghost use Rattle.mm_areas.specs.Pages.{held_in};
ghost use Rattle.mm_space.specs.Handed.{area_in, area_state, hand_of, in_hand, zero_area};
ghost use Rattle.mm_space.specs.Places.{owns_shared, place_of};
ghost use Rattle.mm_space.specs.Puts.{put_in_area, with_area};
ghost use Rattle.mm_space.specs.Sight.{as_byte, seen_byte};

use crate::seen::Seen;
use mm_areas::{Content, SharedPage};
use mm_frames::Frames;
use rv_atomic::AreaReservations;
use rv_table::Area;
use sn_base::Memory;
use std::alloc::Global;
use std::mem;

/// A shared area: the frames of its pages, one behind another, and what tasks have reserved in it.
#[derive(Drop)]
pub struct SharedArea {
    pub frames: Frames,
    pub reservations: AreaReservations,
}

impl SharedArea {
    ghost use Rattle.std.specs.Prelude.{Some};
    ghost use Rattle.mm_space.specs.Places.{page_owned};
    ghost use Rattle.mm_space.specs.Reserves.{is_held_in_area, leave_in_area, reserve_in_area};

    /// So many pages that nobody has written, in which nothing is reserved.
    ///
    /// mmap(2), MAP_SHARED and MAP_ANONYMOUS.
    pub fn zeros(alloc: Global, count: usize) -> Result<SharedArea, Memory>
        ensures { IfOk result (λ area. area_state area ≡ zero_area count) }
    {
        let frames = Frames::zeros(alloc, count)?;
        Ok(SharedArea {
            frames,
            reservations: AreaReservations::new(alloc),
        })
    }

    /// The same area once more. Its pages have the same bytes, which both share until one of them is written. An `Err`
    /// leaves this one as it was.
    pub fn copy(&mut self, alloc: Global) -> Result<SharedArea, Memory>
        ensures copied { IfOk result (λ other. area_state other ≡ area_state self.old) }
        ensures kept { area_state self.new ≡ area_state self.old }
    {
        let reservations = self.reservations.copy(alloc)?;
        let frames = self.frames.share(alloc)?;
        Ok(SharedArea {
            frames,
            reservations,
        })
    }

    /// Makes the bytes of a page the area's own, where there is the page.
    fn own(&mut self, alloc: Global, number: usize) -> Result<(), Memory>
        ensures same { area_state self.new ≡ area_state self.old }
        ensures ok { OnOk result (page_owned self.new.frames number ≡ true) }
        ensures still { (other : ℕ) →
            page_owned self.old.frames other ≡ true → page_owned self.new.frames other ≡ true }
        ensures lacking { OnErr result (page_owned self.old.frames number ≡ false) }
    {
        if number < self.frames.len() {
            self.frames.own(alloc, number)?;
        }
        Ok(())
    }

    /// Notes that a task has reserved the granule of a byte.
    fn reserve(&mut self, task: u32, number: u64, offset: u64) -> Result<(), Memory>
        requires { offset < 4096 }
        ensures ok { OnOk result (area_state self.new ≡ reserve_in_area task number offset (area_state self.old)) }
        ensures err { OnErr result (area_state self.new ≡ area_state self.old) }
    {
        let at = number.wrapping_mul(4096).wrapping_add(offset);
        self.reservations.reserve(task, at / 8)
    }

    /// Whether a task has reserved the granule of a byte.
    fn holds(&self, task: u32, number: u64, offset: u64) -> bool
        requires { offset < 4096 }
        ensures { result ≡ is_held_in_area task number offset (Some (area_state self.now)) }
    {
        let at = number.wrapping_mul(4096).wrapping_add(offset);
        self.reservations.holds(task, at / 8)
    }

    /// Ends what a task has reserved.
    fn leave(&mut self, task: u32)
        ensures left { area_state self.new ≡ leave_in_area task (area_state self.old) }
        ensures owned { (other : ℕ) → page_owned self.new.frames other ≡ page_owned self.old.frames other }
    {
        self.reservations.leave(task);
    }

    /// Puts a byte at an offset of a page, where the page's bytes are the area's own.
    fn put(&mut self, task: u32, number: u64, offset: usize, value: u8)
        requires offset { offset < 4096 }
        requires own { page_owned self.old.frames number ≡ true }
        ensures put { area_state self.new ≡ put_in_area task number offset value (area_state self.old) }
        ensures owned { (other : ℕ) → page_owned self.new.frames other ≡ page_owned self.old.frames other }
    {
        let _ = self
            .frames
            .put_number(number as usize, offset, 1, u64::from(value));
        let at = number.wrapping_mul(4096).wrapping_add(offset as u64);
        self.reservations.stored(task, at, 1);
    }
}

/// A shared area under its name.
#[derive(Drop)]
pub struct HandedArea {
    pub name: Area,
    pub area: SharedArea,
}

/// The shared areas that are handed in with an access. A byte in any other can't be reached.
#[derive(Drop)]
pub struct Handed {
    pub(crate) areas: Vec<HandedArea>,
}

impl Handed {
    ghost use Rattle.mm_space.specs.Accesses.{area_byte, held_byte};
    ghost use Rattle.mm_space.specs.Reserves.{is_held_in_area, leave_in_area, reserve_in_area};

    /// No area is handed in. It takes no memory.
    pub fn none(alloc: Global) -> Handed
        ensures { hand_of result ≡ [] }
    {
        Handed {
            areas: Vec::new(alloc),
        }
    }

    /// Hands in an area under its name, behind those that are. Of two of one name the first counts. An `Err` hands in
    /// nothing.
    pub fn push(&mut self, handed: HandedArea) -> Result<(), Memory>
        ensures ok { OnOk result (hand_of self.new ≡ hand_of self.old ++ in_hand handed ∷ []) }
        ensures err { OnErr result (hand_of self.new ≡ hand_of self.old) }
    {
        self.areas.push(handed)?;
        Ok(())
    }

    /// Hands in an area under its name, behind those that are, and leaves one without a page in its place until it is
    /// taken back. An `Err` changes nothing.
    pub fn lend(&mut self, alloc: Global, name: Area, area: &mut SharedArea) -> Result<(), Memory>
        ensures ok { OnOk result
            (hand_of self.new ≡ hand_of self.old ++ record { name = name; state = area_state area.old } ∷ []) }
        ensures left { OnOk result (area_state area.new ≡ zero_area 0) }
        ensures err { OnErr result (hand_of self.new ≡ hand_of self.old) }
        ensures err_area { OnErr result (area_state area.new ≡ area_state area.old) }
    {
        self.areas.reserve(1)?;
        let none = SharedArea::zeros(alloc, 0)?;
        let area = mem::replace(area, none);
        self.areas.push_reserved(HandedArea { name, area });
        Ok(())
    }

    /// Takes back the area that was handed in last, where one is.
    pub fn take_back(&mut self) -> Option<HandedArea>
        ensures last { IfSome result (λ handed. hand_of self.old ≡ hand_of self.new ++ in_hand handed ∷ []) }
        ensures none { result ≡ None → hand_of self.old ≡ [] }
    {
        self.areas.pop()
    }

    /// The area of a name, where it is handed in.
    pub fn get(&self, name: Area) -> Option<&SharedArea>
        ensures { option_map area_state (option_copied result) ≡ area_in name (hand_of self.now) }
    {
        for handed in &self.areas {
            if is_area(handed.name, name) {
                return Some(&handed.area);
            }
        }
        None
    }

    /// Makes the bytes of a page of a shared area the area's own, where that is handed in and has the page. Nothing
    /// that an access sees changes.
    pub(crate) fn own(&mut self, alloc: Global, page: &SharedPage) -> Result<(), Memory>
        ensures same { hand_of self.new ≡ hand_of self.old }
        ensures ok { OnOk result (owns_shared self.new page.now.area page.now.number ≡ true) }
        ensures still { (name : Area) → (number : ℕ) →
            owns_shared self.old name number ≡ true → owns_shared self.new name number ≡ true }
        ensures lacking { OnErr result (owns_shared self.old page.now.area page.now.number ≡ false) }
    {
        match place_of(&self.areas, page.area) {
            Some(place) => self.areas[place].area.own(alloc, page.number as usize),
            None => Ok(()),
        }
    }

    /// Puts a byte at an offset of a page of a shared area, whose bytes are the area's own, for a task. It takes no
    /// memory.
    pub(crate) fn put(&mut self, task: u32, page: &SharedPage, offset: usize, value: u8)
        requires offset { offset < 4096 }
        requires own { owns_shared self.old page.now.area page.now.number ≡ true }
        ensures put { hand_of self.new ≡
            with_area page.now.area (put_in_area task page.now.number offset value) (hand_of self.old) }
        ensures owned { (name : Area) → (number : ℕ) →
            owns_shared self.new name number ≡ owns_shared self.old name number }
    {
        if let Some(place) = place_of(&self.areas, page.area) {
            self.areas[place].area.put(task, page.number, offset, value);
        }
    }

    /// Notes in a shared area, where that is handed in, that a task has reserved the granule of a byte of a page. An
    /// `Err` changes nothing.
    pub(crate) fn reserve(
        &mut self,
        task: u32,
        page: &SharedPage,
        offset: u64,
    ) -> Result<(), Memory>
        requires { offset < 4096 }
        ensures ok { OnOk result (hand_of self.new ≡
            with_area page.now.area (reserve_in_area task page.now.number offset) (hand_of self.old)) }
        ensures err { OnErr result (hand_of self.new ≡ hand_of self.old) }
    {
        match place_of(&self.areas, page.area) {
            Some(place) => self.areas[place].area.reserve(task, page.number, offset),
            None => Ok(()),
        }
    }

    /// Whether a shared area that is handed in has a task's reservation of the granule of a byte of a page.
    pub(crate) fn holds(&self, task: u32, page: &SharedPage, offset: u64) -> bool
        requires { offset < 4096 }
        ensures { result ≡
            is_held_in_area task page.now.number offset (area_in page.now.area (hand_of self.now)) }
    {
        match self.get(page.area) {
            Some(area) => area.holds(task, page.number, offset),
            None => false,
        }
    }

    /// Ends what a task has reserved in a shared area, where that is handed in.
    pub(crate) fn leave(&mut self, task: u32, page: &SharedPage)
        ensures left { hand_of self.new ≡ with_area page.now.area (leave_in_area task) (hand_of self.old) }
        ensures owned { (name : Area) → (number : ℕ) →
            owns_shared self.new name number ≡ owns_shared self.old name number }
    {
        if let Some(place) = place_of(&self.areas, page.area) {
            self.areas[place].area.leave(task);
        }
    }

    /// A byte of a page, by where the page's bytes are.
    pub(crate) fn byte_of(&self, content: &Content, offset: usize) -> Seen
        ensures { seen_byte result ≡ held_byte (hand_of self.now) offset (held_in content.now) }
    {
        match content {
            Content::Private(frame) => seen(frame.byte(offset)),
            Content::Shared(page) => self.byte_in(page, offset),
        }
    }

    /// A byte of a page of a shared area.
    fn byte_in(&self, page: &SharedPage, offset: usize) -> Seen
        ensures { seen_byte result ≡
            area_byte page.now.area page.now.number offset (area_in page.now.area (hand_of self.now)) }
    {
        match self.get(page.area) {
            Some(area) => seen(area.frames.byte(page.number as usize, offset)),
            None => Seen::InArea(page.area),
        }
    }
}

/// The place of the first area of a name.
pub(crate) fn place_of(areas: &[HandedArea], name: Area) -> Option<usize>
    ensures { result ≡ place_of name areas.now }
{
    let mut place = 0;
    for handed in areas {
        if is_area(handed.name, name) {
            return Some(place);
        }
        place += 1;
    }
    None
}

fn is_area(a: Area, b: Area) -> bool
    ensures { result ≡ is_area a b }
{
    a.place == b.place && a.index == b.index
}

fn seen(byte: Option<u8>) -> Seen
    ensures { seen_byte result ≡ as_byte byte }
{
    match byte {
        Some(value) => Seen::Value(value),
        None => Seen::Barred,
    }
}
