//! Runs of bytes put into shared areas.

ghost use Rattle.std.specs.Prelude.{◌≡◌, ℕ, ◌+◌, ◌<◌, ◌≤◌, true, length};
ghost use Rattle.rv_table.specs.declared.error.Area.{Area};
ghost use Rattle.mm_space.specs.Handed.{area_state, hand_of};
ghost use Rattle.mm_space.specs.Places.{owns_shared, page_owned};
ghost use Rattle.mm_space.specs.Puts.{with_area};
ghost use Rattle.mm_space.specs.Runs.{put_run_in_area};

use crate::handed::place_of;
use crate::{Handed, SharedArea};
use mm_areas::SharedPage;

impl SharedArea {
    /// Puts a run of bytes from an offset of a page on, where the page's bytes are the area's own.
    fn put_run(&mut self, task: u32, number: u64, offset: usize, run: &[u8])
        requires offset { offset < 4096 }
        requires fits { offset + length run.now ≤ 4096 }
        requires own { page_owned self.old.frames number ≡ true }
        ensures put { area_state self.new ≡ put_run_in_area task number offset run.now (area_state self.old) }
        ensures owned { (other : ℕ) → page_owned self.new.frames other ≡ page_owned self.old.frames other }
    {
        let _ = self.frames.put_bytes(number as usize, offset, run);
        let at = number.wrapping_mul(4096) + offset as u64;
        self.reservations.stored_run(task, at, run.len() as u64);
    }
}

impl Handed {
    /// Puts a run of bytes from an offset of a page of a shared area on, whose bytes are the area's own, for a task. It
    /// takes no memory.
    pub(crate) fn put_run(&mut self, task: u32, page: &SharedPage, offset: usize, run: &[u8])
        requires offset { offset < 4096 }
        requires fits { offset + length run.now ≤ 4096 }
        requires own { owns_shared self.old page.now.area page.now.number ≡ true }
        ensures put { hand_of self.new ≡
            with_area page.now.area (put_run_in_area task page.now.number offset run.now) (hand_of self.old) }
        ensures owned { (name : Area) → (number : ℕ) →
            owns_shared self.new name number ≡ owns_shared self.old name number }
    {
        if let Some(place) = place_of(&self.areas, page.area) {
            self.areas[place]
                .area
                .put_run(task, page.number, offset, run);
        }
    }
}
