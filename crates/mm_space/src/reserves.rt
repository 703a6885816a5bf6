//! Reservations of load-reserved and store-conditional.

ghost use Rattle.std.specs.Prelude.{◌≡◌, ◌/◌, ◌%◌, Some, OnOk, OnErr};
ghost use Rattle.std.specs.FinMap as map_of;
ghost use Rattle.mm_areas.specs.Mappings.{mapping};
ghost use Rattle.mm_space.specs.Places.{AreAsReady, shared_at};
ghost use Rattle.mm_space.specs.Reserves.{after_reserved, after_taken, is_held_at};
ghost use Rattle.mm_space.specs.Spaces.{reach};

use crate::{Handed, Space};
use mm_areas::SharedPage;
use sn_base::Memory;

impl Space {
    /// Puts a task's reservation of an address and so many bytes in the place of the one that it had. In a page of a
    /// shared area it names the area, and the area notes it too, by its granule there, where it is handed in. An `Err`
    /// changes nothing.
    pub fn reserve(
        &mut self,
        handed: &mut Handed,
        task: u32,
        at: u64,
        width: u8,
    ) -> Result<(), Memory>
        ensures ok { OnOk result (reach self.new handed.new ≡
            after_reserved task at width (reach self.old handed.old)) }
        ensures err { OnErr result (reach self.new handed.new ≡ reach self.old handed.old) }
    {
        match self.shared_page(at / 4096) {
            Some(page) => self.reserve_shared(handed, task, at, width, &page),
            None => self.reservations.reserve(task, at, width, None),
        }
    }

    /// Reserves in a page of a shared area: where the task has a reservation already, room for another in its place is
    /// there.
    fn reserve_shared(
        &mut self,
        handed: &mut Handed,
        task: u32,
        at: u64,
        width: u8,
        page: &SharedPage,
    ) -> Result<(), Memory>
        requires { shared_at (map_of.get (mapping self.old.areas).pages (at / 4096)) ≡ Some page.now }
        ensures ok { OnOk result (reach self.new handed.new ≡
            after_reserved task at width (reach self.old handed.old)) }
        ensures err { OnErr result (reach self.new handed.new ≡ reach self.old handed.old) }
    {
        let offset = at % 4096;
        let area = Some(page.area);
        if self.reservations.is_reserving(task) {
            handed.reserve(task, page, offset)?;
            return self.reservations.reserve(task, at, width, area);
        }
        self.reservations.reserve(task, at, width, area)?;
        match handed.reserve(task, page, offset) {
            Ok(()) => Ok(()),
            Err(err) => {
                let _ = self.reservations.take(task, at, width, area);
                Err(err)
            }
        }
    }

    /// Ends a task's reservation, and answers whether it was of just that address and so many bytes, and still counted:
    /// in a page of a shared area, whether it was made in that area, which has it too, where that is handed in; in a
    /// private page, whether it was made in a private page. It takes no memory.
    ///
    /// Where brk(2) puts a private page in the place of an area's, one that was made in the area doesn't count there.
    pub fn take(&mut self, handed: &mut Handed, task: u32, at: u64, width: u8) -> bool
        ensures held { result ≡ is_held_at task at width (reach self.old handed.old) }
        ensures ended { reach self.new handed.new ≡ after_taken task at (reach self.old handed.old) }
        ensures ready { AreAsReady self.old self.new handed.old handed.new }
    {
        match self.shared_page(at / 4096) {
            Some(page) => {
                let held = self.reservations.take(task, at, width, Some(page.area));
                let counts = handed.holds(task, &page, at % 4096);
                handed.leave(task, &page);
                held && counts
            }
            None => self.reservations.take(task, at, width, None),
        }
    }
}
