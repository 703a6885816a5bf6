//! Runs of bytes put into memory.

ghost use Rattle.std.specs.Prelude.{◌≡◌, ◌≢◌, ℕ, ◌+◌, ◌%◌, ◌^◌, ◌<◌, ◌≤◌, ◌++◌, true, false, length, OnOk, OnErr, Ok};
ghost use Rattle.std.specs.Prelude.{Err};
ghost use Rattle.rv_table.specs.Bytes.{AllowsAs, loaded};
ghost use Rattle.rv_table.specs.declared.error.MemErr.TheVariants as MemErr;
ghost use Rattle.mm_space.specs.Accesses.{byte_at, writable};
ghost use Rattle.mm_space.specs.Places.{AreAsReady, takes_no_memory, is_ready_at};
ghost use Rattle.mm_space.specs.Puts.{after_run_stored, put_run};
ghost use Rattle.mm_space.specs.Spaces.{reach};

use crate::runs::in_page;
use crate::{Handed, Space};
use mm_areas::Rights;
use rv_table::MemErr;
use sn_base::Memory;
use std::alloc::Global;

impl Space {
    /// Puts bytes from an address on, one behind another, for a task, where each of them may be written. It ends other
    /// tasks' reservations of the granules that it meets. Addresses go round at 2^64. A refusal changes nothing, and
    /// where the pages have their bytes for themselves, no memory is taken.
    ///
    /// - `Fault`: the first of the bytes that may not be written.
    /// - `Shared`: else the area of the first of them that lies in one which isn't handed in.
    /// - `Memory`: else, where a page that shares its bytes couldn't be copied.
    ///
    /// read(2): what a call puts into a guest's buffer.
    pub fn write(
        &mut self,
        alloc: Global,
        handed: &mut Handed,
        task: u32,
        at: u64,
        bytes: &[u8],
    ) -> Result<(), MemErr>
        ensures room { AllowsAs (loaded (byte_at writable (reach self.old handed.old)) at (length bytes.now)) result }
        ensures lean { takes_no_memory self.old handed.old at (length bytes.now) ≡ true → result ≢ Err MemErr.Memory }
        ensures ok { OnOk result (reach self.new handed.new ≡
            after_run_stored task at bytes.now (reach self.old handed.old)) }
        ensures err { OnErr result (reach self.new handed.new ≡ reach self.old handed.old) }
    {
        self.allowed(handed, Rights::WRITE, at, bytes.len())?;
        match self.own_run(alloc, handed, at, bytes.len()) {
            Ok(()) => {
                self.put_run(handed, task, at, bytes);
                self.reservations.stored_run(task, at, bytes.len() as u64);
                Ok(())
            }
            Err(_) => Err(MemErr::Memory),
        }
    }

    /// Puts two runs of bytes from an address on for a task, the second behind the first, into pages that have their
    /// bytes for themselves. It ends other tasks' reservations of the granules that they meet, and takes no memory.
    /// Whether each byte may be written isn't looked at: `allowed` answers that.
    ///
    /// readv(2): what a call puts into one of a guest's buffers.
    pub fn put_two(&mut self, handed: &mut Handed, task: u32, at: u64, first: &[u8], second: &[u8])
        requires fits { length first.now + length second.now < 2 ^ 63 }
        requires ready { takes_no_memory self.old handed.old at (length first.now + length second.now) ≡ true }
        ensures put { reach self.new handed.new ≡
            after_run_stored task at (first.now ++ second.now) (reach self.old handed.old) }
        ensures ready { AreAsReady self.old self.new handed.old handed.new }
    {
        self.put_both(handed, task, at, first, second);
        let count = first.len() + second.len();
        self.reservations.stored_run(task, at, count as u64);
    }

    /// Puts two runs of bytes from an address on, whose pages have their bytes for themselves.
    fn put_both(&mut self, handed: &mut Handed, task: u32, at: u64, first: &[u8], second: &[u8])
        requires { takes_no_memory self.old handed.old at (length first.now + length second.now) ≡ true }
        ensures put { reach self.new handed.new ≡
            put_run task at (first.now ++ second.now) (reach self.old handed.old) }
        ensures ready { AreAsReady self.old self.new handed.old handed.new }
    {
        self.put_run(handed, task, at, first);
        let behind = at.wrapping_add(first.len() as u64);
        self.put_run(handed, task, behind, second);
    }

    /// Makes the bytes of the pages of so many bytes from an address on their own, so that bytes put there take no
    /// memory. Nothing that an access sees changes, and an `Err` leaves some pages so that were not.
    ///
    /// fork(2), NOTES: copy-on-write pages.
    pub fn own_run(
        &mut self,
        alloc: Global,
        handed: &mut Handed,
        at: u64,
        count: usize,
    ) -> Result<(), Memory>
        ensures same { reach self.new handed.new ≡ reach self.old handed.old }
        ensures ready { OnOk result (takes_no_memory self.new handed.new at count ≡ true) }
        ensures still { (other : ℕ) →
            is_ready_at self.old handed.old other ≡ true → is_ready_at self.new handed.new other ≡ true }
        ensures lacking { OnErr result (takes_no_memory self.old handed.old at count ≡ false) }
    {
        let mut done = 0;
        while done < count {
            let address = at.wrapping_add(done as u64);
            self.own_at(alloc, handed, address)?;
            done += in_page(address, count - done);
        }
        Ok(())
    }

    /// Puts bytes from an address on, whose pages have their bytes for themselves.
    fn put_run(&mut self, handed: &mut Handed, task: u32, at: u64, bytes: &[u8])
        requires { takes_no_memory self.old handed.old at (length bytes.now) ≡ true }
        ensures put { reach self.new handed.new ≡ put_run task at bytes.now (reach self.old handed.old) }
        ensures ready { AreAsReady self.old self.new handed.old handed.new }
    {
        let mut done = 0;
        while done < bytes.len() {
            let address = at.wrapping_add(done as u64);
            let piece = in_page(address, bytes.len() - done);
            self.put_piece(handed, task, address, &bytes[done..done + piece]);
            done += piece;
        }
    }

    /// Puts bytes from an address on into its page, which has its bytes for itself.
    fn put_piece(&mut self, handed: &mut Handed, task: u32, at: u64, piece: &[u8])
        requires fits { at % 4096 + length piece.now ≤ 4096 }
        requires ready { is_ready_at self.old handed.old at ≡ true }
        ensures put { reach self.new handed.new ≡ put_run task at piece.now (reach self.old handed.old) }
        ensures ready { AreAsReady self.old self.new handed.old handed.new }
    {
        let offset = (at % 4096) as usize;
        if self.areas.put_bytes(at / 4096, offset, piece) {
            return;
        }
        if let Some(page) = self.shared_page(at / 4096) {
            handed.put_run(task, &page, offset, piece);
        }
    }
}
