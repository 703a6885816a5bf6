//! Stores.

ghost use Rattle.std.specs.Prelude.{◌≡◌, ◌≢◌, ℕ, true, false, OnOk, OnErr, Ok, Err};
ghost use Rattle.std.specs.Bool.{OnTrue};
ghost use Rattle.std.specs.FinMap as map_of;
ghost use Rattle.rv_table.specs.Bytes.{AllowsAs, loaded};
ghost use Rattle.rv_table.specs.Words.{IsWidth};
ghost use Rattle.rv_table.specs.declared.error.MemErr.TheVariants as MemErr;
ghost use Rattle.mm_areas.specs.Mappings.{mapping};
ghost use Rattle.mm_space.specs.Accesses.{byte_at, writable};
ghost use Rattle.mm_space.specs.Places.{AreAsReady, takes_no_memory, is_ready_at, shared_at};
ghost use Rattle.mm_space.specs.Puts.{AllowsNear, after_stored, put_byte, put_bytes};
ghost use Rattle.mm_space.specs.Spaces.{reach, space_of};
ghost use Rattle.mm_space.specs.declared.handed.Handed.{Handed};

use crate::{Handed, Space};
use mm_areas::{Content, Rights, SharedPage};
use rv_table::MemErr;
use sn_base::Memory;
use std::alloc::Global;

impl Space {
    /// Whether each of so many bytes at an address may be written. Where it is so, their pages have their bytes for
    /// themselves afterwards, so that a store there takes no memory. Nothing that an access sees changes.
    ///
    /// - `Fault`: the first of the bytes that may not be written.
    /// - `Shared`: else the area of the first of them that lies in one which isn't handed in.
    /// - `Memory`: else, where a page that shares its bytes couldn't be copied.
    pub fn writable(
        &mut self,
        alloc: Global,
        handed: &mut Handed,
        at: u64,
        width: u8,
    ) -> Result<(), MemErr>
        ensures room { AllowsAs (loaded (byte_at writable (reach self.old handed.old)) at width) result }
        ensures ready { OnOk result (takes_no_memory self.new handed.new at width ≡ true) }
        ensures lean { takes_no_memory self.old handed.old at width ≡ true → result ≢ Err MemErr.Memory }
        ensures same { reach self.new handed.new ≡ reach self.old handed.old }
    {
        if self.has_room(at, width) {
            return Ok(());
        }
        self.far_writable(alloc, handed, at, width)
    }

    /// Whether so many bytes at an address lie in one page that may be written and has its bytes for itself.
    fn has_room(&self, at: u64, width: u8) -> bool
        ensures room { OnTrue result (AllowsNear (space_of self.now) at width) }
        ensures ready { OnTrue result ((handed : Handed) → takes_no_memory self.now handed at width ≡ true) }
    {
        let hint = self.guess(at / 4096);
        let offset = (at % 4096) as usize;
        self.areas
            .has_room_near(hint, at / 4096, offset, width, Rights::WRITE)
    }

    /// `writable` byte by byte.
    fn far_writable(
        &mut self,
        alloc: Global,
        handed: &mut Handed,
        at: u64,
        width: u8,
    ) -> Result<(), MemErr>
        ensures room { AllowsAs (loaded (byte_at writable (reach self.old handed.old)) at width) result }
        ensures ready { OnOk result (takes_no_memory self.new handed.new at width ≡ true) }
        ensures lean { takes_no_memory self.old handed.old at width ≡ true → result ≢ Err MemErr.Memory }
        ensures same { reach self.new handed.new ≡ reach self.old handed.old }
    {
        self.allowed(handed, Rights::WRITE, at, usize::from(width))?;
        match self.own_all(alloc, handed, at, width) {
            Ok(()) => Ok(()),
            Err(_) => Err(MemErr::Memory),
        }
    }

    /// Stores so many of a number's bytes, the lowest first, at an address, each of which may be written, for a task.
    /// It ends other tasks' reservations of the granules that it meets. It needs no alignment. A refusal is one of
    /// `writable`, and changes nothing; where the pages have their bytes for themselves, no memory is taken.
    pub fn store(
        &mut self,
        alloc: Global,
        handed: &mut Handed,
        task: u32,
        at: u64,
        width: u8,
        value: u64,
    ) -> Result<(), MemErr>
        requires { IsWidth width }
        ensures room { AllowsAs (loaded (byte_at writable (reach self.old handed.old)) at width) result }
        ensures lean { takes_no_memory self.old handed.old at width ≡ true → result ≢ Err MemErr.Memory }
        ensures ok { OnOk result (reach self.new handed.new ≡
            after_stored task at width value (reach self.old handed.old)) }
        ensures err { OnErr result (reach self.new handed.new ≡ reach self.old handed.old) }
    {
        let hint = self.guess(at / 4096);
        self.caches.keep_hint(at / 4096, hint);
        if self.store_by(hint, task, at, width, value) {
            return Ok(());
        }
        match self.writable(alloc, handed, at, width) {
            Ok(()) => {
                self.put_all(handed, task, at, width, value);
                self.reservations.stored(task, at, width);
                Ok(())
            }
            Err(err) => Err(err),
        }
    }

    /// A guess at the region of a page: right where one has it.
    fn guess(&self, page: u64) -> usize {
        self.areas.hint_from(self.caches.hint(page), page)
    }

    /// The page of a shared area that a page is.
    pub(crate) fn shared_page(&self, page: u64) -> Option<SharedPage>
        ensures { result ≡ shared_at (map_of.get (mapping self.now.areas).pages page) }
    {
        let guess = self.caches.hint(page);
        match &self.areas.page_from(guess, page)?.content {
            Content::Private(_) => None,
            Content::Shared(page) => Some(*page),
        }
    }

    /// Makes the bytes of the page at an address its own.
    pub(crate) fn own_at(
        &mut self,
        alloc: Global,
        handed: &mut Handed,
        address: u64,
    ) -> Result<(), Memory>
        ensures same { reach self.new handed.new ≡ reach self.old handed.old }
        ensures ready { OnOk result (is_ready_at self.new handed.new address ≡ true) }
        ensures still { (other : ℕ) →
            is_ready_at self.old handed.old other ≡ true → is_ready_at self.new handed.new other ≡ true }
        ensures lacking { OnErr result (is_ready_at self.old handed.old address ≡ false) }
    {
        match self.shared_page(address / 4096) {
            Some(page) => handed.own(alloc, &page),
            None => self.areas.own(alloc, address / 4096),
        }
    }

    /// Makes the bytes of the pages of so many bytes from an address on their own.
    #[tactic(auto, unfolding(crate::specs::Places::takes_no_memory))]
    fn own_all(
        &mut self,
        alloc: Global,
        handed: &mut Handed,
        at: u64,
        count: u8,
    ) -> Result<(), Memory>
        ensures same { reach self.new handed.new ≡ reach self.old handed.old }
        ensures ready { OnOk result (takes_no_memory self.new handed.new at count ≡ true) }
        ensures still { (other : ℕ) →
            is_ready_at self.old handed.old other ≡ true → is_ready_at self.new handed.new other ≡ true }
        ensures lacking { OnErr result (takes_no_memory self.old handed.old at count ≡ false) }
    {
        if count == 0 {
            return Ok(());
        }
        match self.own_at(alloc, handed, at) {
            Ok(()) => self.own_all(alloc, handed, at.wrapping_add(1), count - 1),
            Err(err) => Err(err),
        }
    }

    /// Puts a byte at an address, whose page has its bytes for itself.
    fn put_at(&mut self, handed: &mut Handed, task: u32, address: u64, value: u8)
        requires { is_ready_at self.old handed.old address ≡ true }
        ensures put { reach self.new handed.new ≡ put_byte task address value (reach self.old handed.old) }
        ensures ready { AreAsReady self.old self.new handed.old handed.new }
    {
        let offset = (address % 4096) as usize;
        match self.shared_page(address / 4096) {
            Some(page) => handed.put(task, &page, offset, value),
            None => {
                let _ = self
                    .areas
                    .put_number(address / 4096, offset, 1, u64::from(value));
            }
        }
    }

    /// Puts so many of a number's bytes from an address on, whose pages have their bytes for themselves.
    #[tactic(auto, unfolding(crate::specs::Places::takes_no_memory, crate::specs::Puts::put_bytes))]
    fn put_all(&mut self, handed: &mut Handed, task: u32, at: u64, count: u8, value: u64)
        requires { takes_no_memory self.old handed.old at count ≡ true }
        ensures put { reach self.new handed.new ≡ put_bytes task at count value (reach self.old handed.old) }
        ensures ready { AreAsReady self.old self.new handed.old handed.new }
    {
        if count == 0 {
            return;
        }
        self.put_all(handed, task, at.wrapping_add(1), count - 1, value / 256);
        self.put_at(handed, task, at, (value % 256) as u8);
    }
}
