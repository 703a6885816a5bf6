//! The reservations of one address space.

ghost use Rattle.std.specs.Prelude.{◌≡◌, ◌<◌, ◌^◌, ◌↔◌, [], length, IsTrue, IsFalse, IfOk, OnOk, OnErr, vec_len};
ghost use Rattle.std.specs.Prelude.{vec_capacity};
ghost use Rattle.rv_table.specs.Words.{IsWidth};
ghost use Rattle.rv_atomic.specs.Reservations.{AtMostOneEach, after_run, after_store, is_held, is_reserving, lies_over};
ghost use Rattle.rv_atomic.specs.Reservations.{is_same_area, outside_range, reserved, without};

use rv_table::Area;
use sn_base::{List, Memory};
use std::alloc::Global;
use std::marker::Model;

/// What a load-reserved leaves: its task, the address that it loaded from, how many bytes, 4 or 8, and the shared area
/// that the page of the address lay in, if it did in one.
#[derive(Clone, Copy, Debug, PartialEq, Eq)]
pub struct Reservation {
    pub task: u32,
    pub address: u64,
    pub width: u8,
    pub area: Option<Area>,
}

/// The reservations of the tasks of one address space, at most one a task. Contracts see the list of them.
#[derive(Debug, Drop)]
pub struct Reservations {
    items: Vec<Reservation>,
}

impl Model for Reservations {
    ghost use Rattle.std.specs.Prelude.{List};
    ghost use Rattle.rv_atomic.specs.declared.reservations.Reservation.{Reservation};
    ghost use Rattle.rv_atomic.specs.Reservations.{AtMostOneEach};

    ghost Value = { List Reservation };

    ghost view = { λ a. a.items.items };

    ghost invariant = { λ a. AtMostOneEach a.items.items };
}

impl Reservations {
    /// No reservations, which takes no memory.
    pub fn new(alloc: Global) -> Self
        ensures { result ≡ [] }
    {
        Reservations {
            items: Vec::new(alloc),
        }
    }

    /// The same reservations once more. An `Err` comes only where there are some.
    pub fn copy(&self, alloc: Global) -> Result<Self, Memory>
        ensures ok { IfOk result (λ copy. copy ≡ self.now) }
        ensures err { OnErr result (0 < length self.now) }
    {
        let items = List::from_slice(alloc, &self.items)?;
        Ok(Reservations {
            items: items.into_vec(),
        })
    }

    /// How many reservations there are.
    pub fn len(&self) -> usize
        ensures { result ≡ length self.now }
    {
        self.items.len()
    }

    /// Whether there are no reservations.
    pub fn is_empty(&self) -> bool
        ensures { IsTrue result ↔ (self.now ≡ []) }
    {
        self.items.is_empty()
    }

    /// Puts a task's reservation in the place of the one that it had. An `Err` leaves the reservations as they were,
    /// and comes only where the task had none.
    #[tactic(auto, using(crate::proofs::Singles::single_after_load))]
    pub fn reserve(
        &mut self,
        task: u32,
        address: u64,
        width: u8,
        area: Option<Area>,
    ) -> Result<(), Memory>
        ensures ok { OnOk result (self.new ≡ reserved self.old task address width area) }
        ensures err { OnErr result (self.new ≡ self.old) }
        ensures absent { OnErr result (IsFalse (is_reserving self.old task)) }
    {
        let new = Reservation {
            task,
            address,
            width,
            area,
        };
        make_room(&mut self.items, new.task)?;
        drop_own(&mut self.items, new.task);
        self.items.push_reserved(new);
        Ok(())
    }

    /// Ends the other tasks' reservations of each granule in which a byte of a store lies. It takes no memory.
    #[tactic(auto, using(crate::proofs::Singles::single_after_store))]
    #[inline(always)]
    pub fn stored(&mut self, task: u32, at: u64, width: u8)
        requires { IsWidth width }
        ensures { self.new ≡ after_store self.old task at width }
    {
        if !self.items.is_empty() {
            drop_met(&mut self.items, task, at, width);
        }
    }

    /// Ends the other tasks' reservations of each granule that has one of so many bytes from an address on, where a
    /// call has put them for the task. It takes no memory.
    #[tactic(auto, using(crate::proofs::Singles::single_after_run))]
    pub fn stored_run(&mut self, task: u32, at: u64, count: u64)
        ensures { self.new ≡ after_run self.old task at count }
    {
        if !self.items.is_empty() {
            drop_run(&mut self.items, task, at, count);
        }
    }

    /// Ends the reservations of all tasks of each granule that has one of so many bytes from an address on, where these
    /// were mapped anew, unmapped or got other rights. It takes no memory.
    #[tactic(auto, using(crate::proofs::Singles::single_outside))]
    pub fn drop_range(&mut self, at: u64, count: u64)
        ensures { self.new ≡ outside_range self.old at count }
    {
        drop_over(&mut self.items, at, count);
    }

    /// Ends the task's reservation, and answers whether it was of just that address and width, and made in a page of
    /// just that area or of none. It takes no memory.
    #[tactic(auto, using(crate::proofs::Singles::single_without))]
    pub fn take(&mut self, task: u32, address: u64, width: u8, area: Option<Area>) -> bool
        ensures held { result ≡ is_held self.old task address width area }
        ensures ended { self.new ≡ without self.old task }
    {
        let held = has(&self.items, task, address, width, area);
        drop_own(&mut self.items, task);
        held
    }

    /// Whether a task has a reservation. Where it has, another takes no memory.
    pub fn is_reserving(&self, task: u32) -> bool
        ensures { result ≡ is_reserving self.now task }
    {
        is_reserving(&self.items, task)
    }

    /// Whether the task's reservation is of just that address and width, and made in a page of just that area or of
    /// none. Nothing changes.
    pub fn holds(&self, task: u32, address: u64, width: u8, area: Option<Area>) -> bool
        ensures held { result ≡ is_held self.now task address width area }
        ensures single { AtMostOneEach self.now }
    {
        has(&self.items, task, address, width, area)
    }
}

/// Whether a task has the reservation of just that address and width, made in a page of just that area or of none.
fn has(items: &[Reservation], task: u32, address: u64, width: u8, area: Option<Area>) -> bool
    ensures { result ≡ is_held items.now task address width area }
{
    items.iter().any(|r| r.task == task
        && r.address == address
        && r.width == width
        && is_same_area(r.area, area))
}

/// Whether two pages lie in one area, or both in none.
fn is_same_area(a: Option<Area>, b: Option<Area>) -> bool
    ensures { result ≡ is_same_area a b }
{
    match (a, b) {
        (Some(a), Some(b)) => a.place == b.place && a.index == b.index,
        (None, None) => true,
        _ => false,
    }
}

/// Whether a task has a reservation.
fn is_reserving(items: &[Reservation], task: u32) -> bool
    ensures { result ≡ is_reserving items.now task }
{
    items.iter().any(|r| r.task == task)
}

/// Makes room for a task's reservation beside those of the others. Where it has one already, that takes no memory.
#[tactic(auto, using(crate::proofs::Singles::fewer_without, crate::proofs::Singles::no_more_without))]
fn make_room(items: &mut Vec<Reservation>, task: u32) -> Result<(), Memory>
    ensures same { items.new.items ≡ items.old.items }
    ensures room { OnOk result (length (without items.old.items task) < vec_capacity items.new) }
    ensures absent { OnErr result (IsFalse (is_reserving items.old.items task)) }
{
    if !is_reserving(items, task) {
        items.reserve(1)?;
    }
    Ok(())
}

/// Drops a task's reservation.
fn drop_own(items: &mut Vec<Reservation>, task: u32)
    ensures items { items.new.items ≡ without items.old.items task }
    ensures len { vec_len items.new ≡ length (without items.old.items task) }
    ensures capacity { vec_capacity items.new ≡ vec_capacity items.old }
{
    items.retain(|r| r.task != task);
}

/// Drops what a store ends. Its bytes lie in the granules of the first and of the last.
fn drop_met(items: &mut Vec<Reservation>, task: u32, at: u64, width: u8)
    requires { IsWidth width }
    ensures { items.new.items ≡ after_store items.old.items task at width }
{
    let first = at / 8;
    let last = at.wrapping_add(u64::from(width) - 1) / 8;
    items.retain(|r| r.task == task || (r.address / 8 != first && r.address / 8 != last));
}

/// Drops the other tasks' whose granule has a byte among so many from an address on.
fn drop_run(items: &mut Vec<Reservation>, task: u32, at: u64, count: u64)
    ensures { items.new.items ≡ after_run items.old.items task at count }
{
    items.retain(|r| r.task == task || !lies_over(r.address / 8, at, count));
}

/// Drops each whose granule has a byte among so many from an address on.
fn drop_over(items: &mut Vec<Reservation>, at: u64, count: u64)
    ensures { items.new.items ≡ outside_range items.old.items at count }
{
    items.retain(|r| !lies_over(r.address / 8, at, count));
}

/// Whether a byte of a granule is one of so many from an address on.
fn lies_over(number: u64, at: u64, count: u64) -> bool
    requires { number < 2 ^ 61 }
    ensures { result ≡ lies_over number at count }
{
    count > 0 && at / 8 <= number && number * 8 < at.saturating_add(count)
}
