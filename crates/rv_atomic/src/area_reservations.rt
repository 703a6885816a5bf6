//! The reservations that tasks have in a shared area.

ghost use Rattle.std.specs.Prelude.{◌≡◌, ◌+◌, ◌^◌, ◌<◌, ◌≤◌, ◌↔◌, [], length, IsTrue, IsFalse, IfOk, OnOk, OnErr};
ghost use Rattle.std.specs.Prelude.{vec_len};
ghost use Rattle.std.specs.Prelude.{vec_capacity};
ghost use Rattle.rv_table.specs.Words.{IsWidth};
ghost use Rattle.rv_atomic.specs.Reservations.{lies_over};
ghost use Rattle.rv_atomic.specs.AreaReservations.{AtMostOneHere, after_run_here, after_store_here, is_held_here};
ghost use Rattle.rv_atomic.specs.AreaReservations.{is_reserving_here, reserved_here, without_here};

use sn_base::{List, Memory};
use std::alloc::Global;
use std::marker::Model;

/// What a load-reserved from a shared area leaves there: its task, and the granule, the aligned 8 bytes that hold the
/// address, counted from the area's first byte.
#[derive(Clone, Copy, Debug, PartialEq, Eq)]
pub struct AreaReservation {
    pub task: u32,
    pub granule: u64,
}

/// The reservations in a shared area of the tasks of all address spaces that map it, at most one a task. Contracts see
/// the list of them. A task's reservation counts while it stands here and among those of its address space.
#[derive(Debug, Drop)]
pub struct AreaReservations {
    items: Vec<AreaReservation>,
}

impl Model for AreaReservations {
    ghost use Rattle.std.specs.Prelude.{List};
    ghost use Rattle.rv_atomic.specs.declared.area_reservations.AreaReservation.{AreaReservation};
    ghost use Rattle.rv_atomic.specs.AreaReservations.{AtMostOneHere};

    ghost Value = { List AreaReservation };

    ghost view = { λ a. a.items.items };

    ghost invariant = { λ a. AtMostOneHere a.items.items };
}

impl AreaReservations {
    /// No reservations, which takes no memory.
    pub fn new(alloc: Global) -> Self
        ensures { result ≡ [] }
    {
        AreaReservations {
            items: Vec::new(alloc),
        }
    }

    /// The same reservations once more. An `Err` comes only where there are some.
    pub fn copy(&self, alloc: Global) -> Result<Self, Memory>
        ensures ok { IfOk result (λ copy. copy ≡ self.now) }
        ensures err { OnErr result (0 < length self.now) }
    {
        let items = List::from_slice(alloc, &self.items)?;
        Ok(AreaReservations {
            items: items.into_vec(),
        })
    }

    /// How many reservations there are.
    pub fn len(&self) -> usize
        ensures { result ≡ length self.now }
    {
        self.items.len()
    }

    /// Whether there are no reservations.
    pub fn is_empty(&self) -> bool
        ensures { IsTrue result ↔ (self.now ≡ []) }
    {
        self.items.is_empty()
    }

    /// Puts a task's reservation in the place of the one that it had here. An `Err` leaves the reservations as they
    /// were, and comes only where the task had none.
    #[tactic(auto, using(crate::proofs::SinglesHere::single_after_load_here))]
    pub fn reserve(&mut self, task: u32, granule: u64) -> Result<(), Memory>
        ensures ok { OnOk result (self.new ≡ reserved_here self.old task granule) }
        ensures err { OnErr result (self.new ≡ self.old) }
        ensures absent { OnErr result (IsFalse (is_reserving_here self.old task)) }
    {
        let new = AreaReservation { task, granule };
        make_room(&mut self.items, new.task)?;
        drop_own(&mut self.items, new.task);
        self.items.push_reserved(new);
        Ok(())
    }

    /// Ends the other tasks' reservations of each granule in which a byte of a store lies, whose first is `at` bytes
    /// behind the area's first. It takes no memory.
    #[tactic(auto, using(crate::proofs::SinglesHere::single_after_store_here))]
    pub fn stored(&mut self, task: u32, at: u64, width: u8)
        requires { IsWidth width }
        ensures { self.new ≡ after_store_here self.old task at width }
    {
        if !self.items.is_empty() {
            drop_met(&mut self.items, task, at, width);
        }
    }

    /// Ends the other tasks' reservations of each granule that has one of so many bytes, whose first is `at` bytes
    /// behind the area's first, where a call has put them for the task. It takes no memory.
    #[tactic(auto, using(crate::proofs::SinglesHere::single_after_run_here))]
    pub fn stored_run(&mut self, task: u32, at: u64, count: u64)
        requires { at + count ≤ 2 ^ 64 }
        ensures { self.new ≡ after_run_here self.old task at count }
    {
        if !self.items.is_empty() {
            drop_run(&mut self.items, task, at, count);
        }
    }

    /// Ends what a task has reserved here, as where it ends. It takes no memory.
    #[tactic(auto, using(crate::proofs::SinglesHere::single_without_here))]
    pub fn leave(&mut self, task: u32)
        ensures { self.new ≡ without_here self.old task }
    {
        drop_own(&mut self.items, task);
    }

    /// Whether the task's reservation here is of just that granule. Nothing changes.
    pub fn holds(&self, task: u32, granule: u64) -> bool
        ensures held { result ≡ is_held_here self.now task granule }
        ensures single { AtMostOneHere self.now }
    {
        self.items
            .iter()
            .any(|r| r.task == task && r.granule == granule)
    }
}

/// Makes room for a task's reservation beside those of the others. Where it has one already, that takes no memory.
#[tactic(auto, using(crate::proofs::SinglesHere::fewer_without_here, crate::proofs::SinglesHere::no_more_without_here))]
fn make_room(items: &mut Vec<AreaReservation>, task: u32) -> Result<(), Memory>
    ensures same { items.new.items ≡ items.old.items }
    ensures room { OnOk result (length (without_here items.old.items task) < vec_capacity items.new) }
    ensures absent { OnErr result (IsFalse (is_reserving_here items.old.items task)) }
{
    if !is_reserving(items, task) {
        items.reserve(1)?;
    }
    Ok(())
}

/// Whether a task has a reservation.
fn is_reserving(items: &[AreaReservation], task: u32) -> bool
    ensures { result ≡ is_reserving_here items.now task }
{
    items.iter().any(|r| r.task == task)
}

/// Drops a task's reservation.
fn drop_own(items: &mut Vec<AreaReservation>, task: u32)
    ensures items { items.new.items ≡ without_here items.old.items task }
    ensures len { vec_len items.new ≡ length (without_here items.old.items task) }
    ensures capacity { vec_capacity items.new ≡ vec_capacity items.old }
{
    items.retain(|r| r.task != task);
}

/// Drops what a store ends. Its bytes lie in the granules of the first and of the last.
fn drop_met(items: &mut Vec<AreaReservation>, task: u32, at: u64, width: u8)
    requires { IsWidth width }
    ensures { items.new.items ≡ after_store_here items.old.items task at width }
{
    let first = at / 8;
    let last = at.wrapping_add(u64::from(width) - 1) / 8;
    items.retain(|r| r.task == task || (r.granule != first && r.granule != last));
}

/// Drops the other tasks' whose granule has a byte among so many from one of the area's bytes on.
fn drop_run(items: &mut Vec<AreaReservation>, task: u32, at: u64, count: u64)
    requires { at + count ≤ 2 ^ 64 }
    ensures { items.new.items ≡ after_run_here items.old.items task at count }
{
    items.retain(|r| r.task == task || !lies_over(r.granule, at, count));
}

/// Whether a byte of a granule is one of so many from one of the area's bytes on.
fn lies_over(number: u64, at: u64, count: u64) -> bool
    requires { at + count ≤ 2 ^ 64 }
    ensures { result ≡ lies_over number at count }
{
    count > 0 && at / 8 <= number && number <= (at + (count - 1)) / 8
}
