//! The slots of a table: a descriptor's number is the place of its slot.

ghost use Rattle.std.specs.Prelude.{◌≡◌, ◌<◌, ◌≤◌, ◌↔◌, None, IfSome, IfNone, IfOk, length, filter, is_some};
ghost use Rattle.std.specs.List.{range_with_len};
ghost use Rattle.std.specs.FinMap as map;
ghost use Rattle.fd_table.specs.Slots.{table_of};
ghost use Rattle.fd_table.specs.declared.table.TheConstants.{OPEN_MAX};
ghost use Rattle.fd_table.specs.Tables.{IsFullFrom, IsLowestFree, closed_on_exec, is_closed_on_exec};

use crate::Descriptor;
use std::alloc::{AllocError, Global};

/// The descriptor of a number.
#[tactic(auto, using(crate::proofs::SlotLaws::get_read, crate::proofs::SlotLaws::get_past))]
pub(crate) fn descriptor_at(slots: &[Option<Descriptor>], fd: u32) -> Option<Descriptor>
    ensures value { result ≡ map.get (table_of slots.now) fd }
    ensures within { IfSome result (λ _. fd < length slots.now) }
{
    *slots.get(fd as usize)?
}

/// Sets the descriptor of a number.
#[tactic(auto, using(crate::proofs::SlotLaws::table_filled))]
pub(crate) fn fill(slots: &mut [Option<Descriptor>], fd: u32, descriptor: Descriptor)
    requires { fd < length slots.old }
    ensures table { table_of slots.new ≡ map.insert (table_of slots.old) fd descriptor }
    ensures len { length slots.new ≡ length slots.old }
{
    slots[fd as usize] = Some(descriptor);
}

/// Takes out the descriptor of a number.
#[tactic(auto, using(crate::proofs::SlotLaws::table_vacated))]
pub(crate) fn vacate(slots: &mut [Option<Descriptor>], fd: u32)
    requires { fd < length slots.old }
    ensures table { table_of slots.new ≡ map.remove (table_of slots.old) fd }
    ensures len { length slots.new ≡ length slots.old }
{
    slots[fd as usize] = None;
}

/// The lowest number at or above another that has no descriptor.
pub(crate) fn first_free(slots: &[Option<Descriptor>], from: u32) -> Option<u32>
    requires { length slots.now ≡ OPEN_MAX }
    ensures lowest { IfSome result (λ fd. IsLowestFree (table_of slots.now) from fd) }
    ensures full { IfNone result (IsFullFrom (table_of slots.now) from) }
    ensures all { from ≡ 0 → (result ≡ None) ↔ (map.len (table_of slots.now) ≡ OPEN_MAX) }
{
    for fd in from..slots.len() as u32 {
        if descriptor_at(slots, fd).is_none() {
            return Some(fd);
        }
    }
    None
}

/// How many numbers have a descriptor.
pub(crate) fn count_open(slots: &[Option<Descriptor>]) -> usize
    ensures value { result ≡ map.len (table_of slots.now) }
    ensures few { result ≤ length slots.now }
{
    slots.iter().filter(|slot| slot.is_some()).count()
}

/// The places that have a descriptor, of all places of slots.
fn taken_places(alloc: Global, slots: &[Option<Descriptor>]) -> Result<Vec<u32>, AllocError>
    requires { length slots.now ≡ OPEN_MAX }
    ensures { IfOk result (λ places. places.items ≡
        filter (λ n. is_some (map.get (table_of slots.now) n)) (range_with_len 0 (length slots.now))) }
{
    (0..slots.len() as u32)
        .filter(|fd| descriptor_at(slots, *fd).is_some())
        .collect(alloc)
}

/// The numbers that have a descriptor, ascending.
pub(crate) fn open_numbers(
    alloc: Global,
    slots: &[Option<Descriptor>],
) -> Result<Vec<u32>, AllocError>
    requires { length slots.now ≡ OPEN_MAX }
    ensures { IfOk result (λ numbers. numbers.items ≡ map.keys (table_of slots.now)) }
{
    taken_places(alloc, slots)
}

/// Whether execve(2) closes a number.
fn is_closed_on_exec(slots: &[Option<Descriptor>], fd: u32) -> bool
    ensures { result ≡ is_closed_on_exec (table_of slots.now) fd }
{
    descriptor_at(slots, fd).is_some_and(|descriptor| descriptor.cloexec)
}

/// The numbers that execve(2) closes, ascending.
pub(crate) fn closed_on_exec(
    alloc: Global,
    slots: &[Option<Descriptor>],
) -> Result<Vec<u32>, AllocError>
    requires { length slots.now ≡ OPEN_MAX }
    ensures { IfOk result (λ numbers. numbers.items ≡ closed_on_exec (table_of slots.now)) }
{
    let mut numbers = open_numbers(alloc, slots)?;
    numbers.retain(|fd| is_closed_on_exec(slots, *fd));
    Ok(numbers)
}
