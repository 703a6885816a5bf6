//! Guests' buffers, which may lie in shared areas: these are handed in as they are asked for.

ghost use Rattle.std.specs.Prelude.{◌≡◌, false, [], length, is_some, IfOk, IfSome, OnErr};
ghost use Rattle.std.specs.Bool.{OnTrue};
ghost use Rattle.mm_space.specs.Handed.{hand_of};
ghost use Rattle.kernel_model.specs.entries.Areas.{access_row, bytes_read, bytes_written};
ghost use Rattle.kernel_model.specs.entries.Parts.{Parts, outcome_in, uses};
ghost use Rattle.guest_access.specs.Lending.{AreThere, AreThose, with_hand};
ghost use Rattle.guest_access.specs.Trying.{Accesses, IsAllowed, Wrote};

use crate::lending::{MOST_AREAS, hand_in, take_back};
use kernel_model::{GuestArea, GuestSpace, Named};
use mm_areas::Rights;
use mm_space::Handed;
use rv_table::MemErr;
use sn_base::{List, Memory};
use std::alloc::Global;

/// So many bytes from an address on, or `None` where one of them may not be read. Addresses go round at 2^64. The areas
/// stay as they are.
///
/// write(2), EFAULT.
pub fn read(
    alloc: Global,
    space: &GuestSpace,
    areas: &mut Named<GuestArea>,
    at: u64,
    count: u64,
) -> Result<Option<List<u8>>, Memory>
    ensures bytes { IfOk result (λ bytes. (s : Parts) → AreThose s areas.old →
        outcome_in s (bytes_read space.now at count) ≡ bytes) }
    ensures len { IfOk result (λ bytes. IfSome bytes (λ some. length some ≡ count)) }
    ensures kept { areas.new ≡ areas.old }
{
    let mut handed = Handed::none(alloc);
    let bytes = read_with(alloc, space, areas, &mut handed, at, count);
    take_back(areas, &mut handed);
    bytes
}

/// The same, with the areas left in hand that were asked for.
fn read_with(
    alloc: Global,
    space: &GuestSpace,
    areas: &mut Named<GuestArea>,
    handed: &mut Handed,
    at: u64,
    count: u64,
) -> Result<Option<List<u8>>, Memory>
    requires { hand_of handed.old ≡ [] }
    ensures bytes { IfOk result (λ bytes. (s : Parts) → AreThose s areas.old →
        outcome_in s (bytes_read space.now at count) ≡ bytes) }
    ensures len { IfOk result (λ bytes. IfSome bytes (λ some. length some ≡ count)) }
    ensures there { AreThere (hand_of handed.new) areas.new }
    ensures back { with_hand (hand_of handed.new) areas.new ≡ areas.old }
{
    if !access(
        alloc,
        space,
        areas,
        handed,
        Rights::READ,
        at,
        count,
        MOST_AREAS,
    )? {
        return Ok(None);
    }
    let mut buffer = vec![in alloc; 0u8; count as usize]?;
    match space.space.read(handed, at, buffer.as_mut_slice()) {
        Ok(()) => Ok(Some(List::from_vec(buffer))),
        Err(_) => unreachable!(),
    }
}

/// Puts bytes from an address on for a task, where each of them may be written, and answers whether it has. Otherwise,
/// and on `Err`, nothing changes.
///
/// read(2), EFAULT.
pub fn write(
    alloc: Global,
    task: u32,
    space: &mut GuestSpace,
    areas: &mut Named<GuestArea>,
    at: u64,
    bytes: &[u8],
) -> Result<bool, Memory>
    ensures wrote { IfOk result (λ b. (s : Parts) → AreThose s areas.old →
        Wrote (outcome_in s (bytes_written task space.old at bytes.now)) b space.old space.new areas.old areas.new) }
    ensures err { OnErr result ((space.new ≡ space.old) × (areas.new ≡ areas.old)) }
{
    let mut handed = Handed::none(alloc);
    let wrote = write_with(alloc, task, space, areas, &mut handed, at, bytes);
    take_back(areas, &mut handed);
    wrote
}

/// The same, with the areas left in hand that were asked for.
fn write_with(
    alloc: Global,
    task: u32,
    space: &mut GuestSpace,
    areas: &mut Named<GuestArea>,
    handed: &mut Handed,
    at: u64,
    bytes: &[u8],
) -> Result<bool, Memory>
    requires { hand_of handed.old ≡ [] }
    ensures wrote { IfOk result (λ b. (s : Parts) → AreThose s areas.old →
        Wrote (outcome_in s (bytes_written task space.old at bytes.now)) b space.old space.new areas.old
        (with_hand (hand_of handed.new) areas.new)) }
    ensures there { AreThere (hand_of handed.new) areas.new }
    ensures err { OnErr result
        ((space.new ≡ space.old) × (with_hand (hand_of handed.new) areas.new ≡ areas.old)) }
{
    let count = bytes.len() as u64;
    if !access(
        alloc,
        space,
        areas,
        handed,
        Rights::WRITE,
        at,
        count,
        MOST_AREAS,
    )? {
        return Ok(false);
    }
    match space.space.write(alloc, handed, task, at, bytes) {
        Ok(()) => Ok(true),
        Err(MemErr::Memory) => Err(Memory),
        Err(_) => unreachable!(),
    }
}

/// Whether each of so many bytes from an address on may be accessed by a right. The areas stay as they are.
pub fn is_accessible(
    alloc: Global,
    space: &GuestSpace,
    areas: &mut Named<GuestArea>,
    right: Rights,
    at: u64,
    count: u64,
) -> Result<bool, Memory>
    ensures row { IfOk result (λ b. (s : Parts) → AreThose s areas.old →
        is_some (outcome_in s (access_row right space.now at count)) ≡ b) }
    ensures kept { areas.new ≡ areas.old }
{
    let mut handed = Handed::none(alloc);
    let allowed = access(
        alloc,
        space,
        areas,
        &mut handed,
        right,
        at,
        count,
        MOST_AREAS,
    );
    take_back(areas, &mut handed);
    allowed
}

/// Whether an access to so many bytes from an address on by a right asks for a shared area. It takes no memory.
pub fn asks_for_area(alloc: Global, space: &GuestSpace, right: Rights, at: u64, count: u64) -> bool
    ensures { result ≡ false → (s : Parts) → uses s (access_row right space.now at count) ≡ [] }
{
    match space
        .space
        .allowed(&Handed::none(alloc), right, at, count as usize)
    {
        Ok(()) => false,
        Err(MemErr::Fault { .. }) => false,
        Err(MemErr::Shared(_)) => true,
        Err(MemErr::Memory) => unreachable!(),
    }
}

/// Hands in the shared areas that an access to so many bytes by a right asks for, so many at most, and answers whether
/// each of the bytes may be accessed so.
pub(crate) fn access(
    alloc: Global,
    space: &GuestSpace,
    areas: &mut Named<GuestArea>,
    handed: &mut Handed,
    right: Rights,
    at: u64,
    count: u64,
    most: u32,
) -> Result<bool, Memory>
    requires { AreThere (hand_of handed.old) areas.old }
    ensures comes { IfOk result (λ b. Accesses right space.now at count most (hand_of handed.old)
        (with_hand (hand_of handed.old) areas.old) b (hand_of handed.new)) }
    ensures allowed { IfOk result (λ b. OnTrue b (IsAllowed right space.now at count (hand_of handed.new))) }
    ensures there { AreThere (hand_of handed.new) areas.new }
    ensures back { with_hand (hand_of handed.new) areas.new ≡ with_hand (hand_of handed.old) areas.old }
{
    match space.space.allowed(handed, right, at, count as usize) {
        Ok(()) => Ok(true),
        Err(MemErr::Fault { .. }) => Ok(false),
        Err(MemErr::Shared(area)) => {
            if most == 0 {
                return Ok(false);
            }
            if !hand_in(alloc, areas, handed, area)? {
                return Ok(false);
            }
            access(alloc, space, areas, handed, right, at, count, most - 1)
        }
        Err(MemErr::Memory) => unreachable!(),
    }
}
