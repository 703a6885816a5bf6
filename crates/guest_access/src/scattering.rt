//! Bytes that go into several of a guest's buffers: all of them, or none.

ghost use Rattle.std.specs.Prelude.{◌≡◌, ℕ, ◌+◌, ◌^◌, ◌<◌, true, [], ◌++◌, length, IfOk, OnOk, OnErr};
ghost use Rattle.mm_space.specs.Accesses.{writable};
ghost use Rattle.mm_space.specs.Handed.{hand_of};
ghost use Rattle.mm_space.specs.Places.{is_ready_at};
ghost use Rattle.mm_space.specs.Spaces.{reach};
ghost use Rattle.kernel_model.specs.calls.Vectors.{accessed, cut, filled, scattered};
ghost use Rattle.kernel_model.specs.entries.Parts.{Parts, outcome_in};
ghost use Rattle.guest_access.specs.Lending.{AreThere, AreThose, with_hand};
ghost use Rattle.guest_access.specs.Scattering.{AreReady};
ghost use Rattle.guest_access.specs.Trying.{Wrote, by_right};

use crate::buffers::access;
use crate::lending::{MOST_AREAS, take_back};
use crate::two_runs::{behind, front};
use kernel_model::{GuestArea, GuestSpace, Named};
use mm_areas::Rights;
use mm_space::{Handed, Space};
use sn_base::Memory;
use stat_layout::IoVec;
use std::alloc::Global;

/// Puts two runs of bytes, the second behind the first, into buffers for a task, each filled before the next, where
/// each byte of them that gets another may be written, and answers whether it has. Otherwise, and on `Err`, nothing
/// changes. Besides the pages that share their bytes with others, nothing is copied.
///
/// readv(2), DESCRIPTION and EFAULT.
pub fn scatter(
    alloc: Global,
    task: u32,
    space: &mut GuestSpace,
    areas: &mut Named<GuestArea>,
    buffers: &[IoVec],
    first: &[u8],
    second: &[u8],
) -> Result<bool, Memory>
    requires { length first.now + length second.now < 2 ^ 63 }
    ensures wrote { IfOk result (λ b. (s : Parts) → AreThose s areas.old →
        Wrote (outcome_in s (scattered task space.old (first.now ++ second.now) buffers.now)) b space.old space.new
        areas.old areas.new) }
    ensures err { OnErr result ((space.new ≡ space.old) × (areas.new ≡ areas.old)) }
{
    let mut handed = Handed::none(alloc);
    let put = scatter_with(
        alloc,
        task,
        space,
        areas,
        &mut handed,
        buffers,
        first,
        second,
    );
    take_back(areas, &mut handed);
    put
}

/// The same, with the areas left in hand that were asked for.
fn scatter_with(
    alloc: Global,
    task: u32,
    space: &mut GuestSpace,
    areas: &mut Named<GuestArea>,
    handed: &mut Handed,
    buffers: &[IoVec],
    first: &[u8],
    second: &[u8],
) -> Result<bool, Memory>
    requires none { hand_of handed.old ≡ [] }
    requires fits { length first.now + length second.now < 2 ^ 63 }
    ensures wrote { IfOk result (λ b. (s : Parts) → AreThose s areas.old →
        Wrote (outcome_in s (scattered task space.old (first.now ++ second.now) buffers.now)) b space.old space.new
        areas.old (with_hand (hand_of handed.new) areas.new)) }
    ensures there { AreThere (hand_of handed.new) areas.new }
    ensures err { OnErr result
        ((space.new ≡ space.old) × (with_hand (hand_of handed.new) areas.new ≡ areas.old)) }
{
    let count = first.len() + second.len();
    if !access_each(alloc, space, areas, handed, buffers, count as u64)? {
        return Ok(false);
    }
    own_each(alloc, &mut space.space, handed, buffers, count)?;
    put_each(&mut space.space, handed, task, buffers, first, second);
    Ok(true)
}

/// Hands in the shared areas that so many of the first bytes of buffers ask for, one buffer after another, and answers
/// whether each of these bytes may be written.
fn access_each(
    alloc: Global,
    space: &GuestSpace,
    areas: &mut Named<GuestArea>,
    handed: &mut Handed,
    buffers: &[IoVec],
    count: u64,
) -> Result<bool, Memory>
    requires { AreThere (hand_of handed.old) areas.old }
    ensures comes { IfOk result (λ b. (s : Parts) → AreThose s (with_hand (hand_of handed.old) areas.old) →
        outcome_in s (accessed writable space.now (cut count buffers.now) (hand_of handed.old))
        ≡ by_right b (hand_of handed.new)) }
    ensures there { AreThere (hand_of handed.new) areas.new }
    ensures back { with_hand (hand_of handed.new) areas.new ≡ with_hand (hand_of handed.old) areas.old }
{
    match buffers {
        [buffer, rest @ ..] => {
            let piece = buffer.length.min(count);
            if !access(
                alloc,
                space,
                areas,
                handed,
                Rights::WRITE,
                buffer.base,
                piece,
                MOST_AREAS,
            )? {
                return Ok(false);
            }
            access_each(alloc, space, areas, handed, rest, count - piece)
        }
        [] => Ok(true),
    }
}

/// Makes the bytes of the pages in which so many of the first bytes of buffers lie their own.
fn own_each(
    alloc: Global,
    space: &mut Space,
    handed: &mut Handed,
    buffers: &[IoVec],
    count: usize,
) -> Result<(), Memory>
    ensures same { reach space.new handed.new ≡ reach space.old handed.old }
    ensures ready { OnOk result (AreReady space.new handed.new (cut count buffers.now)) }
    ensures still { (other : ℕ) →
        is_ready_at space.old handed.old other ≡ true → is_ready_at space.new handed.new other ≡ true }
{
    match buffers {
        [buffer, rest @ ..] => {
            let piece = buffer.length.min(count as u64) as usize;
            space.own_run(alloc, handed, buffer.base, piece)?;
            own_each(alloc, space, handed, rest, count - piece)
        }
        [] => Ok(()),
    }
}

/// Puts two runs of bytes into buffers, whose pages have their bytes for themselves.
fn put_each(
    space: &mut Space,
    handed: &mut Handed,
    task: u32,
    buffers: &[IoVec],
    first: &[u8],
    second: &[u8],
)
    requires fits { length first.now + length second.now < 2 ^ 63 }
    requires ready { AreReady space.old handed.old (cut (length first.now + length second.now) buffers.now) }
    ensures { reach space.new handed.new ≡
        filled task (first.now ++ second.now) buffers.now (reach space.old handed.old) }
{
    if let [buffer, rest @ ..] = buffers {
        let length = buffer.length as usize;
        let (begin, more) = front(first, second, length);
        space.put_two(handed, task, buffer.base, begin, more);
        let (first, second) = behind(first, second, length);
        put_each(space, handed, task, rest, first, second);
    }
}
