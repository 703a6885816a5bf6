//! Bytes of guests' buffers that go into pipes, with no buffer between.

ghost use Rattle.std.specs.Prelude.{◌≡◌, ◌+◌, ◌≤◌, [], length, IfOk, OnErr};
ghost use Rattle.mm_space.specs.Accesses.{byte_at, readable};
ghost use Rattle.mm_space.specs.Handed.{hand_of};
ghost use Rattle.mm_space.specs.Runs.{bytes_from};
ghost use Rattle.pipe_core.specs.Pipes.{after_write};
ghost use Rattle.kernel_model.specs.machine.Spaces.{reach_with};
ghost use Rattle.kernel_model.specs.entries.Areas.{bytes_read};
ghost use Rattle.kernel_model.specs.entries.Parts.{Parts, outcome_in};
ghost use Rattle.guest_access.specs.Lending.{AreThere, AreThose, with_hand};
ghost use Rattle.guest_access.specs.Sending.{Sent};

use crate::buffers::access;
use crate::lending::{MOST_AREAS, take_back};
use kernel_model::{GuestArea, GuestSpace, Named};
use mm_areas::Rights;
use mm_space::Handed;
use pipe_core::{CAPACITY, Pipe};
use sn_base::Memory;
use std::alloc::Global;

/// Puts the first bytes of a buffer, so many of them as are taken, behind those of a pipe, where each byte of the whole
/// buffer may be read, and answers whether it has. Otherwise, and on `Err`, nothing changes. The areas stay as they
/// are.
///
/// write(2), EFAULT.
pub fn send(
    alloc: Global,
    space: &GuestSpace,
    areas: &mut Named<GuestArea>,
    at: u64,
    count: u64,
    taken: u64,
    pipe: &mut Pipe,
) -> Result<bool, Memory>
    requires within { taken ≤ count }
    requires room { length pipe.old.bytes + taken ≤ CAPACITY }
    ensures sent { IfOk result (λ b. (s : Parts) → AreThose s areas.old →
        Sent (outcome_in s (bytes_read space.now at count)) b taken pipe.old pipe.new) }
    ensures err { OnErr result (pipe.new ≡ pipe.old) }
    ensures kept { areas.new ≡ areas.old }
{
    let mut handed = Handed::none(alloc);
    let sent = send_with(alloc, space, areas, &mut handed, at, count, taken, pipe);
    take_back(areas, &mut handed);
    sent
}

/// The same, with the areas left in hand that were asked for.
fn send_with(
    alloc: Global,
    space: &GuestSpace,
    areas: &mut Named<GuestArea>,
    handed: &mut Handed,
    at: u64,
    count: u64,
    taken: u64,
    pipe: &mut Pipe,
) -> Result<bool, Memory>
    requires none { hand_of handed.old ≡ [] }
    requires within { taken ≤ count }
    requires room { length pipe.old.bytes + taken ≤ CAPACITY }
    ensures sent { IfOk result (λ b. (s : Parts) → AreThose s areas.old →
        Sent (outcome_in s (bytes_read space.now at count)) b taken pipe.old pipe.new) }
    ensures err { OnErr result (pipe.new ≡ pipe.old) }
    ensures there { AreThere (hand_of handed.new) areas.new }
    ensures back { with_hand (hand_of handed.new) areas.new ≡ areas.old }
{
    if !access(
        alloc,
        space,
        areas,
        handed,
        Rights::READ,
        at,
        count,
        MOST_AREAS,
    )? {
        return Ok(false);
    }
    put_pieces(space, handed, at, taken as usize, pipe);
    Ok(true)
}

/// Puts so many bytes from an address on behind those of a pipe, and 0 for each that may not be read.
fn put_pieces(space: &GuestSpace, handed: &Handed, at: u64, count: usize, pipe: &mut Pipe)
    requires { length pipe.old.bytes + count ≤ CAPACITY }
    ensures { pipe.new ≡ after_write pipe.old
        (bytes_from (byte_at readable (reach_with space.now (hand_of handed.now))) at count) }
{
    let mut done = 0;
    while done < count {
        let address = at.wrapping_add(done as u64);
        let piece = space.space.piece(handed, address, count - done);
        pipe.put(piece);
        done += piece.len();
    }
}
