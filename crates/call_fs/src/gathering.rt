//! Bytes of several buffers of a guest that go into a pipe or to the console: all of them, or none.

ghost use Rattle.std.specs.Prelude.{◌≡◌, ◌+◌, ◌≤◌, length, take, IfOk, OnOk, OnErr};
ghost use Rattle.stat_layout.specs.IoVecs.{total_of};
ghost use Rattle.kernel_model.specs.declared.kernel.Kernel.{Kernel as AKernel};
ghost use Rattle.kernel_model.specs.calls.Vectors.{gathered};
ghost use Rattle.kernel_model.specs.entries.Areas.{bytes_read};
ghost use Rattle.kernel_model.specs.entries.Parts.{Parts, outcome_in, parts};
ghost use Rattle.guest_access.specs.Lending.{AreThose};
ghost use Rattle.guest_access.specs.Sending.{Sent};
ghost use Rattle.call_fs.specs.Records.{AppendedEach, SentEach, buffers_in};
ghost use Rattle.call_fs.specs.Transfers.{appended_by, by_bytes};

use crate::vectors::Buffers;
use guest_access::{read, send};
use kernel_model::{GuestArea, GuestSpace, Named};
use pipe_core::{CAPACITY, Pipe};
use sn_base::{List, Memory};
use stat_layout::IoVec;
use std::alloc::Global;

// ---- into a pipe

/// Puts the first bytes of buffers, so many of them as are taken, behind those of a pipe, where each byte of the
/// buffers may be read, and answers whether it has. Otherwise, and on `Err`, nothing changes. The areas stay as they
/// are.
///
/// writev(2), DESCRIPTION.
pub(crate) fn put_from(
    alloc: Global,
    from: &Buffers,
    taken: u64,
    space: &GuestSpace,
    areas: &mut Named<GuestArea>,
    pipe: &mut Pipe,
) -> Result<bool, Memory>
    requires within { taken ≤ total_of (buffers_in from.now) }
    requires room { length pipe.old.bytes + taken ≤ CAPACITY }
    ensures sent { IfOk result (λ b. (s : Parts) → AreThose s areas.old →
        Sent (outcome_in s (gathered space.now (buffers_in from.now))) b taken pipe.old pipe.new) }
    ensures err { OnErr result (pipe.new ≡ pipe.old) }
    ensures kept { areas.new ≡ areas.old }
{
    match from {
        Buffers::One(buffer) => send(alloc, space, areas, buffer.base, buffer.length, taken, pipe),
        Buffers::Several(buffers) => {
            put_all(alloc, buffers.as_slice(), taken, space, areas, pipe)
        }
    }
}

/// Puts one buffer's bytes behind another's. Where that can't go on, the pipe has the bytes again that it had.
fn put_all(
    alloc: Global,
    buffers: &[IoVec],
    taken: u64,
    space: &GuestSpace,
    areas: &mut Named<GuestArea>,
    pipe: &mut Pipe,
) -> Result<bool, Memory>
    requires { length pipe.old.bytes + taken ≤ CAPACITY }
    ensures sent { IfOk result (λ b. (s : Parts) → AreThose s areas.old →
        Sent (outcome_in s (gathered space.now buffers.now)) b taken pipe.old pipe.new) }
    ensures err { OnErr result (pipe.new ≡ pipe.old) }
    ensures kept { areas.new ≡ areas.old }
{
    let before = pipe.len();
    match put_each(alloc, buffers, taken, space, areas, pipe) {
        Ok(true) => Ok(true),
        Ok(false) => {
            pipe.truncate(before);
            Ok(false)
        }
        Err(_) => {
            pipe.truncate(before);
            Err(Memory)
        }
    }
}

/// Puts one buffer's bytes behind another's, up to one of which a byte may not be read.
fn put_each(
    alloc: Global,
    buffers: &[IoVec],
    taken: u64,
    space: &GuestSpace,
    areas: &mut Named<GuestArea>,
    pipe: &mut Pipe,
) -> Result<bool, Memory>
    ensures sent { IfOk result (λ b.
        (s : Parts) → AreThose s areas.old → length pipe.old.bytes + taken ≤ CAPACITY →
        SentEach (outcome_in s (gathered space.now buffers.now)) b taken pipe.old pipe.new) }
    ensures begins { take (length pipe.old.bytes) pipe.new.bytes ≡ pipe.old.bytes }
    ensures readers { pipe.new.readers ≡ pipe.old.readers }
    ensures writers { pipe.new.writers ≡ pipe.old.writers }
    ensures kept { areas.new ≡ areas.old }
{
    match buffers {
        [first, rest @ ..] => {
            let held = pipe.len();
            let room = (CAPACITY - held) as u64;
            let wanted = taken.min(first.length);
            let part = wanted.min(room);
            if send(alloc, space, areas, first.base, first.length, part, pipe)? {
                put_each(alloc, rest, taken - part, space, areas, pipe)
            } else {
                Ok(false)
            }
        }
        [] => Ok(true),
    }
}

// ---- to the console

/// The console gets the bytes of a buffer, where each of them may be read.
pub(crate) fn append_one(
    alloc: Global,
    buffer: IoVec,
    space: &GuestSpace,
    areas: &mut Named<GuestArea>,
    console: &mut List<u8>,
) -> Result<(), Memory>
    ensures ok { OnOk result ((k : AKernel) → k.areas ≡ areas.old → k.console ≡ console.old →
        by_bytes appended_by (outcome_in (parts k) (bytes_read space.now buffer.base buffer.length)) k
        ≡ record k { console = console.new }) }
    ensures err { OnErr result (console.new ≡ console.old) }
    ensures kept { areas.new ≡ areas.old }
{
    match read(alloc, space, areas, buffer.base, buffer.length)? {
        Some(bytes) => console.extend_from_slice(bytes.as_slice()),
        None => Ok(()),
    }
}

/// The console gets one buffer's bytes behind another's, where each of them may be read.
pub(crate) fn append_all(
    alloc: Global,
    buffers: &[IoVec],
    space: &GuestSpace,
    areas: &mut Named<GuestArea>,
    console: &mut List<u8>,
) -> Result<(), Memory>
    ensures ok { OnOk result ((k : AKernel) → k.areas ≡ areas.old → k.console ≡ console.old →
        by_bytes appended_by (outcome_in (parts k) (gathered space.now buffers.now)) k
        ≡ record k { console = console.new }) }
    ensures err { OnErr result (console.new ≡ console.old) }
    ensures kept { areas.new ≡ areas.old }
{
    let before = console.len();
    match append_each(alloc, buffers, space, areas, console) {
        Ok(true) => Ok(()),
        Ok(false) => {
            console.truncate(before);
            Ok(())
        }
        Err(_) => {
            console.truncate(before);
            Err(Memory)
        }
    }
}

/// Puts one buffer's bytes behind another's, up to one of which a byte may not be read.
fn append_each(
    alloc: Global,
    buffers: &[IoVec],
    space: &GuestSpace,
    areas: &mut Named<GuestArea>,
    console: &mut List<u8>,
) -> Result<bool, Memory>
    ensures appended { IfOk result (λ b. (s : Parts) → AreThose s areas.old →
        AppendedEach (outcome_in s (gathered space.now buffers.now)) b console.old console.new) }
    ensures begins { take (length console.old) console.new ≡ console.old }
    ensures kept { areas.new ≡ areas.old }
{
    match buffers {
        [first, rest @ ..] => match read(alloc, space, areas, first.base, first.length)? {
            Some(bytes) => {
                console.extend_from_slice(bytes.as_slice())?;
                append_each(alloc, rest, space, areas, console)
            }
            None => Ok(false),
        },
        [] => Ok(true),
    }
}
