//! What a read or a write comes to, before it is done, and the doing of it.

ghost use Rattle.std.specs.Prelude.{◌≡◌, pos, [], OnOk, OnErr};
ghost use Rattle.kernel_model.specs.declared.caller.Caller.{Caller as ACaller};
ghost use Rattle.kernel_model.specs.declared.kernel.Kernel.{Kernel as AKernel};
ghost use Rattle.mm_space.specs.Handed.{AreaState};
ghost use Rattle.mm_space.specs.Spaces.{AddressSpace};
ghost use Rattle.kernel_model.specs.Names.{NamedMap};
ghost use Rattle.kernel_model.specs.calls.Answers.{refuses, replies};
ghost use Rattle.kernel_model.specs.calls.ReadWrite.{waits};
ghost use Rattle.kernel_model.specs.entries.Parts.{done};
ghost use Rattle.pipe_core.specs.Pipes.{after_read};
ghost use Rattle.call_fs.specs.CallEnd.{IsApartBy, MayLack};
ghost use Rattle.call_fs.specs.Transfers.{HasMemory, FitsPipe, IsSure, Moves, after_transfer, with_pipe};
ghost use Rattle.call_fs.specs.declared.transfers.Transfer.TheVariants as transfers;

use crate::gathering::{append_all, append_one, put_from};
use crate::vectors::Buffers;
use kernel_model::{GuestArea, GuestSpace, Named, OpenFiles};
use sn_base::{List, Made, Memory};
use sn_errno::{Errno, Reply};
use std::alloc::Global;

/// What a call that reads or writes changes beside its caller's memory: nothing; or a pipe's oldest bytes are taken, so
/// many; or a pipe gets the first bytes of buffers, `taken` of them; or the console gets the bytes of buffers.
#[derive(Drop)]
pub enum Transfer {
    Nothing,
    Takes {
        pipe: Made,
        count: u64,
    },
    Puts {
        pipe: Made,
        from: Buffers,
        taken: u64,
    },
    Appends {
        from: Buffers,
    },
}

/// What becomes of a call that reads or writes: it replies (a negative reply is an error's number), or waits for bytes
/// or for room in a pipe.
#[derive(Drop)]
pub enum Transferred {
    Replies { reply: i64, transfer: Transfer },
    Waits { pipe: Made },
}

/// A call that replies a number, and changes nothing.
pub(crate) fn told(value: u32) -> Transferred
    ensures row { (c : ACaller) (k : AKernel) (own : AddressSpace) (shared : NamedMap AreaState) →
        HasMemory c k own shared → Moves (done (replies (pos value) [])) result c k own shared }
    ensures sure { (files : OpenFiles) → IsSure result files }
    ensures lean { IsApartBy result → ⊥ }
{
    Transferred::Replies {
        reply: i64::from(value),
        transfer: Transfer::Nothing,
    }
}

/// A call that is refused with an error.
pub(crate) fn denied(errno: Errno) -> Transferred
    ensures row { (c : ACaller) (k : AKernel) (own : AddressSpace) (shared : NamedMap AreaState) →
        HasMemory c k own shared → Moves (done (refuses errno)) result c k own shared }
    ensures sure { (files : OpenFiles) → IsSure result files }
    ensures lean { IsApartBy result → ⊥ }
{
    Transferred::Replies {
        reply: Reply::of(errno).number(),
        transfer: Transfer::Nothing,
    }
}

/// A call that can't go on yet: it waits at a pipe, or with O_NONBLOCK it is refused.
pub(crate) fn waits(nonblock: bool, pipe: Made) -> Transferred
    ensures row { (c : ACaller) (k : AKernel) (own : AddressSpace) (shared : NamedMap AreaState) →
        HasMemory c k own shared → Moves (done (waits nonblock)) result c k own shared }
    ensures sure { (files : OpenFiles) → IsSure result files }
{
    if nonblock {
        denied(Errno::EAGAIN)
    } else {
        Transferred::Waits { pipe }
    }
}

/// Does what a call comes to, for a caller with that address space. An `Err` changes nothing, and comes only where
/// bytes of buffers go somewhere.
pub fn commit_transfer(
    alloc: Global,
    transfer: Transfer,
    space: &GuestSpace,
    areas: &mut Named<GuestArea>,
    files: &mut OpenFiles,
    console: &mut List<u8>,
) -> Result<(), Memory>
    requires { FitsPipe transfer files.old }
    ensures ok { OnOk result ((k : AKernel) →
        k.areas ≡ areas.old → k.files ≡ files.old → k.console ≡ console.old →
        after_transfer transfer space.now k ≡ record k { files = files.new; console = console.new }) }
    ensures err { OnErr result (files.new ≡ files.old) }
    ensures err_console { OnErr result (console.new ≡ console.old) }
    ensures kept { areas.new ≡ areas.old }
    ensures lacking { OnErr result (MayLack transfer) }
{
    match transfer {
        Transfer::Nothing => Ok(()),
        Transfer::Takes { pipe, count } => {
            take_bytes(pipe, count, files);
            Ok(())
        }
        Transfer::Puts { pipe, from, taken } => {
            put_bytes(alloc, pipe, &from, taken, space, areas, files)
        }
        Transfer::Appends { from } => append_bytes(alloc, &from, space, areas, console),
    }
}

/// A pipe, where there is one of that name, has so many of its oldest bytes no longer.
fn take_bytes(pipe: Made, count: u64, files: &mut OpenFiles)
    ensures { files.new ≡ with_pipe (λ p. after_read p count) pipe files.old }
{
    if let Some(pipe) = files.pipes.get_mut(pipe.place, pipe.index) {
        pipe.skip(count as usize);
    }
}

/// A pipe, where there is one of that name, gets the first bytes of buffers.
fn put_bytes(
    alloc: Global,
    pipe: Made,
    from: &Buffers,
    taken: u64,
    space: &GuestSpace,
    areas: &mut Named<GuestArea>,
    files: &mut OpenFiles,
) -> Result<(), Memory>
    requires { FitsPipe (transfers.Puts pipe from.now taken) files.old }
    ensures ok { OnOk result ((k : AKernel) → k.areas ≡ areas.old → k.files ≡ files.old →
        after_transfer (transfers.Puts pipe from.now taken) space.now k ≡ record k { files = files.new }) }
    ensures err { OnErr result (files.new ≡ files.old) }
    ensures kept { areas.new ≡ areas.old }
{
    match files.pipes.get_mut(pipe.place, pipe.index) {
        Some(pipe) => {
            let _ = put_from(alloc, from, taken, space, areas, pipe)?;
            Ok(())
        }
        None => Ok(()),
    }
}

/// The console gets the bytes of buffers, where each of them may be read.
fn append_bytes(
    alloc: Global,
    from: &Buffers,
    space: &GuestSpace,
    areas: &mut Named<GuestArea>,
    console: &mut List<u8>,
) -> Result<(), Memory>
    ensures ok { OnOk result ((k : AKernel) → k.areas ≡ areas.old → k.console ≡ console.old →
        after_transfer (transfers.Appends from.now) space.now k ≡ record k { console = console.new }) }
    ensures err { OnErr result (console.new ≡ console.old) }
    ensures kept { areas.new ≡ areas.old }
{
    match from {
        Buffers::One(buffer) => append_one(alloc, *buffer, space, areas, console),
        Buffers::Several(buffers) => append_all(alloc, buffers.as_slice(), space, areas, console),
    }
}
