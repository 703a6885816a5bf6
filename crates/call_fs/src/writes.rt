//! write, on pipes and the console.

ghost use Rattle.std.specs.Prelude.{◌≡◌, ℕ, ◌≤◌, ◌∷◌, [], ◌++◌, List, Some, pos, min, take, length, IfOk};
ghost use Rattle.std.specs.Prelude.{if◌then◌else◌};
ghost use Rattle.sn_errno.specs.declared.errno.Errno.TheVariants.{EBADF};
ghost use Rattle.fd_table.specs.Flags.{may_write};
ghost use Rattle.mm_space.specs.Handed.{AreaState};
ghost use Rattle.mm_space.specs.Spaces.{AddressSpace};
ghost use Rattle.stat_layout.specs.IoVecs.{total_of};
ghost use Rattle.kernel_model.specs.Names.{NamedMap, get_named};
ghost use Rattle.kernel_model.specs.declared.caller.Caller.{Caller as ACaller};
ghost use Rattle.kernel_model.specs.declared.kernel.Kernel.{Kernel as AKernel};
ghost use Rattle.kernel_model.specs.declared.open_files.OpenFiles.{OpenFiles as AFiles};
ghost use Rattle.kernel_model.specs.declared.kernel.Part.TheVariants.{OfConsole, OfPipe};
ghost use Rattle.pipe_core.specs.Pipes.{after_write, room_in, room_wanted};
ghost use Rattle.kernel_model.specs.calls.Answers.{refuses, replies};
ghost use Rattle.kernel_model.specs.calls.Lookups.{descriptor};
ghost use Rattle.kernel_model.specs.calls.ReadWrite.{appended, to_pipe, write_row, writes, writes_of};
ghost use Rattle.kernel_model.specs.entries.Parts.{done};
ghost use Rattle.call_fs.specs.Records.{buffers_in};
ghost use Rattle.call_fs.specs.Lookups.{StandsFor};
ghost use Rattle.call_fs.specs.Transfers.{HasMemory, HasPipeOf, IsGathered, IsSure, IsWriting, Moves, writes_from};

use crate::lookups::FileInHand;
use crate::reads::cut;
use crate::transfers::{Transfer, Transferred, denied, told, waits};
use crate::vectors::{Buffers, may_be_read};
use fd_table::Object;
use kernel_model::{CONSOLE_ROOM, GuestArea, GuestSpace, MOST_MOVED, Named};
use pipe_core::{ATOMIC, CAPACITY, Pipe};
use sn_base::{Made, Memory};
use sn_errno::Errno;
use stat_layout::IoVec;
use std::alloc::Global;

/// write(fd, buffer, count), with what the descriptor has open: the bytes of the buffer go behind those of a pipe, all
/// of up to 4,096 and of more as many as fit, and their number is the reply; it waits for room. The console takes all
/// of them, or none. No call moves more than 65,536 bytes. Nothing is read before it is done but which bytes may be.
///
/// EBADF: the descriptor isn't open, or not for writing; EFAULT: a byte of the buffer that may not be read; EPIPE: no
/// read end is left; EAGAIN: with O_NONBLOCK, where it would wait; ENOSPC: the console has no room.
pub fn write(
    alloc: Global,
    opened: Option<FileInHand<'_>>,
    buffer: IoVec,
    space: &GuestSpace,
    areas: &mut Named<GuestArea>,
    console: usize,
) -> Result<Transferred, Memory>
    ensures row { IfOk result (λ t. (fd : ℕ) (c : ACaller) (k : AKernel) → HasMemory c k space.now areas.old →
        StandsFor k.files c.table (descriptor fd) opened.entry → length k.console ≡ console →
        Moves (write_row fd buffer.base buffer.length c) t c k space.now areas.old) }
    ensures sure { IfOk result (λ t. (open_files : AFiles) → HasPipeOf opened.entry open_files → IsSure t open_files) }
    ensures kept { areas.new ≡ areas.old }
{
    match opened {
        None => Ok(denied(Errno::EBADF)),
        Some(opened) => write_open(alloc, &opened, buffer, space, areas, console),
    }
}

/// A write to what is open, where the access lets the caller write.
fn write_open(
    alloc: Global,
    opened: &FileInHand<'_>,
    buffer: IoVec,
    space: &GuestSpace,
    areas: &mut Named<GuestArea>,
    console: usize,
) -> Result<Transferred, Memory>
    ensures row { IfOk result (λ t. (c : ACaller) (k : AKernel) →
        IsWriting c k space.now areas.old opened.now console →
        Moves (if may_write opened.now.file.description.access then writes c (buffer ∷ []) opened.now.file.description
        else done (refuses EBADF)) t c k space.now areas.old) }
    ensures sure { IfOk result (λ t. (open_files : AFiles) → HasPipeOf (Some opened.now) open_files →
        IsSure t open_files) }
    ensures kept { areas.new ≡ areas.old }
{
    if opened.file.description.access.may_write() {
        writes(alloc, opened, buffer, space, areas, console)
    } else {
        Ok(denied(Errno::EBADF))
    }
}

/// A write from a buffer: none of no bytes.
fn writes(
    alloc: Global,
    opened: &FileInHand<'_>,
    buffer: IoVec,
    space: &GuestSpace,
    areas: &mut Named<GuestArea>,
    console: usize,
) -> Result<Transferred, Memory>
    ensures row { IfOk result (λ t. (c : ACaller) (k : AKernel) →
        IsWriting c k space.now areas.old opened.now console →
        Moves (writes c (buffer ∷ []) opened.now.file.description) t c k space.now areas.old) }
    ensures sure { IfOk result (λ t. (open_files : AFiles) → HasPipeOf (Some opened.now) open_files →
        IsSure t open_files) }
    ensures kept { areas.new ≡ areas.old }
{
    if buffer.length == 0 {
        Ok(told(0))
    } else {
        let first = cut(buffer);
        writes_from(
            alloc,
            opened,
            Buffers::One(first),
            first.length,
            space,
            areas,
            console,
        )
    }
}

/// A write from buffers of so many bytes in all, which are all tested before.
pub(crate) fn writes_from(
    alloc: Global,
    opened: &FileInHand<'_>,
    from: Buffers,
    count: u64,
    space: &GuestSpace,
    areas: &mut Named<GuestArea>,
    console: usize,
) -> Result<Transferred, Memory>
    requires few { count ≤ MOST_MOVED }
    requires all { count ≡ total_of (buffers_in from) }
    ensures row { IfOk result (λ t. (c : ACaller) (k : AKernel) →
        IsWriting c k space.now areas.old opened.now console →
        Moves (writes_from c opened.now.file.description (buffers_in from)) t c k space.now areas.old) }
    ensures sure { IfOk result (λ t. (open_files : AFiles) → HasPipeOf (Some opened.now) open_files →
        IsSure t open_files) }
    ensures kept { areas.new ≡ areas.old }
{
    if may_be_read(alloc, space, areas, &from)? {
        Ok(writes_of(opened, from, count, console))
    } else {
        Ok(denied(Errno::EFAULT))
    }
}

/// What is written to an object, from buffers that may be read.
fn writes_of(opened: &FileInHand<'_>, from: Buffers, count: u64, console: usize) -> Transferred
    requires few { count ≤ MOST_MOVED }
    requires all { count ≡ total_of (buffers_in from) }
    ensures row { (c : ACaller) (k : AKernel) (own : AddressSpace) (shared : NamedMap AreaState) (bytes : List ℕ) →
        IsWriting c k own shared opened.now console → IsGathered (buffers_in from) own k bytes →
        Moves (writes_of opened.now.file.description.nonblock bytes opened.now.file.description.object) result c k
        own shared }
    ensures sure { (open_files : AFiles) → HasPipeOf (Some opened.now) open_files → IsSure result open_files }
{
    match opened.file.description.object {
        Object::Node(_) => denied(Errno::ENOSYS),
        Object::PipeEnd { pipe: name, .. } => match opened.pipe {
            None => denied(Errno::EBADF),
            Some(pipe) => to_pipe(opened.file.description.nonblock, from, count, name, pipe),
        },
        Object::Console => to_console(from, count, console),
        Object::EmptyInput => to_console(from, count, console),
    }
}

/// A write to a pipe.
fn to_pipe(nonblock: bool, from: Buffers, count: u64, name: Made, pipe: &Pipe) -> Transferred
    requires few { count ≤ MOST_MOVED }
    requires all { count ≡ total_of (buffers_in from) }
    ensures row { (c : ACaller) (k : AKernel) (own : AddressSpace) (shared : NamedMap AreaState) (bytes : List ℕ) →
        HasMemory c k own shared → get_named k.files.pipes name.place name.index ≡ Some pipe.now →
        IsGathered (buffers_in from) own k bytes →
        Moves (done (to_pipe nonblock bytes name pipe.now)) result c k own shared }
    ensures sure { (files : AFiles) → get_named files.pipes name.place name.index ≡ Some pipe.now →
        IsSure result files }
{
    if pipe.readers() == 0 {
        return denied(Errno::EPIPE);
    }
    let room = (CAPACITY - pipe.len()) as u64;
    if room < room_wanted(count) {
        return waits(nonblock, name);
    }
    puts(from, count, name, room, pipe)
}

/// The room without which a write of so many bytes waits.
fn room_wanted(count: u64) -> u64
    ensures { result ≡ room_wanted count }
{
    if count <= ATOMIC as u64 { count } else { 1 }
}

/// As many bytes of buffers as there is room for go into a pipe.
fn puts(from: Buffers, count: u64, name: Made, room: u64, pipe: &Pipe) -> Transferred
    requires few { count ≤ MOST_MOVED }
    requires all { count ≡ total_of (buffers_in from) }
    requires room { room ≡ room_in pipe.now }
    requires within { length pipe.now.bytes ≤ CAPACITY }
    ensures row { (c : ACaller) (k : AKernel) (own : AddressSpace) (shared : NamedMap AreaState) (bytes : List ℕ) →
        HasMemory c k own shared → get_named k.files.pipes name.place name.index ≡ Some pipe.now →
        IsGathered (buffers_in from) own k bytes →
        Moves (done (replies (pos (min (length bytes) (room_in pipe.now)))
        ((OfPipe name, Some (after_write pipe.now (take (room_in pipe.now) bytes))) ∷ []))) result c k own shared }
    ensures sure { (files : AFiles) → get_named files.pipes name.place name.index ≡ Some pipe.now →
        IsSure result files }
{
    let taken = count.min(room);
    Transferred::Replies {
        reply: taken as i64,
        transfer: Transfer::Puts {
            pipe: name,
            from,
            taken,
        },
    }
}

/// A write to the console, by how many bytes that has.
fn to_console(from: Buffers, count: u64, console: usize) -> Transferred
    requires few { count ≤ MOST_MOVED }
    requires all { count ≡ total_of (buffers_in from) }
    ensures row { (c : ACaller) (k : AKernel) (own : AddressSpace) (shared : NamedMap AreaState) (bytes : List ℕ) →
        HasMemory c k own shared → length k.console ≡ console → IsGathered (buffers_in from) own k bytes →
        Moves (done (appended bytes k.console)) result c k own shared }
    ensures sure { (files : AFiles) → IsSure result files }
{
    if console <= CONSOLE_ROOM && count <= (CONSOLE_ROOM - console) as u64 {
        appends(from, count)
    } else {
        denied(Errno::ENOSPC)
    }
}

/// The console gets the bytes of buffers.
fn appends(from: Buffers, count: u64) -> Transferred
    requires few { count ≤ MOST_MOVED }
    requires all { count ≡ total_of (buffers_in from) }
    ensures row { (c : ACaller) (k : AKernel) (own : AddressSpace) (shared : NamedMap AreaState) (bytes : List ℕ) →
        HasMemory c k own shared → IsGathered (buffers_in from) own k bytes →
        Moves (done (replies (pos (length bytes)) ((OfConsole, k.console ++ bytes) ∷ []))) result c k own shared }
    ensures sure { (files : AFiles) → IsSure result files }
{
    Transferred::Replies {
        reply: count as i64,
        transfer: Transfer::Appends { from },
    }
}
