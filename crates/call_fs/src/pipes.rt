//! pipe2.

ghost use Rattle.std.specs.Prelude.{◌≡◌, ℕ, ◌<◌, None, Some, IfOk, OnOk, OnErr, option_copied};
ghost use Rattle.std.specs.FinMap as map;
ghost use Rattle.fd_table.specs.Flags.{has_flag};
ghost use Rattle.fd_table.specs.Tables.{Table};
ghost use Rattle.kernel_model.specs.Names.{get_named, with_named};
ghost use Rattle.kernel_model.specs.declared.caller.Caller.{Caller as ACaller};
ghost use Rattle.kernel_model.specs.declared.kernel.Kernel.{Kernel as AKernel};
ghost use Rattle.kernel_model.specs.calls.Answers.{Answer};
ghost use Rattle.kernel_model.specs.calls.Callers.{Context as RowContext};
ghost use Rattle.fd_table.specs.declared.description.Object.TheVariants.{PipeEnd};
ghost use Rattle.kernel_model.specs.descriptors.OpenFiles.{new_file};
ghost use Rattle.kernel_model.specs.calls.Pipes.{are_pipe_flags, pipe2_row, pipe_made, read_end_at, two_free, two_ints};
ghost use Rattle.kernel_model.specs.calls.Pipes.{with_ends_of};
ghost use Rattle.kernel_model.specs.entries.Parts.{Prog, changed};
ghost use Rattle.guest_access.specs.Memories.{with_memory};
ghost use Rattle.call_fs.specs.Pipes.{MakesPipe, Prepares, PutsInts, read_file, write_file};
ghost use Rattle.kernel_calls.specs.Prepared.{HasTable};
ghost use Rattle.call_fs.specs.Transfers.{HasMemory, IsMoving};

use crate::lookups::lowest_free;
use fd_table::{
    AccessMode, Description, Descriptor, FdTable, O_CLOEXEC, O_NONBLOCK, OPEN_MAX, Object, PipeSide,
};
use guest_access::{is_accessible, write};
use kernel_calls::Context;
use kernel_model::{GuestArea, GuestSpace, Named, OpenFile, OpenFiles};
use mm_areas::Rights;
use pipe_core::Pipe;
use sn_base::{Made, Memory};
use sn_errno::Errno;
use std::alloc::Global;

/// The flags that pipe2 takes.
const PIPE_FLAGS: u32 = O_NONBLOCK + O_CLOEXEC;

/// The ends of a pipe that a call makes: their numbers, the flags of the call, and the buffer that gets the numbers.
#[derive(Clone, Copy, Debug, Drop, PartialEq, Eq)]
pub struct PipeEnds {
    pub first: u32,
    pub second: u32,
    pub flags: u32,
    pub buffer: u64,
}

/// A pipe that a call makes, and its ends.
#[derive(Drop)]
pub struct NewPipe {
    pub pipe: Pipe,
    pub ends: PipeEnds,
}

/// What becomes of pipe2: it is refused, or it makes a pipe, and replies 0.
#[derive(Drop)]
pub enum PipeCall {
    Refused(Errno),
    Makes(NewPipe),
}

/// pipe2(buffer, flags), with the caller's table: a pipe, and the two lowest free numbers for its ends, which go into
/// the buffer as an array of two int. Flags are the low 32 bits. Nothing is done yet: `make_pipe` does it.
///
/// EINVAL: a flag that is neither O_NONBLOCK nor O_CLOEXEC; EFAULT: a byte of the buffer that may not be written;
/// EMFILE: no two numbers are free.
pub fn pipe2(
    alloc: Global,
    numbers: Option<&FdTable>,
    buffer: u64,
    flags: u64,
    space: &GuestSpace,
    areas: &mut Named<GuestArea>,
) -> Result<PipeCall, Memory>
    ensures row { IfOk result (λ p. (c : ACaller) (k : AKernel) (of_row : RowContext) →
        HasMemory c k space.now areas.old → HasTable c k (option_copied numbers.entry) →
        Prepares (pipe2_row of_row buffer flags c) p of_row c k) }
    ensures kept { areas.new ≡ areas.old }
{
    let flags = (flags % (1 << 32)) as u32;
    if !are_pipe_flags(flags) {
        return Ok(PipeCall::Refused(Errno::EINVAL));
    }
    if !is_accessible(alloc, space, areas, Rights::WRITE, buffer, 8)? {
        return Ok(PipeCall::Refused(Errno::EFAULT));
    }
    match numbers {
        None => Ok(PipeCall::Refused(Errno::EBADF)),
        Some(numbers) => match two_free(numbers) {
            None => Ok(PipeCall::Refused(Errno::EMFILE)),
            Some((first, second)) => {
                let ends = PipeEnds {
                    first,
                    second,
                    flags,
                    buffer,
                };
                Ok(PipeCall::Makes(NewPipe {
                    pipe: Pipe::new(alloc)?,
                    ends,
                }))
            }
        },
    }
}

/// Flags of no other bits than O_NONBLOCK and O_CLOEXEC.
fn are_pipe_flags(flags: u32) -> bool
    ensures { result ≡ are_pipe_flags flags }
{
    flags & PIPE_FLAGS == flags
}

/// The two lowest free numbers.
fn two_free(numbers: &FdTable) -> Option<(u32, u32)>
    ensures { result ≡ two_free numbers.now }
{
    let first = lowest_free(numbers, 0)?;
    let second = lowest_free(numbers, first + 1)?;
    Some((first, second))
}

/// Makes a pipe that was prepared: it gets its place, and so do the descriptions of its ends; their numbers go into the
/// buffer, and are open then. An `Err` changes nothing: what has got its place is taken back.
pub fn make_pipe(
    alloc: Global,
    context: &Context<'_>,
    new: NewPipe,
    space: &mut GuestSpace,
    areas: &mut Named<GuestArea>,
    files: &mut OpenFiles,
) -> Result<(), Memory>
    ensures ok { OnOk result ((row : Prog Answer) (c : ACaller) (k : AKernel) (console : ℕ) (of_row : RowContext)
        (makes : MakesPipe row new of_row c k) → of_row.place ≡ context.now.place →
        IsMoving c k context.now space.old areas.old files.old console →
        changed (pipe_made of_row c new.ends.buffer new.ends.flags makes.hand makes.table
        (new.ends.first, new.ends.second)).changes k
        ≡ with_memory c space.new areas.new (record k { files = files.new })) }
    ensures err { OnErr result ((space.new ≡ space.old) × (areas.new ≡ areas.old)) }
    ensures err_files { OnErr result (files.new ≡ files.old) }
{
    place(alloc, context, new, space, areas, files)
}

/// A pipe gets its place, and its ends are made. An `Err` changes nothing.
fn place(
    alloc: Global,
    context: &Context<'_>,
    new: NewPipe,
    space: &mut GuestSpace,
    areas: &mut Named<GuestArea>,
    files: &mut OpenFiles,
) -> Result<(), Memory>
    ensures placed { OnOk result (files.new.pipes ≡ with_named files.old.pipes context.now.place 0 new.pipe) }
    ensures made { OnOk result (files.new.descriptions ≡
        with_named (with_named files.old.descriptions context.now.place 0 (read_file context.now.place new.ends.flags))
        context.now.place 1 (write_file context.now.place new.ends.flags)) }
    ensures opened { OnOk result ((table : Table) →
        get_named files.old.tables context.now.table.place context.now.table.index ≡ Some table →
        two_free table ≡ Some (new.ends.first, new.ends.second) →
        files.new.tables ≡ with_named files.old.tables context.now.table.place context.now.table.index
        (with_ends_of context.now.place new.ends.flags (new.ends.first, new.ends.second) table)) }
    ensures wrote { OnOk result (PutsInts context.now.task new.ends space.old space.new areas.old areas.new) }
    ensures err { OnErr result ((space.new ≡ space.old) × (areas.new ≡ areas.old)) }
    ensures err_files { OnErr result (files.new ≡ files.old) }
{
    let NewPipe { pipe, ends } = new;
    let former = files.pipes.put(alloc, context.place, 0, pipe)?;
    let made = make_ends(
        alloc,
        context,
        &ends,
        space,
        areas,
        &mut files.descriptions,
        &mut files.tables,
    );
    if made.is_err() {
        files.pipes.give_back(context.place, 0, former);
    }
    made
}

/// Makes the ends of a pipe. An `Err` changes nothing.
fn make_ends(
    alloc: Global,
    context: &Context<'_>,
    ends: &PipeEnds,
    space: &mut GuestSpace,
    areas: &mut Named<GuestArea>,
    descriptions: &mut Named<OpenFile>,
    tables: &mut Named<FdTable>,
) -> Result<(), Memory>
    ensures made { OnOk result (descriptions.new ≡
        with_named (with_named descriptions.old context.now.place 0 (read_file context.now.place ends.now.flags))
        context.now.place 1 (write_file context.now.place ends.now.flags)) }
    ensures opened { OnOk result ((table : Table) →
        get_named tables.old context.now.table.place context.now.table.index ≡ Some table →
        two_free table ≡ Some (ends.now.first, ends.now.second) →
        tables.new ≡ with_named tables.old context.now.table.place context.now.table.index
        (with_ends_of context.now.place ends.now.flags (ends.now.first, ends.now.second) table)) }
    ensures wrote { OnOk result (PutsInts context.now.task ends.now space.old space.new areas.old areas.new) }
    ensures err { OnErr result ((space.new ≡ space.old) × (areas.new ≡ areas.old)) }
    ensures err_descriptions { OnErr result (descriptions.new ≡ descriptions.old) }
    ensures err_tables { OnErr result (tables.new ≡ tables.old) }
{
    let file = end_file(context.place, ends.flags, PipeSide::Read, AccessMode::Read);
    let former = descriptions.put(alloc, context.place, 0, file)?;
    let made = make_write_end(alloc, context, ends, space, areas, descriptions, tables);
    if made.is_err() {
        descriptions.give_back(context.place, 0, former);
    }
    made
}

/// Makes the write end of a pipe, the second. An `Err` changes nothing.
fn make_write_end(
    alloc: Global,
    context: &Context<'_>,
    ends: &PipeEnds,
    space: &mut GuestSpace,
    areas: &mut Named<GuestArea>,
    descriptions: &mut Named<OpenFile>,
    tables: &mut Named<FdTable>,
) -> Result<(), Memory>
    ensures made { OnOk result (descriptions.new ≡
        with_named descriptions.old context.now.place 1 (write_file context.now.place ends.now.flags)) }
    ensures opened { OnOk result ((table : Table) →
        get_named tables.old context.now.table.place context.now.table.index ≡ Some table →
        two_free table ≡ Some (ends.now.first, ends.now.second) →
        tables.new ≡ with_named tables.old context.now.table.place context.now.table.index
        (with_ends_of context.now.place ends.now.flags (ends.now.first, ends.now.second) table)) }
    ensures wrote { OnOk result (PutsInts context.now.task ends.now space.old space.new areas.old areas.new) }
    ensures err { OnErr result ((space.new ≡ space.old) × (areas.new ≡ areas.old)) }
    ensures err_descriptions { OnErr result (descriptions.new ≡ descriptions.old) }
    ensures err_tables { OnErr result (tables.new ≡ tables.old) }
{
    let file = end_file(
        context.place,
        ends.flags,
        PipeSide::Write,
        AccessMode::Write,
    );
    let former = descriptions.put(alloc, context.place, 1, file)?;
    let made = tell(alloc, context.task, ends, space, areas);
    match made {
        Ok(()) => open_ends(context.place, context.table, ends, tables),
        Err(_) => descriptions.give_back(context.place, 1, former),
    }
    made
}

/// The open file description of an end of the pipe of a place.
fn end_file(place: u64, flags: u32, end: PipeSide, access: AccessMode) -> OpenFile
    ensures { result ≡ new_file (PipeEnd (read_end_at place) end) access (has_flag flags O_NONBLOCK) }
{
    OpenFile {
        description: Description {
            object: Object::PipeEnd {
                pipe: Made { place, index: 0 },
                end,
            },
            access,
            append: false,
            nonblock: flags & O_NONBLOCK == O_NONBLOCK,
            position: 0,
        },
        descriptors: 1,
    }
}

/// Puts the numbers of the ends into the buffer. An `Err` changes nothing.
fn tell(
    alloc: Global,
    task: u32,
    ends: &PipeEnds,
    space: &mut GuestSpace,
    areas: &mut Named<GuestArea>,
) -> Result<(), Memory>
    ensures wrote { OnOk result (PutsInts task ends.now space.old space.new areas.old areas.new) }
    ensures err { OnErr result ((space.new ≡ space.old) × (areas.new ≡ areas.old)) }
{
    let _ = write(
        alloc,
        task,
        space,
        areas,
        ends.buffer,
        &two_ints(ends.first, ends.second),
    )?;
    Ok(())
}

/// Two numbers as an array of two int.
fn two_ints(first: u32, second: u32) -> [u8; 8]
    ensures { result ≡ two_ints (first, second) }
{
    let [a, b, c, d] = first.to_le_bytes();
    let [e, f, g, h] = second.to_le_bytes();
    [a, b, c, d, e, f, g, h]
}

/// The numbers of the ends are open in a table that is there, where they are the two lowest that were free.
fn open_ends(place: u64, table: Made, ends: &PipeEnds, tables: &mut Named<FdTable>)
    ensures { (open_numbers : Table) → get_named tables.old table.place table.index ≡ Some open_numbers →
        two_free open_numbers ≡ Some (ends.now.first, ends.now.second) →
        tables.new ≡ with_named tables.old table.place table.index
        (with_ends_of place ends.now.flags (ends.now.first, ends.now.second) open_numbers) }
{
    if let Some(numbers) = tables.get_mut(table.place, table.index) {
        let cloexec = ends.flags & O_CLOEXEC == O_CLOEXEC;
        open_number(numbers, ends.first, Made { place, index: 0 }, cloexec);
        open_number(numbers, ends.second, Made { place, index: 1 }, cloexec);
    }
}

/// A number that is free, and that a table may have, is open.
fn open_number(numbers: &mut FdTable, number: u32, description: Made, cloexec: bool)
    ensures { map.get numbers.old number ≡ None → number < OPEN_MAX →
        numbers.new ≡ map.insert numbers.old number (record { description = description; cloexec = cloexec }) }
{
    let _ = numbers.install(
        number,
        Descriptor {
            description,
            cloexec,
        },
    );
}
