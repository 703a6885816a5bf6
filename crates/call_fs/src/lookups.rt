//! What a caller's descriptors stand for.

ghost use Rattle.std.specs.Prelude.{◌≡◌, None, IfSome, IfNone, option_copied};
ghost use Rattle.kernel_model.specs.Names.{get_named};
ghost use Rattle.kernel_model.specs.declared.caller.Caller.{Caller as ACaller};
ghost use Rattle.kernel_model.specs.declared.kernel.Kernel.{Kernel as AKernel};
ghost use Rattle.kernel_model.specs.calls.Lookups.{descriptor};
ghost use Rattle.kernel_model.specs.calls.Lookups.{lowest_free};
ghost use Rattle.kernel_calls.specs.Prepared.{HasTable};
ghost use Rattle.call_fs.specs.Lookups.{HasPipe, IsOpen, StandsFor, file_in, descriptor_at};

use fd_table::{Descriptor, FdTable, OPEN_MAX, Object};
use kernel_model::{OpenFile, OpenFiles};
use pipe_core::Pipe;
use sn_base::Made;

/// A number of a caller's table that is open: the table, the number, and what it stands for.
#[derive(Clone, Copy)]
pub(crate) struct Looked<'a> {
    pub(crate) numbers: &'a FdTable,
    pub(crate) number: u32,
    pub(crate) descriptor: Descriptor,
}

/// An open file, as a number of a table stands for it: what the number has, the open file description of that, and
/// the pipe of which it is an end, where it is one.
#[derive(Clone, Copy)]
pub struct FileInHand<'a> {
    pub descriptor: Descriptor,
    pub file: OpenFile,
    pub pipe: Option<&'a Pipe>,
}

/// A register's descriptor, which is its low 32 bits.
pub(crate) fn descriptor(register: u64) -> u32
    ensures { result ≡ descriptor register }
{
    (register % (1 << 32)) as u32
}

/// What a register's descriptor stands for in the caller's table; nothing where it isn't open, or no table is there.
///
/// open(2), DESCRIPTION.
pub(crate) fn look(numbers: Option<&FdTable>, fd: u64) -> Option<Looked<'_>>
    ensures number { IfSome result (λ l. l.number ≡ descriptor fd) }
    ensures open { IfSome result (λ l. (c : ACaller) (k : AKernel) → HasTable c k (option_copied numbers.entry) →
        IsOpen l c k) }
    ensures none { IfNone result (descriptor_at (option_copied numbers.entry) (descriptor fd) ≡ None) }
{
    let number = descriptor(fd);
    let numbers = numbers?;
    let descriptor = numbers.get(number)?;
    Some(Looked {
        numbers,
        number,
        descriptor,
    })
}

/// The table of a name.
pub(crate) fn numbers_of(table: Made, files: &OpenFiles) -> Option<&FdTable>
    ensures { option_copied result ≡ get_named files.now.tables table.place table.index }
{
    files.tables.get(table.place, table.index)
}

/// An open file description.
pub(crate) fn file_of(name: Made, files: &OpenFiles) -> Option<OpenFile>
    ensures { result ≡ get_named files.now.descriptions name.place name.index }
{
    files.descriptions.get(name.place, name.index).copied()
}

/// The open file description of a register's descriptor.
pub(crate) fn open_file(table: Made, fd: u64, files: &OpenFiles) -> Option<OpenFile>
    ensures { result ≡ file_in files.now table (descriptor fd) }
{
    let numbers = files.tables.get(table.place, table.index)?;
    let descriptor = numbers.get(descriptor(fd))?;
    file_of(descriptor.description, files)
}

/// What a register's descriptor stands for in a table, with all that a read or a write looks at; nothing where it isn't
/// open.
///
/// open(2), DESCRIPTION.
pub fn file_in_hand(table: Made, fd: u64, files: &OpenFiles) -> Option<FileInHand<'_>>
    ensures { StandsFor files.now table (descriptor fd) result }
{
    let numbers = files.tables.get(table.place, table.index)?;
    let descriptor = numbers.get(descriptor(fd))?;
    let file = file_of(descriptor.description, files)?;
    Some(FileInHand {
        descriptor,
        file,
        pipe: pipe_of(file.description.object, files),
    })
}

/// The pipe of which an object is an end.
fn pipe_of(object: Object, files: &OpenFiles) -> Option<&Pipe>
    ensures { HasPipe object files.now (option_copied result) }
{
    match object {
        Object::PipeEnd { pipe, .. } => files.pipes.get(pipe.place, pipe.index),
        Object::Node(_) => None,
        Object::Console => None,
        Object::EmptyInput => None,
    }
}

/// The lowest number at or above another that isn't open.
///
/// open(2), DESCRIPTION; dup(2); fcntl(2), F_DUPFD.
pub(crate) fn lowest_free(numbers: &FdTable, from: u32) -> Option<u32>
    ensures { result ≡ lowest_free numbers.now from }
{
    for number in from..OPEN_MAX as u32 {
        if numbers.get(number).is_none() {
            return Some(number);
        }
    }
    None
}
