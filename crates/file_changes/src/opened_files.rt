//! What an opening task has open: the first three descriptors, and an open file description of each.

ghost use Rattle.std.specs.Prelude.{◌≡◌, ◌≤◌, ◌<◌, false, IfOk, OnOk};
ghost use Rattle.std.specs.FinMap as map;
ghost use Rattle.fd_table.specs.Tables.{IsLowestFree};
ghost use Rattle.mount_file.specs.declared.rules.TheConstants.{MOST_TASKS};
ghost use Rattle.kernel_model.specs.descriptors.OpenFiles.{descriptor_of, new_file};
ghost use Rattle.kernel_model.specs.opening.Opening.{files_opened, stream_made, table_opened, with_streams};

use fd_table::{AccessMode, Description, Descriptor, FdTable, Object};
use kernel_model::{Named, OpenFile, OpenFiles};
use sn_base::{Made, Memory};
use std::alloc::Global;

/// Opens the descriptors of the opening task of that number, each with an open file description of its own: 0 is of an
/// empty input, 1 and 2 are of the console. Their table has the task's number in its name.
///
/// stdin(3).
pub fn open_files(alloc: Global, number: u32, files: &mut OpenFiles) -> Result<(), Memory>
    requires { number ≤ MOST_TASKS }
    ensures { OnOk result (files.new ≡ files_opened number files.old) }
{
    let table = opened_table(alloc, number)?;
    files.tables.insert(alloc, 0, number, table)?;
    open_streams(alloc, number, &mut files.descriptions)
}

/// The table of an opening task's descriptors. None of them is closed by execve(2).
fn opened_table(alloc: Global, number: u32) -> Result<FdTable, Memory>
    requires { number ≤ MOST_TASKS }
    ensures { IfOk result (λ table. table ≡ table_opened number) }
{
    let mut table = FdTable::new(alloc)?;
    open_stream(&mut table, number, 0);
    open_stream(&mut table, number, 1);
    open_stream(&mut table, number, 2);
    Ok(table)
}

/// Opens the lowest free number for a stream. It takes no memory.
fn open_stream(table: &mut FdTable, number: u32, fd: u32)
    requires few { number ≤ MOST_TASKS }
    requires stream { fd < 3 }
    requires lowest { IsLowestFree table.old 0 fd }
    ensures { table.new ≡ map.insert table.old fd (descriptor_of (stream_made number fd) false) }
{
    let descriptor = Descriptor {
        description: stream(number, fd),
        cloexec: false,
    };
    if table.install(0, descriptor).is_err() {
        unreachable!()
    }
}

/// Makes the open file descriptions of an opening task's descriptors.
fn open_streams(
    alloc: Global,
    number: u32,
    descriptions: &mut Named<OpenFile>,
) -> Result<(), Memory>
    requires { number ≤ MOST_TASKS }
    ensures { OnOk result (descriptions.new ≡ with_streams number descriptions.old) }
{
    let input = opened_file(Object::EmptyInput, AccessMode::Read);
    descriptions.insert(alloc, 0, stream(number, 0).index, input)?;
    let output = opened_file(Object::Console, AccessMode::Write);
    descriptions.insert(alloc, 0, stream(number, 1).index, output)?;
    descriptions.insert(alloc, 0, stream(number, 2).index, output)
}

/// The name of the open file description of an opening task's descriptor.
fn stream(number: u32, fd: u32) -> Made
    requires few { number ≤ MOST_TASKS }
    requires stream { fd < 3 }
    ensures { result ≡ stream_made number fd }
{
    Made {
        place: 0,
        index: 3 * number + fd,
    }
}

/// An open file description with one descriptor, at its beginning.
fn opened_file(object: Object, access: AccessMode) -> OpenFile
    ensures { result ≡ new_file object access false }
{
    OpenFile {
        description: Description {
            object,
            access,
            append: false,
            nonblock: false,
            position: 0,
        },
        descriptors: 1,
    }
}
