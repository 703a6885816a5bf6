//! Descriptors as they are copied and closed, and the open file descriptions and pipes that go with the last of them.

ghost use Rattle.std.specs.Prelude.{◌≡◌, OnOk, OnErr};
ghost use Rattle.fd_table.specs.Tables.{descriptions_of};
ghost use Rattle.kernel_model.specs.Names.{get_named};
ghost use Rattle.kernel_model.specs.descriptors.Counts.{end_closed, without_end};
ghost use Rattle.kernel_model.specs.entries.Parts.{set_named};
ghost use Rattle.kernel_model.specs.laws.Files.{all_counted, all_dropped, with_copy, with_one_fewer, with_one_more};
ghost use Rattle.kernel_model.specs.laws.Files.{without_object, without_table};

use fd_table::{FdTable, OPEN_MAX, Object, PipeSide};
use kernel_model::{Named, OpenFile, OpenFiles};
use pipe_core::Pipe;
use sn_base::{Made, Memory};
use std::alloc::Global;

/// Copies a descriptor table, where there is one: the descriptors of the copy have the same open file descriptions. An
/// `Err` changes nothing.
///
/// fork(2).
pub fn copy_table(
    alloc: Global,
    name: Made,
    copy: Made,
    files: &mut OpenFiles,
) -> Result<(), Memory>
    ensures ok { OnOk result (files.new ≡ with_copy name copy files.old) }
    ensures err { OnErr result (files.new ≡ files.old) }
{
    let Some(table) = files.tables.get(name.place, name.index) else {
        return Ok(());
    };
    let made = table.copy(alloc)?;
    files.tables.insert(alloc, copy.place, copy.index, made)?;
    if let Some(table) = files.tables.get(copy.place, copy.index) {
        count_each(table, &mut files.descriptions);
    }
    Ok(())
}

/// Closes all descriptors of a table, where there is one, and the table is gone. It takes no memory.
///
/// _exit(2).
pub fn close_table(name: Made, files: &mut OpenFiles)
    ensures { files.new ≡ without_table name files.old }
{
    if let Some(table) = files.tables.remove(name.place, name.index) {
        drop_each(&table, files);
    }
}

/// Each open file description has a descriptor more for each descriptor of a table that has it.
fn count_each(table: &FdTable, descriptions: &mut Named<OpenFile>)
    ensures { descriptions.new ≡ all_counted (descriptions_of table.now) descriptions.old }
{
    for fd in 0..OPEN_MAX as u32 {
        if let Some(descriptor) = table.get(fd) {
            count_one(descriptor.description, descriptions);
        }
    }
}

/// An open file description, where there is one of that name, has a descriptor more.
pub fn count_one(name: Made, descriptions: &mut Named<OpenFile>)
    ensures { descriptions.new ≡ with_one_more name descriptions.old }
{
    if let Some(file) = descriptions.get_mut(name.place, name.index) {
        file.descriptors = file.descriptors.saturating_add(1);
    }
}

/// Each open file description has a descriptor fewer for each descriptor of a table that has it, and is closed with its
/// last.
fn drop_each(table: &FdTable, files: &mut OpenFiles)
    ensures { files.new ≡ all_dropped (descriptions_of table.now) files.old }
{
    for fd in 0..OPEN_MAX as u32 {
        if let Some(descriptor) = table.get(fd) {
            drop_one(descriptor.description, files);
        }
    }
}

/// An open file description, where there is one of that name, has a descriptor fewer, and is closed with its last.
///
/// close(2).
pub fn drop_one(name: Made, files: &mut OpenFiles)
    ensures { files.new ≡ with_one_fewer name files.old }
{
    let Some(file) = files.descriptions.get(name.place, name.index).copied() else {
        return;
    };
    if file.descriptors >= 2 {
        let rest = OpenFile {
            descriptors: file.descriptors - 1,
            ..file
        };
        files.descriptions.replace(name.place, name.index, rest);
    } else {
        let _ = files.descriptions.remove(name.place, name.index);
        close_object(file.description.object, files);
    }
}

/// What goes with the last descriptor of an object: the end of a pipe.
fn close_object(object: Object, files: &mut OpenFiles)
    ensures { files.new ≡ without_object object files.old }
{
    if let Object::PipeEnd { pipe, end } = object {
        close_end(pipe, end, &mut files.pipes);
    }
}

/// A pipe, where there is one of that name, has an end fewer, and is gone with its last.
///
/// pipe(7), I/O on pipes and FIFOs.
fn close_end(name: Made, side: PipeSide, pipes: &mut Named<Pipe>)
    ensures { pipes.new ≡ set_named name (end_closed side (get_named pipes.old name.place name.index)) pipes.old }
{
    let Some(pipe) = pipes.get_mut(name.place, name.index) else {
        return;
    };
    close_side(side, pipe);
    if pipe.readers() == 0 && pipe.writers() == 0 {
        let _ = pipes.remove(name.place, name.index);
    }
}

/// A pipe has an end of that kind fewer, if it has one.
fn close_side(side: PipeSide, pipe: &mut Pipe)
    ensures { pipe.new ≡ without_end side pipe.old }
{
    match side {
        PipeSide::Read => {
            if pipe.readers() > 0 {
                pipe.close_reader();
            }
        }
        PipeSide::Write => {
            if pipe.writers() > 0 {
                pipe.close_writer();
            }
        }
    }
}
