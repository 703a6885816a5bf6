//! What a call changes of what is open, and the doing of it.

ghost use Rattle.std.specs.Prelude.{◌≡◌};
ghost use Rattle.fd_table.specs.Tables.{marked};
ghost use Rattle.file_changes.specs.Changes.{by_table, closed, files_after, given, with_flags, with_table};

use crate::counts::{count_one, drop_one};
use kernel_model::OpenFiles;
use sn_base::Made;

/// What a call changes of what is open: nothing; or a number gets what another, `from`, stands for, in the place of
/// what it had; or execve(2) closes a number from then on, or no longer; or an open file description has other status
/// flags; or a number is closed.
#[derive(Clone, Copy, Debug, Drop, PartialEq, Eq)]
pub enum FileChange {
    Nothing,
    Gives {
        from: u32,
        number: u32,
        cloexec: bool,
    },
    Marks {
        number: u32,
        cloexec: bool,
    },
    SetsStatus {
        description: Made,
        flags: u32,
    },
    Closes {
        number: u32,
    },
}

/// Does what a call changes, to what is open, for a caller of that table. It takes no memory.
pub fn change_files(change: FileChange, table: Made, files: &mut OpenFiles)
    ensures { files.new ≡ files_after change table files.old }
{
    match change {
        FileChange::Nothing => {}
        FileChange::Gives {
            from,
            number,
            cloexec,
        } => give(table, from, number, cloexec, files),
        FileChange::Marks { number, cloexec } => mark(table, number, cloexec, files),
        FileChange::SetsStatus { description, flags } => set_status(description, flags, files),
        FileChange::Closes { number } => close(table, number, files),
    }
}

/// A number gets what another stands for. What it had is closed.
fn give(table: Made, from: u32, number: u32, cloexec: bool, files: &mut OpenFiles)
    ensures { files.new ≡ by_table (given from number cloexec table) table files.old }
{
    let Some(numbers) = files.tables.get_mut(table.place, table.index) else {
        return;
    };
    let Some(descriptor) = numbers.get(from) else {
        return;
    };
    let Ok(before) = numbers.dup3(from, number, cloexec) else {
        return;
    };
    count_one(descriptor.description, &mut files.descriptions);
    if let Some(before) = before {
        drop_one(before.description, files);
    }
}

/// Sets whether execve(2) closes a number.
fn mark(table: Made, number: u32, cloexec: bool, files: &mut OpenFiles)
    ensures { files.new ≡ by_table (λ t. with_table table (marked t number cloexec)) table files.old }
{
    if let Some(numbers) = files.tables.get_mut(table.place, table.index) {
        let _ = numbers.set_cloexec(number, cloexec);
    }
}

/// Sets the status flags of an open file description.
fn set_status(description: Made, flags: u32, files: &mut OpenFiles)
    ensures { files.new ≡ with_flags description flags files.old }
{
    if let Some(file) = files
        .descriptions
        .get_mut(description.place, description.index)
    {
        file.description.set_status(flags);
    }
}

/// Closes a number.
fn close(table: Made, number: u32, files: &mut OpenFiles)
    ensures { files.new ≡ by_table (closed number table) table files.old }
{
    let Some(numbers) = files.tables.get_mut(table.place, table.index) else {
        return;
    };
    let Ok(descriptor) = numbers.close(number) else {
        return;
    };
    drop_one(descriptor.description, files);
}
