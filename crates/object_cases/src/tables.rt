//! Descriptor tables. A descriptor is the number of its description, with a `*` behind it where execve(2) closes it.
//!
//! - `install FROM DESCRIPTOR`, `dup OLD FROM`, `dup3 OLD NEW`, the last two with `cloexec` behind where the new one is
//!   to be closed: the number, or what had the place;
//! - `close FD`, `set_cloexec FD true` or `false`, `get FD ..`, `len`, `numbers`, `on_exec`;
//! - `fill FROM TO`, also with `cloexec` behind: opens the lowest free number for the description of each of these
//!   numbers, and comes to what is answered where it isn't that number; `copy` copies the table;
//! - `marked DESCRIPTOR true` or `false`: the descriptor with that mark.

use crate::notation::{small, space};
use fd_table::{Descriptor, FdErr, FdTable};
use read_cases::{Bad, number, parted};
use sn_base::Made;
use std::alloc::Global;

/// A descriptor table, and a copy of it.
#[derive(Drop)]
pub struct Tables {
    table: FdTable,
    copy: FdTable,
}

/// What `dup` and `dup3` are called with.
#[derive(Clone, Copy)]
struct Duplicate {
    old: u32,
    at: u32,
    cloexec: bool,
}

/// The description that has a number for its name.
fn description(place: u64) -> Made {
    Made { place, index: 1 }
}

fn descriptor(text: &str) -> Option<Descriptor> {
    let (digits, cloexec) = match text.strip_suffix('*') {
        Some(digits) => (digits, true),
        None => (text, false),
    };
    Some(Descriptor {
        description: description(number(digits)?),
        cloexec,
    })
}

fn duplicate_of(text: &str) -> Option<Duplicate> {
    let (old, rest) = parted(text);
    let (at, mark) = parted(rest);
    let cloexec = match mark {
        "" => false,
        "cloexec" => true,
        _ => return None,
    };
    Some(Duplicate {
        old: small(old)?,
        at: small(at)?,
        cloexec,
    })
}

fn tell_refusal(came: &mut String, error: FdErr) -> Result<(), Bad> {
    came.push_str(match error {
        FdErr::Full => "full",
        FdErr::BadFd => "bad_fd",
        FdErr::Same => "same",
    })?;
    Ok(())
}

fn tell_descriptor(came: &mut String, descriptor: Option<Descriptor>) -> Result<(), Bad> {
    let Some(it) = descriptor else {
        came.push_str("none")?;
        return Ok(());
    };
    write!(came, "{}", it.description.place)?;
    if it.description != description(it.description.place) {
        write!(came, ".{}", it.description.index)?;
    }
    if it.cloexec {
        came.push_str("*")?;
    }
    Ok(())
}

fn tell_opened(came: &mut String, opened: Result<u32, FdErr>) -> Result<(), Bad> {
    match opened {
        Ok(fd) => write!(came, "{fd}")?,
        Err(error) => tell_refusal(came, error)?,
    }
    Ok(())
}

fn tell_had(came: &mut String, had: Result<Option<Descriptor>, FdErr>) -> Result<(), Bad> {
    match had {
        Ok(descriptor) => tell_descriptor(came, descriptor),
        Err(error) => tell_refusal(came, error),
    }
}

/// Tells numbers, or `none`.
fn tell_numbers(came: &mut String, numbers: &[u32]) -> Result<(), Bad> {
    if numbers.is_empty() {
        came.push_str("none")?;
    }
    for number in numbers {
        space(came)?;
        write!(came, "{number}")?;
    }
    Ok(())
}

fn install(table: &mut FdTable, text: &str, came: &mut String) -> Result<bool, Bad> {
    let (from, new) = parted(text);
    let (Some(from), Some(new)) = (small(from), descriptor(new)) else {
        return Ok(false);
    };
    tell_opened(came, table.install(from, new))?;
    Ok(true)
}

fn dup(table: &mut FdTable, text: &str, came: &mut String) -> Result<bool, Bad> {
    let Some(new) = duplicate_of(text) else {
        return Ok(false);
    };
    tell_opened(came, table.dup(new.old, new.at, new.cloexec))?;
    Ok(true)
}

fn dup3(table: &mut FdTable, text: &str, came: &mut String) -> Result<bool, Bad> {
    let Some(new) = duplicate_of(text) else {
        return Ok(false);
    };
    tell_had(came, table.dup3(new.old, new.at, new.cloexec))?;
    Ok(true)
}

fn close(table: &mut FdTable, text: &str, came: &mut String) -> Result<bool, Bad> {
    let Some(fd) = small(text) else {
        return Ok(false);
    };
    match table.close(fd) {
        Ok(descriptor) => tell_descriptor(came, Some(descriptor))?,
        Err(error) => tell_refusal(came, error)?,
    }
    Ok(true)
}

fn set_cloexec(table: &mut FdTable, text: &str, came: &mut String) -> Result<bool, Bad> {
    let (fd, mark) = parted(text);
    let Some(fd) = small(fd) else {
        return Ok(false);
    };
    match table.set_cloexec(fd, mark == "true") {
        Ok(()) => came.push_str("set")?,
        Err(error) => tell_refusal(came, error)?,
    }
    Ok(true)
}

/// Tells what each of some numbers has.
fn get(table: &FdTable, numbers: &str, came: &mut String) -> Result<bool, Bad> {
    for text in numbers.split(' ') {
        let Some(fd) = small(text) else {
            return Ok(false);
        };
        space(came)?;
        tell_descriptor(came, table.get(fd))?;
    }
    Ok(true)
}

/// What `fill` is called with: the numbers, and whether execve(2) is to close them.
fn filling(text: &str) -> Option<(u32, u32, bool)> {
    let (from, rest) = parted(text);
    let (to, mark) = parted(rest);
    Some((small(from)?, small(to)?, mark == "cloexec"))
}

/// Opens each of some numbers, and tells the first one that isn't opened for its own description.
fn fill(table: &mut FdTable, text: &str, came: &mut String) -> Result<bool, Bad> {
    let Some((from, to, cloexec)) = filling(text) else {
        return Ok(false);
    };
    for fd in from..to {
        let description = description(u64::from(fd));
        let opened = table.install(
            0,
            Descriptor {
                description,
                cloexec,
            },
        );
        if opened != Ok(fd) {
            tell_opened(came, opened)?;
            return Ok(true);
        }
    }
    Ok(true)
}

fn tell_open(alloc: Global, table: &FdTable, came: &mut String) -> Result<bool, Bad> {
    let numbers = table.numbers(alloc)?;
    tell_numbers(came, numbers.as_slice())?;
    Ok(true)
}

fn tell_on_exec(alloc: Global, table: &FdTable, came: &mut String) -> Result<bool, Bad> {
    let numbers = table.on_exec(alloc)?;
    tell_numbers(came, numbers.as_slice())?;
    Ok(true)
}

/// Tells a descriptor with another mark.
fn tell_marked(text: &str, came: &mut String) -> Result<bool, Bad> {
    let (before, mark) = parted(text);
    let Some(before) = descriptor(before) else {
        return Ok(false);
    };
    tell_descriptor(came, Some(before.with_cloexec(mark == "true")))?;
    Ok(true)
}

/// Does a case that changes a table, or else one that looks at it.
fn do_case(alloc: Global, table: &mut FdTable, case: &str, came: &mut String) -> Result<bool, Bad> {
    let (verb, rest) = parted(case);
    match verb {
        "install" => install(table, rest, came),
        "dup" => dup(table, rest, came),
        "dup3" => dup3(table, rest, came),
        "close" => close(table, rest, came),
        "set_cloexec" => set_cloexec(table, rest, came),
        "fill" => fill(table, rest, came),
        _ => do_look(alloc, table, verb, rest, came),
    }
}

fn do_look(
    alloc: Global,
    table: &FdTable,
    verb: &str,
    rest: &str,
    came: &mut String,
) -> Result<bool, Bad> {
    match verb {
        "get" => get(table, rest, came),
        "len" => {
            write!(came, "{}", table.len())?;
            Ok(true)
        }
        "numbers" => tell_open(alloc, table, came),
        "on_exec" => tell_on_exec(alloc, table, came),
        "marked" => tell_marked(rest, came),
        _ => Ok(false),
    }
}

impl Tables {
    /// Two tables in which nothing is open.
    pub fn new(alloc: Global) -> Result<Tables, Bad> {
        let table = FdTable::new(alloc)?;
        let copy = FdTable::new(alloc)?;
        Ok(Tables { table, copy })
    }

    /// Closes all of both tables.
    pub fn begin(&mut self, alloc: Global) -> Result<(), Bad> {
        self.table = FdTable::new(alloc)?;
        self.copy = FdTable::new(alloc)?;
        Ok(())
    }

    /// Does a case on the table; whether it is one.
    pub fn do_table(&mut self, alloc: Global, case: &str, came: &mut String) -> Result<bool, Bad> {
        if case == "copy" {
            self.copy = self.table.copy(alloc)?;
            return Ok(true);
        }
        do_case(alloc, &mut self.table, case, came)
    }

    /// Does a case on the copy; whether it is one.
    pub fn do_copy(&mut self, alloc: Global, case: &str, came: &mut String) -> Result<bool, Bad> {
        do_case(alloc, &mut self.copy, case, came)
    }
}
