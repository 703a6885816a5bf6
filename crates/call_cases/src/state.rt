//! Questions about the state, and their answers:
//!
//! - of all: `entries`; `live`, `asleep` and `woken` tasks; `failed`, how many calls of the root; `last`, the greatest
//!   number of a task; `group NUMBER`, `exited CODE`, `killed SIGNAL` or `lives`; `clear TASK`, its clear word;
//!   `waiting TASK`, `asleep`, `woken` or `awake`;
//! - of what is open: `table NAME`, its numbers; `open NAME`, how many it has; `description NAME`, how many descriptors
//!   it has; `pipe NAME`, how many ends to read and to write; and of the task's own table `fd NUMBER`, what it stands
//!   for, and `counted NUMBER`, how many descriptors that has;
//! - of the task: `pc`, `a0`, `a2`, `sp`, `ra`; `changed`, each register but those of `registers`; `memory` and
//!   `table`, their names; `parent`; `cwd`; `pages`, how many are mapped; `rights ADDRESS`; `bytes ADDRESS COUNT`;
//! - `sleepers memory NAME ADDRESS` and `sleepers area NAME OFFSET`: how many sleep on a word.

use crate::numbers::{name, pair, small, value};
use crate::puts::group_of;
use crate::texts::{tell_bytes, tell_descriptor, tell_name, tell_number};
use bitflags::Flags;
use fd_table::{FdTable, OPEN_MAX};
use futex_core::{FutexKey, Owner};
use kernel_model::{GuestSpace, Kernel};
use mm_areas::Rights;
use mm_space::Handed;
use read_cases::{Bad, parted};
use rv_table::Regs;
use std::alloc::Global;
use task_table::Status;

/// Adds what is not there.
fn tell_none(came: &mut String) -> Result<(), Bad> {
    came.push_str("none")?;
    Ok(())
}

/// Adds a number, where it is there.
fn tell_found(came: &mut String, found: Option<u64>) -> Result<(), Bad> {
    match found {
        Some(value) => tell_number(came, value),
        None => tell_none(came),
    }
}

/// Whether a task lives, sleeps, or was woken.
fn is_so(kernel: &Kernel, which: &str, task: u32) -> bool {
    match which {
        "asleep" => kernel.sleepers.is_asleep(task),
        "woken" => kernel.sleepers.is_woken(task),
        _ => kernel.tasks.task(task).is_some_and(|task| task.live),
    }
}

/// The tasks of which that is so.
fn tell_tasks(came: &mut String, kernel: &Kernel, which: &str) -> Result<(), Bad> {
    for number in 0..kernel.tasks.last() {
        let task = number.wrapping_add(1);
        if is_so(kernel, which, task) {
            write!(came, " {task}")?;
        }
    }
    if came.is_empty() {
        came.push_str(" none")?;
    }
    Ok(())
}

/// How a thread group is.
fn tell_group(came: &mut String, kernel: &Kernel, number: u32) -> Result<(), Bad> {
    let Some(group) = kernel.tasks.group(number) else {
        return tell_none(came);
    };
    match group.ended {
        None => came.push_str("lives")?,
        Some(Status::Exited(code)) => write!(came, "exited {code}")?,
        Some(Status::Killed(signal)) => write!(came, "killed {signal}")?,
    }
    Ok(())
}

/// The numbers of a table, each with the name of its description.
fn tell_table(came: &mut String, table: Option<&FdTable>) -> Result<(), Bad> {
    let Some(table) = table else {
        return tell_none(came);
    };
    for fd in 0..OPEN_MAX as u32 {
        if let Some(found) = table.get(fd) {
            write!(came, " {fd}=")?;
            tell_descriptor(came, found)?;
        }
    }
    Ok(())
}

/// What has a name: a table, its count, a description's count, or the ends of a pipe.
fn tell_named(came: &mut String, kernel: &Kernel, verb: &str, text: &str) -> Result<(), Bad> {
    let Some((place, index)) = name(text) else {
        came.push_str("unread")?;
        return Ok(());
    };
    let files = &kernel.files;
    match verb {
        "table" => tell_table(came, files.tables.get(place, index)),
        "open" => {
            let table = files.tables.get(place, index);
            tell_found(came, table.map(|table| table.len() as u64))
        }
        "description" => {
            let file = files.descriptions.get(place, index);
            tell_found(came, file.map(|file| file.descriptors))
        }
        _ => match files.pipes.get(place, index) {
            Some(pipe) => {
                write!(came, "{} {}", pipe.readers(), pipe.writers())?;
                Ok(())
            }
            None => tell_none(came),
        },
    }
}

/// The caller's table.
fn table_of(kernel: &Kernel, task: u32) -> Option<&FdTable> {
    let table = group_of(kernel, task)?.table;
    kernel.files.tables.get(table.place, table.index)
}

/// What a number of the caller's table stands for.
fn tell_fd(came: &mut String, kernel: &Kernel, task: u32, text: &str) -> Result<(), Bad> {
    let found = match (table_of(kernel, task), small(text)) {
        (Some(table), Some(fd)) => table.get(fd),
        _ => None,
    };
    match found {
        Some(descriptor) => tell_descriptor(came, descriptor),
        None => tell_none(came),
    }
}

/// How many descriptors have the description of a number.
fn counted(kernel: &Kernel, task: u32, text: &str) -> Option<u64> {
    let found = table_of(kernel, task)?.get(small(text)?)?.description;
    let file = kernel.files.descriptions.get(found.place, found.index)?;
    Some(file.descriptors)
}

/// A register by its name.
fn register(registers: &Regs, verb: &str) -> u64 {
    match verb {
        "pc" => registers.pc,
        "ra" => registers.x[1],
        "sp" => registers.x[2],
        "a0" => registers.x[10],
        _ => registers.x[12],
    }
}

/// Each register that is not as it was put.
fn tell_changed(came: &mut String, registers: &Regs) -> Result<(), Bad> {
    write!(came, "pc=0x{:x}", registers.pc)?;
    for (number, value) in registers.x.iter().enumerate() {
        let put = if number == 0 {
            0
        } else {
            number.wrapping_add(1000) as u64
        };
        if *value != put {
            write!(came, " x{number}=")?;
            tell_number(came, *value)?;
        }
    }
    Ok(())
}

/// A register of a task, or all that changed.
fn tell_registers(came: &mut String, kernel: &Kernel, task: u32, verb: &str) -> Result<(), Bad> {
    match kernel.registers.get(u64::from(task)) {
        Some(registers) if verb == "changed" => tell_changed(came, registers),
        Some(registers) => tell_number(came, register(registers, verb)),
        None => tell_none(came),
    }
}

/// The names and numbers of a task's group.
fn tell_of_group(came: &mut String, kernel: &Kernel, task: u32, verb: &str) -> Result<(), Bad> {
    let Some(group) = group_of(kernel, task) else {
        return tell_none(came);
    };
    match verb {
        "memory" => tell_name(came, group.memory),
        "table" => tell_name(came, group.table),
        "parent" => tell_number(came, u64::from(group.parent)),
        _ => tell_number(came, group.cwd),
    }
}

/// The memory of a task.
pub fn memory_of(kernel: &Kernel, task: u32) -> Option<&GuestSpace> {
    let memory = group_of(kernel, task)?.memory;
    kernel.spaces.get(memory.place, memory.index)
}

/// The rights of the page of an address.
fn tell_rights(came: &mut String, memory: &GuestSpace, at: u64) -> Result<(), Bad> {
    let Some(page) = memory.space.areas().page(at / 4096) else {
        return tell_none(came);
    };
    let rights = page.rights;
    let has = |right, letter| if rights.contains(right) { letter } else { '-' };
    let read = has(Rights::READ, 'r');
    let write = has(Rights::WRITE, 'w');
    let execute = has(Rights::EXECUTE, 'x');
    write!(came, "{read}{write}{execute}")?;
    Ok(())
}

/// So many bytes at an address, of private pages.
fn tell_memory(
    alloc: Global,
    came: &mut String,
    memory: &GuestSpace,
    at: u64,
    count: u64,
) -> Result<(), Bad> {
    let mut bytes = vec![in alloc; 0u8; count as usize]?;
    let handed = Handed::none(alloc);
    match memory.space.read(&handed, at, bytes.as_mut_slice()) {
        Ok(()) => tell_bytes(came, bytes.as_slice()),
        Err(_) => tell_none(came),
    }
}

/// What a task's memory has.
fn tell_of_memory(
    alloc: Global,
    came: &mut String,
    kernel: &Kernel,
    task: u32,
    verb: &str,
    rest: &str,
) -> Result<(), Bad> {
    let Some(memory) = memory_of(kernel, task) else {
        return tell_none(came);
    };
    match verb {
        "pages" => tell_number(came, memory.space.areas().len()),
        "rights" => tell_rights(came, memory, value(rest, 0).unwrap_or(0)),
        _ => {
            let (at, count) = pair(rest).unwrap_or((0, 0));
            tell_memory(alloc, came, memory, at, count)
        }
    }
}

/// The word on which tasks may sleep.
fn key_of(text: &str) -> Option<FutexKey> {
    let (owner, rest) = text.split_once(' ')?;
    let (named, address) = rest.split_once(' ')?;
    let (place, index) = name(named)?;
    let owner = match owner {
        "memory" => Owner::Memory { place, index },
        "area" => Owner::Area { place, index },
        _ => return None,
    };
    Some(FutexKey {
        owner,
        address: value(address, 0)?,
    })
}

/// The address of a task's clear word.
fn clear_of(kernel: &Kernel, text: &str) -> Option<u64> {
    Some(kernel.tasks.task(small(text)?)?.clear)
}

/// How a task stands to the futex list.
fn standing(kernel: &Kernel, task: u32) -> &'static str {
    if kernel.sleepers.is_asleep(task) {
        return "asleep";
    }
    if kernel.sleepers.is_woken(task) {
        return "woken";
    }
    "awake"
}

/// The answers that are about no one task.
fn tell_whole(came: &mut String, kernel: &Kernel, verb: &str, rest: &str) -> Result<(), Bad> {
    match verb {
        "entries" => tell_number(came, kernel.entries),
        "last" => tell_number(came, u64::from(kernel.tasks.last())),
        "failed" => tell_found(came, kernel.failed.get(1).copied()),
        "group" => tell_group(came, kernel, small(rest).unwrap_or(0)),
        "clear" => tell_found(came, clear_of(kernel, rest)),
        "waiting" => {
            came.push_str(standing(kernel, small(rest).unwrap_or(0)))?;
            Ok(())
        }
        "sleepers" => {
            let count = key_of(rest).map(|key| kernel.sleepers.count_on(key));
            tell_found(came, count)
        }
        _ => {
            came.push_str("unread")?;
            Ok(())
        }
    }
}

/// Adds the answer to a question of a task: `unread` where it is none.
pub fn tell(
    alloc: Global,
    came: &mut String,
    kernel: &Kernel,
    task: u32,
    verb: &str,
    rest: &str,
) -> Result<(), Bad> {
    match verb {
        "live" | "asleep" | "woken" => tell_tasks(came, kernel, verb),
        "table" if rest.is_empty() => tell_of_group(came, kernel, task, verb),
        "table" | "open" | "description" | "pipe" => tell_named(came, kernel, verb, rest),
        "fd" => tell_fd(came, kernel, task, rest),
        "counted" => tell_found(came, counted(kernel, task, rest)),
        "pc" | "ra" | "sp" | "a0" | "a2" | "changed" => tell_registers(came, kernel, task, verb),
        "memory" | "parent" | "cwd" => tell_of_group(came, kernel, task, verb),
        "pages" | "rights" | "bytes" => tell_of_memory(alloc, came, kernel, task, verb, rest),
        _ => tell_whole(came, kernel, verb, rest),
    }
}
