//! Tasks and thread groups: how they are made, what is set, and what they are. A name is `PLACE.INDEX`.
//!
//! - `open`, `fork TASK CLEAR`, `thread TASK CLEAR`: the number of what was made, or `full`; behind `fork` may stand
//!   the name of a memory, which else is 7.0; `fork_in_vain TASK`, `thread_in_vain TASK` take back what they make;
//! - `forks TASK COUNT` makes so many children, and comes to what is made instead;
//! - `set_clear TASK N`, `set_cwd GROUP N`, `set_memory GROUP NAME`;
//! - `each`: the group of each task, with a `-` behind it where the task has ended; `clear TASK`: its clear word;
//! - `group GROUP`: its parent, and how it ended or `lives`; `named GROUP`: its directory, memory and table;
//! - `live`, `last`, `is_full`, `next_live AFTER`; `status STATUS`: its number. `endings.rt` has what ends tasks.
//!
//! A status is `exited:CODE` or `killed:SIGNAL`.

ghost use Rattle.std.specs.Prelude.{◌≡◌};
ghost use Rattle.task_table.specs.Table.{is_live};

use crate::endings::do_ending;
use crate::notation::{made, small, space, tell_number};
use read_cases::{Bad, number, parted};
use sn_base::Made;
use std::alloc::Global;
use task_table::{CloneErr, Group, LAST_TASK, Status, Tasks};

/// The table of tasks and thread groups.
#[derive(Drop)]
pub struct Family {
    tasks: Tasks,
}

/// The memory that new groups have, where a case names no other.
const MEMORY: Made = Made { place: 7, index: 0 };

/// The descriptor table that new groups have.
const TABLE: Made = Made { place: 7, index: 1 };

/// The directory that opening groups have.
const ROOT: u64 = 1;

/// What a task is made from.
#[derive(Clone, Copy)]
struct Making {
    task: u32,
    clear: u64,
    memory: Made,
}

/// Whether a task lives.
pub fn lives(tasks: &Tasks, number: u32) -> bool
    ensures { result ≡ is_live tasks.now.tasks number }
{
    match tasks.task(number) {
        Some(task) => task.live,
        None => false,
    }
}

fn making_of(text: &str) -> Option<Making> {
    let (task, rest) = parted(text);
    let (clear, name) = parted(rest);
    let memory = if name.is_empty() { MEMORY } else { made(name)? };
    Some(Making {
        task: small(task)?,
        clear: number(clear).unwrap_or(0),
        memory,
    })
}

/// Tells the number of a task that was made.
fn tell_made(came: &mut String, made: Result<u32, CloneErr>) -> Result<(), Bad> {
    match made {
        Ok(number) => write!(came, "{number}")?,
        Err(CloneErr::Full) => came.push_str("full")?,
        Err(CloneErr::Memory) => return Err(Bad::Memory),
    }
    Ok(())
}

fn open(tasks: &mut Tasks) -> Result<u32, CloneErr> {
    if tasks.last() >= LAST_TASK {
        return Err(CloneErr::Full);
    }
    tasks.open(MEMORY, TABLE, ROOT)
}

fn fork(tasks: &mut Tasks, from: Making) -> Result<u32, CloneErr> {
    if tasks.last() >= LAST_TASK || !lives(tasks, from.task) {
        return Err(CloneErr::Memory);
    }
    tasks.fork(from.task, from.memory, TABLE, from.clear)
}

fn thread(tasks: &mut Tasks, from: Making) -> Result<u32, CloneErr> {
    if tasks.last() >= LAST_TASK || !lives(tasks, from.task) {
        return Err(CloneErr::Memory);
    }
    tasks.thread(from.task, from.clear)
}

fn fork_in_vain(tasks: &mut Tasks, from: Making) -> Result<u32, CloneErr> {
    if tasks.last() >= LAST_TASK || !lives(tasks, from.task) {
        return Err(CloneErr::Memory);
    }
    let child = tasks.fork(from.task, from.memory, TABLE, from.clear)?;
    tasks.unmake();
    Ok(child)
}

fn thread_in_vain(tasks: &mut Tasks, from: Making) -> Result<u32, CloneErr> {
    if tasks.last() >= LAST_TASK || !lives(tasks, from.task) {
        return Err(CloneErr::Memory);
    }
    let thread = tasks.thread(from.task, from.clear)?;
    tasks.unmake();
    Ok(thread)
}

/// Makes so many children, and tells the first that isn't made.
fn do_forks(tasks: &mut Tasks, text: &str, came: &mut String) -> Result<bool, Bad> {
    let Some(from) = making_of(text) else {
        return Ok(false);
    };
    for _ in 0..from.clear {
        let made = fork(tasks, Making { clear: 0, ..from });
        if made.is_err() {
            tell_made(came, made)?;
            return Ok(true);
        }
    }
    Ok(true)
}

/// Makes a task as a verb says.
fn make(tasks: &mut Tasks, verb: &str, from: Making) -> Result<u32, CloneErr> {
    match verb {
        "fork" => fork(tasks, from),
        "thread" => thread(tasks, from),
        "fork_in_vain" => fork_in_vain(tasks, from),
        _ => thread_in_vain(tasks, from),
    }
}

fn do_making(tasks: &mut Tasks, verb: &str, text: &str, came: &mut String) -> Result<bool, Bad> {
    let Some(from) = making_of(text) else {
        return Ok(false);
    };
    tell_made(came, make(tasks, verb, from))?;
    Ok(true)
}

/// Sets a task's clear word or a group's directory, if there is one; whether there is.
fn set_number(tasks: &mut Tasks, verb: &str, of: u32, number: u64) -> bool {
    if verb == "set_clear" {
        let is_there = tasks.task(of).is_some();
        if is_there {
            tasks.set_clear(of, number);
        }
        return is_there;
    }
    let is_there = tasks.group(of).is_some();
    if is_there {
        tasks.set_cwd(of, number);
    }
    is_there
}

fn set_memory(tasks: &mut Tasks, group: u32, memory: Made) -> bool {
    let is_there = tasks.group(group).is_some();
    if is_there {
        tasks.set_memory(group, memory);
    }
    is_there
}

fn do_set(tasks: &mut Tasks, verb: &str, text: &str) -> bool {
    let (of, value) = parted(text);
    let Some(of) = small(of) else {
        return false;
    };
    if verb == "set_memory" {
        return match made(value) {
            Some(memory) => set_memory(tasks, of, memory),
            None => false,
        };
    }
    match number(value) {
        Some(number) => set_number(tasks, verb, of, number),
        None => false,
    }
}

/// A status by its word.
pub fn status_of(text: &str) -> Option<Status> {
    let (how, value) = text.split_once(':')?;
    let value = u8::from_str_radix(value, 10).ok()?;
    match how {
        "exited" => Some(Status::Exited(value)),
        "killed" => Some(Status::Killed(value)),
        _ => None,
    }
}

/// Tells a status.
pub fn tell_status(came: &mut String, status: Status) -> Result<(), Bad> {
    match status {
        Status::Exited(code) => write!(came, "exited:{code}")?,
        Status::Killed(signal) => write!(came, "killed:{signal}")?,
    }
    Ok(())
}

/// Tells the group of each task, and whether it has ended.
fn tell_each(tasks: &Tasks, came: &mut String) -> Result<(), Bad> {
    for number in 1..=tasks.last() {
        space(came)?;
        match tasks.task(number) {
            Some(task) if task.live => write!(came, "{}", task.group)?,
            Some(task) => write!(came, "{}-", task.group)?,
            None => came.push_str("none")?,
        }
    }
    Ok(())
}

fn tell_group(came: &mut String, group: &Group) -> Result<(), Bad> {
    write!(came, "{} ", group.parent)?;
    match group.ended {
        Some(status) => tell_status(came, status),
        None => Ok(came.push_str("lives")?),
    }
}

/// Tells a group, or that it is another among all groups.
fn do_group(tasks: &Tasks, number: u32, came: &mut String) -> Result<(), Bad> {
    if tasks.groups().get(u64::from(number)) != tasks.group(number) {
        came.push_str("another ")?;
    }
    match tasks.group(number) {
        Some(group) => tell_group(came, group),
        None => Ok(came.push_str("none")?),
    }
}

fn do_named(tasks: &Tasks, number: u32, came: &mut String) -> Result<(), Bad> {
    let Some(group) = tasks.group(number) else {
        return Ok(came.push_str("none")?);
    };
    let (memory, table) = (group.memory, group.table);
    write!(came, "{} {}.{}", group.cwd, memory.place, memory.index)?;
    write!(came, " {}.{}", table.place, table.index)?;
    Ok(())
}

fn do_clear(tasks: &Tasks, number: u32, came: &mut String) -> Result<(), Bad> {
    match tasks.task(number) {
        Some(task) => write!(came, "{:#x}", task.clear)?,
        None => came.push_str("none")?,
    }
    Ok(())
}

/// Does a case that looks at one number.
fn do_number(tasks: &Tasks, verb: &str, text: &str, came: &mut String) -> Result<bool, Bad> {
    let Some(number) = small(text) else {
        return Ok(false);
    };
    match verb {
        "group" => do_group(tasks, number, came)?,
        "named" => do_named(tasks, number, came)?,
        "clear" => do_clear(tasks, number, came)?,
        "next_live" => tell_number(came, tasks.next_live(number).map(u64::from))?,
        _ => return Ok(false),
    }
    Ok(true)
}

fn do_status(text: &str, came: &mut String) -> Result<bool, Bad> {
    let Some(status) = status_of(text) else {
        return Ok(false);
    };
    write!(came, "{:#x}", status.number())?;
    Ok(true)
}

/// Does a case that looks at a table.
fn do_look(tasks: &Tasks, verb: &str, rest: &str, came: &mut String) -> Result<bool, Bad> {
    match verb {
        "each" => tell_each(tasks, came)?,
        "live" => write!(came, "{}", tasks.live())?,
        "last" => write!(came, "{}", tasks.last())?,
        "is_full" => write!(came, "{}", tasks.is_full())?,
        "status" => return do_status(rest, came),
        _ => return do_number(tasks, verb, rest, came),
    }
    Ok(true)
}

impl Family {
    /// No tasks.
    pub fn new(alloc: Global) -> Family {
        Family {
            tasks: Tasks::new(alloc),
        }
    }

    /// Does a case; whether it is one.
    pub fn do_case(&mut self, alloc: Global, case: &str, came: &mut String) -> Result<bool, Bad> {
        let (verb, rest) = parted(case);
        let tasks = &mut self.tasks;
        match verb {
            "open" => {
                tell_made(came, open(tasks))?;
                Ok(true)
            }
            "fork" | "thread" | "fork_in_vain" | "thread_in_vain" => {
                do_making(tasks, verb, rest, came)
            }
            "forks" => do_forks(tasks, rest, came),
            "set_clear" | "set_cwd" | "set_memory" => Ok(do_set(tasks, verb, rest)),
            _ => {
                if do_ending(alloc, tasks, verb, rest, came)? {
                    return Ok(true);
                }
                do_look(tasks, verb, rest, came)
            }
        }
    }
}
