//! What is put into the state, of which nothing comes where it was:
//!
//! - `at PLACE`: the next entry has that place; `seed HEX ..`: the key of the random stream;
//! - `fork TASK`: the next task is a process of that one which shares its memory and its descriptor table, as no call
//!   makes one; `thread TASK`: the next task is a thread of it;
//! - `console COUNT`: the console has so many zeros; `registers`: the registers are 1,001, 1,002 and so on;
//! - `stand ADDRESS A0 A1`: the task stands there, with these in a0 and a1;
//! - `area PLACE ADDRESS LENGTH`: the area that the entry of a place made is mapped once more;
//! - `opens console` and `opens node`: the lowest free number is of the console, or of a node, to read and to write;
//! - `closes table`: the task's descriptor table is not there;
//! - `ends GROUP exited CODE` and `ends GROUP killed SIGNAL`: a thread group ends so, with its tasks.

ghost use Rattle.std.specs.Prelude.{◌-◌, ◌<◌, ◌^◌, IsTrue, IsFalse};
ghost use Rattle.std.specs.FinMap as map;
ghost use Rattle.task_table.specs.Table.{has_ended, is_live};

use crate::instructions::{Instruction, stand};
use crate::numbers::{small, value};
use fd_table::{AccessMode, Description, Descriptor, Object};
use kernel_model::{Kernel, OpenFile};
use mm_areas::{Backing, Rights};
use read_cases::{Bad, add_bytes};
use rv_table::Area;
use sn_base::{List, Made};
use std::alloc::Global;
use task_table::{Group, Status, Tasks};

/// The thread group of a task.
pub fn group_of(kernel: &Kernel, task: u32) -> Option<Group> {
    let number = kernel.tasks.task(task)?.group;
    kernel.tasks.group(number).copied()
}

/// Whether a task lives and there is a number left for another.
fn may_make(tasks: &Tasks, number: u32) -> bool
    ensures lives { IsTrue result → IsTrue (is_live tasks.now.tasks number) }
    ensures next { IsTrue result → tasks.now.last < 2 ^ 31 - 1 }
{
    match tasks.task(number) {
        Some(task) => task.live && tasks.last() < 2_147_483_647,
        None => false,
    }
}

/// Makes a process that shares all, or a thread; its number.
fn make(kernel: &mut Kernel, task: u32, is_thread: bool) -> Result<u32, Bad> {
    let Some(group) = group_of(kernel, task) else {
        return Err(Bad::Setup);
    };
    if !may_make(&kernel.tasks, task) {
        return Err(Bad::Setup);
    }
    let made = if is_thread {
        kernel.tasks.thread(task, 0)
    } else {
        kernel.tasks.fork(task, group.memory, group.table, 0)
    };
    made.map_err(|_| Bad::Setup)
}

/// Makes it, with the registers of its maker.
fn add_task(kernel: &mut Kernel, text: &str, is_thread: bool) -> Result<bool, Bad> {
    let Some(task) = small(text) else {
        return Ok(false);
    };
    let Some(registers) = kernel.registers.get(u64::from(task)).copied() else {
        return Ok(false);
    };
    let number = make(kernel, task, is_thread)?;
    kernel.registers.insert(u64::from(number), registers)?;
    Ok(true)
}

/// The next entry has that place.
fn put_place(kernel: &mut Kernel, text: &str) -> bool {
    match value(text, 0) {
        Some(place) if place > 0 => {
            kernel.entries = place.wrapping_sub(1);
            true
        }
        _ => false,
    }
}

fn put_seed(alloc: Global, kernel: &mut Kernel, text: &str) -> Result<bool, Bad> {
    let mut bytes = Vec::new(alloc);
    let is_read = add_bytes(&mut bytes, text)?;
    kernel.seed = List::from_vec(bytes);
    Ok(is_read)
}

fn put_zeros(alloc: Global, kernel: &mut Kernel, text: &str) -> Result<bool, Bad> {
    let Some(count) = value(text, 0) else {
        return Ok(false);
    };
    kernel.console = List::from_vec(vec![in alloc; 0u8; count as usize]?);
    Ok(true)
}

/// The registers x1 to x31 are 1,001 to 1,031.
fn put_registers(kernel: &mut Kernel, task: u32) -> bool {
    let Some(registers) = kernel.registers.get_mut(u64::from(task)) else {
        return false;
    };
    for number in 1..32_u64 {
        registers.x[number as usize] = 1000 + number;
    }
    true
}

/// The task stands there.
fn put_standing(kernel: &mut Kernel, task: u32, text: &str) -> Option<bool> {
    let (at, rest) = text.split_once(' ')?;
    let (address, second) = rest.split_once(' ')?;
    let one = Instruction {
        at: value(at, 0)?,
        address: value(address, 0)?,
        value: value(second, 0)?,
    };
    Some(stand(kernel, task, &one))
}

/// Where an area is mapped once more, in the memory of a task.
fn map_area(
    alloc: Global,
    kernel: &mut Kernel,
    task: u32,
    place: u64,
    at: u64,
    length: u64,
) -> Result<bool, Bad> {
    let Some(group) = group_of(kernel, task) else {
        return Ok(false);
    };
    let Made { place: of, index } = group.memory;
    let Some(memory) = kernel.spaces.get_mut(of, index) else {
        return Ok(false);
    };
    let area = Area { place, index: 0 };
    let rights = Rights::READ | Rights::WRITE;
    match memory
        .space
        .map(alloc, Some(at), length, rights, Backing::Of(area))
    {
        Ok(address) => Ok(address == at),
        Err(_) => Err(Bad::Setup),
    }
}

/// The place, the address and the length of an area.
fn area_of(text: &str) -> Option<(u64, u64, u64)> {
    let (place, rest) = text.split_once(' ')?;
    let (at, length) = rest.split_once(' ')?;
    Some((value(place, 0)?, value(at, 0)?, value(length, 0)?))
}

fn put_area(alloc: Global, kernel: &mut Kernel, task: u32, text: &str) -> Result<bool, Bad> {
    match area_of(text) {
        Some((place, at, length)) => map_area(alloc, kernel, task, place, at, length),
        None => Ok(false),
    }
}

/// A number is of an object, to read and to write, by a description that no entry made.
fn put_open(alloc: Global, kernel: &mut Kernel, task: u32, object: Object) -> Result<bool, Bad> {
    let Some(group) = group_of(kernel, task) else {
        return Ok(false);
    };
    let place = kernel.entries.wrapping_add(1_000_000);
    let description = Description {
        object,
        access: AccessMode::Both,
        append: false,
        nonblock: false,
        position: 0,
    };
    let file = OpenFile {
        description,
        descriptors: 1,
    };
    kernel.files.descriptions.insert(alloc, place, 0, file)?;
    let Made { place: of, index } = group.table;
    let Some(table) = kernel.files.tables.get_mut(of, index) else {
        return Ok(false);
    };
    let descriptor = Descriptor {
        description: Made { place, index: 0 },
        cloexec: false,
    };
    kernel.entries = kernel.entries.wrapping_add(1);
    Ok(table.install(0, descriptor).is_ok())
}

/// A task's descriptor table is not there.
fn put_no_table(kernel: &mut Kernel, task: u32) -> bool {
    match group_of(kernel, task) {
        Some(group) => kernel
            .files
            .tables
            .remove(group.table.place, group.table.index)
            .is_some(),
        None => false,
    }
}

/// Whether a thread group is there and lives.
fn group_lives(tasks: &Tasks, number: u32) -> bool
    ensures there { IsTrue result → IsTrue (map.contains_key tasks.now.groups number) }
    ensures lives { IsTrue result → IsFalse (has_ended tasks.now.groups number) }
{
    match tasks.group(number) {
        Some(group) => group.ended.is_none(),
        None => false,
    }
}

/// A thread group and how it ends.
fn end_of(text: &str) -> Option<(u32, Status)> {
    let (group, rest) = text.split_once(' ')?;
    let (how, number) = rest.split_once(' ')?;
    let number = u8::try_from(small(number)?).ok()?;
    match how {
        "exited" => Some((small(group)?, Status::Exited(number))),
        "killed" => Some((small(group)?, Status::Killed(number))),
        _ => None,
    }
}

/// A thread group ends.
fn put_end(kernel: &mut Kernel, text: &str) -> bool {
    let Some((group, status)) = end_of(text) else {
        return false;
    };
    if !group_lives(&kernel.tasks, group) {
        return false;
    }
    kernel.tasks.close(group, status);
    true
}

/// Puts something into the state; whether a line says what.
pub fn put(
    alloc: Global,
    kernel: &mut Kernel,
    task: u32,
    verb: &str,
    rest: &str,
) -> Result<bool, Bad> {
    match verb {
        "at" => Ok(put_place(kernel, rest)),
        "seed" => put_seed(alloc, kernel, rest),
        "fork" => add_task(kernel, rest, false),
        "thread" => add_task(kernel, rest, true),
        "console" => put_zeros(alloc, kernel, rest),
        "registers" => Ok(put_registers(kernel, task)),
        "stand" => Ok(put_standing(kernel, task, rest).unwrap_or(false)),
        "area" => put_area(alloc, kernel, task, rest),
        "opens" if rest == "console" => put_open(alloc, kernel, task, Object::Console),
        "opens" if rest == "node" => put_open(alloc, kernel, task, Object::Node(1)),
        "closes" => Ok(put_no_table(kernel, task)),
        "ends" => Ok(put_end(kernel, rest)),
        _ => Ok(false),
    }
}
