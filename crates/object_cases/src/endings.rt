//! What ends tasks and thread groups, and waits for children. Tasks are told with their clear words, as `2:0x2000`.
//!
//! - `exit TASK CODE`, `end_group GROUP STATUS`, `end_others TASK`: tasks that ended, and `group` where a group did;
//! - `close GROUP STATUS`, `leave TASK STATUS` end them as well, and come to nothing;
//! - `members GROUP`, `itself TASK`: the tasks that would end; `is_last TASK`: whether it is the last of its group;
//! - `reap PARENT CHILD`, `child_to_reap PARENT CHILD`, where the child may be `any`: the child and how it ended, or
//!   `not_yet`, or `no_child`.

ghost use Rattle.std.specs.Prelude.{IsTrue, IsFalse};
ghost use Rattle.std.specs.FinMap as map;
ghost use Rattle.task_table.specs.Table.{has_ended};

use crate::notation::{small, space, tell_bool};
use crate::tasks::{lives, status_of, tell_status};
use read_cases::{Bad, parted};
use std::alloc::Global;
use task_table::{Ended, EndedTask, ReapEnd, Status, Tasks};

/// Whether a thread group is there and hasn't ended.
fn goes_on(tasks: &Tasks, number: u32) -> bool
    ensures there { IsTrue result → IsTrue (map.contains_key tasks.now.groups number) }
    ensures lives { IsTrue result → IsFalse (has_ended tasks.now.groups number) }
{
    match tasks.group(number) {
        Some(group) => group.ended.is_none(),
        None => false,
    }
}

/// Tells tasks, or `none`.
fn tell_tasks(came: &mut String, tasks: &[EndedTask]) -> Result<(), Bad> {
    if tasks.is_empty() {
        came.push_str("none")?;
    }
    for task in tasks {
        space(came)?;
        write!(came, "{}:{:#x}", task.task, task.clear)?;
    }
    Ok(())
}

fn tell_ended(came: &mut String, ended: &Ended) -> Result<(), Bad> {
    tell_tasks(came, ended.tasks.as_slice())?;
    if ended.group {
        came.push_str(" group")?;
    }
    Ok(())
}

fn exit(alloc: Global, tasks: &mut Tasks, text: &str, came: &mut String) -> Result<bool, Bad> {
    let (task, code) = parted(text);
    let (Some(task), Ok(code)) = (small(task), u8::from_str_radix(code, 10)) else {
        return Ok(false);
    };
    if !lives(tasks, task) {
        return Ok(false);
    }
    let ended = tasks.exit(alloc, task, code)?;
    tell_ended(came, &ended)?;
    Ok(true)
}

fn end_others(
    alloc: Global,
    tasks: &mut Tasks,
    text: &str,
    came: &mut String,
) -> Result<bool, Bad> {
    let Some(task) = small(text) else {
        return Ok(false);
    };
    if !lives(tasks, task) {
        return Ok(false);
    }
    let ended = tasks.end_others(alloc, task)?;
    tell_ended(came, &ended)?;
    Ok(true)
}

/// A number and a status.
fn ending(text: &str) -> Option<(u32, Status)> {
    let (number, status) = parted(text);
    Some((small(number)?, status_of(status)?))
}

fn end_group(alloc: Global, tasks: &mut Tasks, text: &str, came: &mut String) -> Result<bool, Bad> {
    let Some((group, status)) = ending(text) else {
        return Ok(false);
    };
    if !goes_on(tasks, group) {
        return Ok(false);
    }
    let ended = tasks.end_group(alloc, group, status)?;
    tell_ended(came, &ended)?;
    Ok(true)
}

fn close(tasks: &mut Tasks, text: &str) -> bool {
    let Some((group, status)) = ending(text) else {
        return false;
    };
    let is_there = goes_on(tasks, group);
    if is_there {
        tasks.close(group, status);
    }
    is_there
}

fn leave(tasks: &mut Tasks, text: &str) -> bool {
    let Some((task, status)) = ending(text) else {
        return false;
    };
    let is_there = lives(tasks, task);
    if is_there {
        tasks.leave(task, status);
    }
    is_there
}

fn members(alloc: Global, tasks: &Tasks, text: &str, came: &mut String) -> Result<bool, Bad> {
    let Some(group) = small(text) else {
        return Ok(false);
    };
    let listed = tasks.members(alloc, group)?;
    tell_tasks(came, listed.as_slice())?;
    Ok(true)
}

fn itself(alloc: Global, tasks: &Tasks, text: &str, came: &mut String) -> Result<bool, Bad> {
    let Some(task) = small(text) else {
        return Ok(false);
    };
    if !lives(tasks, task) {
        return Ok(false);
    }
    let listed = tasks.itself(alloc, task)?;
    tell_tasks(came, listed.as_slice())?;
    Ok(true)
}

fn is_last(tasks: &Tasks, text: &str, came: &mut String) -> Result<bool, Bad> {
    let Some(task) = small(text) else {
        return Ok(false);
    };
    tell_bool(came, tasks.is_last(task))?;
    Ok(true)
}

/// Who waits, and for which child, where not for any.
fn waiting(text: &str) -> Option<(u32, Option<u32>)> {
    let (parent, child) = parted(text);
    let parent = small(parent)?;
    if child == "any" {
        return Some((parent, None));
    }
    Some((parent, Some(small(child)?)))
}

fn tell_reaped(came: &mut String, end: ReapEnd) -> Result<(), Bad> {
    match end {
        ReapEnd::Reaped { child, status } => {
            write!(came, "{child} ")?;
            tell_status(came, status)?;
        }
        ReapEnd::NotYet => came.push_str("not_yet")?,
        ReapEnd::NoChild => came.push_str("no_child")?,
    }
    Ok(())
}

fn reap(tasks: &mut Tasks, text: &str, came: &mut String) -> Result<bool, Bad> {
    let Some((parent, child)) = waiting(text) else {
        return Ok(false);
    };
    tell_reaped(came, tasks.reap(parent, child))?;
    Ok(true)
}

fn child_to_reap(tasks: &Tasks, text: &str, came: &mut String) -> Result<bool, Bad> {
    let Some((parent, child)) = waiting(text) else {
        return Ok(false);
    };
    tell_reaped(came, tasks.child_to_reap(parent, child))?;
    Ok(true)
}

/// Does a case that changes a table, or else one that looks at it.
pub fn do_ending(
    alloc: Global,
    tasks: &mut Tasks,
    verb: &str,
    rest: &str,
    came: &mut String,
) -> Result<bool, Bad> {
    match verb {
        "exit" => exit(alloc, tasks, rest, came),
        "end_group" => end_group(alloc, tasks, rest, came),
        "end_others" => end_others(alloc, tasks, rest, came),
        "close" => Ok(close(tasks, rest)),
        "leave" => Ok(leave(tasks, rest)),
        "reap" => reap(tasks, rest, came),
        _ => do_look(alloc, tasks, verb, rest, came),
    }
}

fn do_look(
    alloc: Global,
    tasks: &Tasks,
    verb: &str,
    rest: &str,
    came: &mut String,
) -> Result<bool, Bad> {
    match verb {
        "members" => members(alloc, tasks, rest, came),
        "itself" => itself(alloc, tasks, rest, came),
        "is_last" => is_last(tasks, rest, came),
        "child_to_reap" => child_to_reap(tasks, rest, came),
        _ => Ok(false),
    }
}
