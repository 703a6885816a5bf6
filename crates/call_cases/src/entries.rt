//! Entries, and whether they fit.
//!
//! `run COUNT`, `end SIGNAL` and `sleep` of a task; and `try CALL REPLY` and `try CALL REPLY rise COUNT`, the entry of
//! a call in which so many calls of the root failed.

use crate::calls::{args_of, quiet, read_call, step};
use crate::numbers::{small, value};
use kernel_model::{Entry, Given, Rise};
use plain_kernel::Plain;
use read_cases::{Bad, parted};
use sn_base::Memory;
use std::alloc::Global;

/// What a call met: so many failed calls of the root, if any.
fn risen(alloc: Global, count: u64) -> Result<Given, Memory> {
    let mut given = quiet(alloc);
    if count > 0 {
        given.rises.push(Rise { ino: 1, count })?;
    }
    Ok(given)
}

/// The reply and the rise behind a call.
fn replied(text: &str) -> Option<(i64, u64)> {
    let (reply, rest) = parted(text);
    let reply = value(reply, 0)?.cast_signed();
    if rest.is_empty() {
        return Some((reply, 0));
    }
    Some((reply, value(rest.strip_prefix("rise ")?, 0)?))
}

/// The call, up to its last bracket, and what stands behind it.
fn called(text: &str) -> Option<(&str, &str)> {
    let (_, behind) = text.split_once(") ")?;
    let end = text.len().checked_sub(behind.len())?.checked_sub(1)?;
    Some((text.get(..end)?, behind))
}

/// The entry of a call.
fn call_entry(alloc: Global, task: u32, text: &str) -> Result<Option<Entry>, Memory> {
    let Some((call, behind)) = called(text) else {
        return Ok(None);
    };
    let (Some(call), Some((reply, rise))) = (read_call(call, 0), replied(behind)) else {
        return Ok(None);
    };
    Ok(Some(Entry::Call {
        task,
        no: call.no,
        args: args_of(call.args),
        given: risen(alloc, rise)?,
        reply,
    }))
}

/// The end of a task by a signal.
fn end_entry(task: u32, text: &str) -> Option<Entry> {
    let signal = u8::try_from(small(text)?).ok()?;
    Some(Entry::End { task, signal })
}

/// A run of a task.
fn run_entry(task: u32, text: &str) -> Option<Entry> {
    Some(Entry::Run {
        task,
        n: small(text)?,
    })
}

/// The entry that a case tries, where it is one.
fn entry(alloc: Global, task: u32, verb: &str, rest: &str) -> Result<Option<Entry>, Memory> {
    match verb {
        "run" => Ok(run_entry(task, rest)),
        "end" => Ok(end_entry(task, rest)),
        "sleep" => Ok(Some(Entry::Sleep { task })),
        "try" => call_entry(alloc, task, rest),
        _ => Ok(None),
    }
}

/// Tries an entry of a task: whether it fits, or nothing where the case is none.
pub fn try_entry(
    alloc: Global,
    plain: &mut Plain,
    task: u32,
    verb: &str,
    rest: &str,
) -> Result<Option<bool>, Bad> {
    match entry(alloc, task, verb, rest)? {
        Some(entry) => Ok(Some(step(alloc, plain, &entry)?)),
        None => Ok(None),
    }
}
