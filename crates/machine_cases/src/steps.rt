//! Single steps of a task.

use crate::numbers::word;
use crate::task::Task;
use crate::told::{tell_changes, tell_step};
use read_cases::{Bad, parted};
use rv_exec::Step;

/// Does a step behind these keys, and tells what it came to and what it changed.
fn step(task: &mut Task, keys: &str, came: &mut String) -> Result<(), Bad> {
    if !task.set_all(keys) {
        return Ok(came.push_str("unread")?);
    }
    let before = *task;
    let step = task.step();
    let awaited = match step {
        Step::Next => before.regs.pc.wrapping_add(4),
        _ => before.regs.pc,
    };
    tell_step(came, step)?;
    Ok(tell_changes(came, &before, task, awaited)?)
}

/// A step at a word, of a task anew or of the one that is there.
fn step_at_word(task: &mut Task, verb: &str, rest: &str, came: &mut String) -> Result<(), Bad> {
    let (code, keys) = parted(rest);
    let Some(code) = word(code) else {
        return Ok(came.push_str("unread")?);
    };
    match verb {
        "step" => *task = Task::at_word(code),
        _ => task.put_word(code),
    }
    step(task, keys, came)
}

/// Does a case of a step.
pub fn answer(task: &mut Task, verb: &str, rest: &str, came: &mut String) -> Result<(), Bad> {
    match verb {
        "again" => step(task, rest, came),
        _ => step_at_word(task, verb, rest, came),
    }
}
