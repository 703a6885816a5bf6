//! Runs of a page's decoded words.

use crate::numbers::word;
use crate::rows::row_of;
use crate::task::Task;
use crate::told::{tell_changes, tell_flow};
use read_cases::{Bad, number, parted};
use rv_exec::{RowRun, Step, run_row};
use std::alloc::Global;

/// A task at the word of that number of a page, where these words stand from there on: `ADDRESS NUMBER WORD ..`.
fn page(text: &str) -> Option<Task> {
    let (from, rest) = parted(text);
    let (first, words) = parted(rest);
    let first = number(first)?;
    let mut task = Task::at_page(number(from)?, first);
    let mut place = first;
    for code in words.split(' ') {
        task.memory.put_word(place as usize, word(code)?);
        place = place.wrapping_add(1);
    }
    Some(task)
}

/// A task at the begin of a page of which each word is that: `ADDRESS WORD`.
fn filled(text: &str) -> Option<Task> {
    let (from, code) = parted(text);
    let mut task = Task::at_page(number(from)?, 0);
    let code = word(code)?;
    for place in 0..1024 {
        task.memory.put_word(place, code);
    }
    Some(task)
}

/// Puts down a task at a page, if there is one.
fn put_down(start: &mut Task, task: Option<Task>, came: &mut String) -> Result<(), Bad> {
    match task {
        Some(task) => *start = task,
        None => came.push_str("unread")?,
    }
    Ok(())
}

/// Runs the words of a task's page, at most so many, where the task stands in a page of words.
fn run_page(alloc: Global, task: &mut Task, most: u32) -> Result<Option<RowRun>, Bad> {
    match row_of(alloc, &task.memory.code, task.regs.pc / 4096)? {
        Some(row) => Ok(Some(run_row(&mut task.regs, &mut task.memory, &row, most))),
        None => Ok(None),
    }
}

/// Whether a task comes, by so many steps, each of which moves on, to what it came to.
fn is_stepped(before: &Task, after: &Task, count: u32) -> bool {
    let mut task = *before;
    for _ in 0..count {
        if task.step() != Step::Next {
            return false;
        }
    }
    let memory = &task.memory;
    task.regs == after.regs
        && memory.code == after.memory.code
        && memory.data == after.memory.data
        && memory.reserved == after.memory.reserved
}

/// Tells how many instructions a run did, where it ended, and what it changed.
fn tell_run(came: &mut String, run: RowRun, before: &Task, after: &Task) -> Result<(), Bad> {
    write!(came, "{} ", run.count)?;
    tell_flow(came, run.flow)?;
    tell_changes(came, before, after, before.regs.pc)?;
    if !is_stepped(before, after, run.count) {
        came.push_str(", which its steps do not")?;
    }
    Ok(())
}

/// Does a run of at most so many instructions behind these keys: `MOST KEY=VALUE ..`.
fn run(alloc: Global, task: &mut Task, rest: &str, came: &mut String) -> Result<(), Bad> {
    let (most, keys) = parted(rest);
    let Ok(most) = u32::from_str_radix(most, 10) else {
        return Ok(came.push_str("unread")?);
    };
    if !task.set_all(keys) {
        return Ok(came.push_str("unread")?);
    }
    let before = *task;
    match run_page(alloc, task, most)? {
        Some(run) => tell_run(came, run, &before, task),
        None => Ok(came.push_str("no page of words")?),
    }
}

/// A task, and what it is set to where a run begins anew.
#[derive(Clone, Copy)]
pub struct Runner {
    pub task: Task,
    start: Task,
}

impl Runner {
    /// A task at a word of zeros.
    pub fn new() -> Runner {
        let task = Task::at_word(0);
        Runner { task, start: task }
    }

    /// Does a case of a run.
    pub fn answer(
        &mut self,
        alloc: Global,
        verb: &str,
        rest: &str,
        came: &mut String,
    ) -> Result<(), Bad> {
        match verb {
            "page" => put_down(&mut self.start, page(rest), came),
            "fill" => put_down(&mut self.start, filled(rest), came),
            "with" => {
                if !self.start.set_all(rest) {
                    came.push_str("unread")?;
                }
                Ok(())
            }
            "run" => {
                self.task = self.start;
                run(alloc, &mut self.task, rest, came)
            }
            _ => run(alloc, &mut self.task, rest, came),
        }
    }
}
