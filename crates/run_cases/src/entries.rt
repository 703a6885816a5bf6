//! Parts of a run's record, as text: its entries, and what its opening drew and met.

use crate::prints::{print_bytes, separate};
use kernel_model::{Entry, Fresh, OpenedTask, Opening};
use std::alloc::AllocError;

/// `run TASK COUNT`, `call TASK NUMBER REPLY`, `sleep TASK`, or `end TASK SIGNAL`.
fn print_entry(text: &mut String, entry: &Entry) -> Result<(), AllocError> {
    match entry {
        Entry::Run { task, n } => write!(text, "run {task} {n}"),
        Entry::Call {
            task,
            no,
            reply,
            ..
        } => write!(text, "call {task} {no} {reply}"),
        Entry::Sleep { task } => write!(text, "sleep {task}"),
        Entry::End { task, signal } => write!(text, "end {task} {signal}"),
    }
}

/// Entries, with `; ` between.
pub fn print_entries(text: &mut String, entries: &[Entry]) -> Result<(), AllocError> {
    for (index, entry) in entries.iter().enumerate() {
        if index > 0 {
            text.push_str("; ")?;
        }
        print_entry(text, entry)?;
    }
    Ok(())
}

/// The tasks of entries.
pub fn print_turns(text: &mut String, trace: &[Entry]) -> Result<(), AllocError> {
    for entry in trace {
        separate(text)?;
        write!(text, "{}", entry.task())?;
    }
    Ok(())
}

/// The inode numbers that an opening gave: of the roots, and those that its tasks drew.
pub fn print_numbers(text: &mut String, opening: &Opening) -> Result<(), AllocError> {
    for root in opening.roots.as_slice() {
        separate(text)?;
        write!(text, "{root}")?;
    }
    for opened in opening.tasks.as_slice() {
        for fresh in opened.given.fresh.as_slice() {
            separate(text)?;
            write!(text, "{}", fresh.ino)?;
        }
    }
    Ok(())
}

fn print_fresh(text: &mut String, fresh: &Fresh) -> Result<(), AllocError> {
    separate(text)?;
    write!(text, "{}:", fresh.dir)?;
    print_bytes(text, fresh.name.as_bytes())?;
    write!(text, "={}", fresh.ino)
}

/// How many numbers a task drew.
pub fn print_count(text: &mut String, opened: &OpenedTask) -> Result<(), AllocError> {
    write!(text, "{}", opened.given.fresh.len())
}

/// The numbers that it drew: each with its directory's, and its name.
pub fn print_draws(text: &mut String, opened: &OpenedTask) -> Result<(), AllocError> {
    if opened.given.fresh.is_empty() {
        return text.push_str("nothing");
    }
    for fresh in opened.given.fresh.as_slice() {
        print_fresh(text, fresh)?;
    }
    Ok(())
}

/// The rises that it met: each node's number and by how much.
pub fn print_rises(text: &mut String, opened: &OpenedTask) -> Result<(), AllocError> {
    if opened.given.rises.is_empty() {
        return text.push_str("nothing");
    }
    for rise in opened.given.rises.as_slice() {
        separate(text)?;
        write!(text, "{}:{}", rise.ino, rise.count)?;
    }
    Ok(())
}

/// How many words it was opened with, and the first of them.
pub fn print_words(text: &mut String, opened: &OpenedTask) -> Result<(), AllocError> {
    write!(text, "{}", opened.words.len())?;
    match opened.words.get(0) {
        Some(word) => {
            text.push_str(" ")?;
            print_bytes(text, word.as_bytes())
        }
        None => Ok(()),
    }
}
