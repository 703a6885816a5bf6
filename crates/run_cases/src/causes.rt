//! The words of a command, and the lines of causes, without a run.

use crate::prints::print_bytes;
use crate::setup::words_of;
use read_cases::Bad;
use sentry_run::{Fault, read_words, report, write_line};
use std::alloc::Global;

/// The command that words are: the name of its mount file, how many workers, and whether it prints its trace.
pub fn print_command(alloc: Global, text: &mut String, line: &str) -> Result<(), Bad> {
    let words = words_of(alloc, line)?;
    match read_words(words.as_slice()) {
        Some(command) => {
            let trace = if command.trace { ", traced" } else { "" };
            let workers = command.workers;
            write!(text, "{} by {workers}{trace}", command.mounts)?;
        }
        None => text.push_str("none")?,
    }
    Ok(())
}

/// The line of a cause, or that it has none.
pub fn print_cause(alloc: Global, text: &mut String, fault: Fault) -> Result<(), Bad> {
    let mut line = Vec::new(alloc);
    write_line(&mut line, fault)?;
    if line.is_empty() {
        text.push_str("nothing")?;
    }
    print_bytes(text, line.as_slice())?;
    Ok(())
}

/// The status and the line of want of memory, which no run here comes to.
pub fn print_memory(alloc: Global, text: &mut String) -> Result<(), Bad> {
    write!(text, "{} ", Fault::Memory.status())?;
    print_cause(alloc, text, Fault::Memory)
}

/// Reports a cause to standard error.
pub fn report_cause(rt: &HostRuntime, text: &mut String, fault: Fault) -> Result<(), Bad> {
    report(*rt, fault)?;
    text.push_str("reported")?;
    Ok(())
}
