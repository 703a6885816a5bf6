//! The words of the command line, and the command that they are.

ghost use Rattle.std.specs.Prelude.{◌≡◌, option_map, map, string_bytes, IfErr};
ghost use Rattle.kernel_model.specs.Words.{accepted, is_option, workers_of, traced, options};
ghost use Rattle.sentry_run.specs.Command.{command_of};
ghost use Rattle.sentry_run.specs.Untold.{IsMemoryWhere, IsUntold};

use crate::outcome::Fault;
use std::io::ErrorKind;
use std::{env, io};

/// The words after the program's name, as the system tells them. Words that it can't tell are no command.
pub fn told_words(rt: HostRuntime) -> Result<Vec<String>, Fault>
    ensures { IfErr result IsUntold }
{
    match words_from(rt) {
        Ok(words) => Ok(words),
        Err(error) => Err(untold(error)),
    }
}

/// What an error of the system is where it is asked for the words: of the kind `OutOfMemory` it is want of memory, else
/// they are no command.
fn untold(error: io::Error) -> Fault
    ensures memory { IsMemoryWhere error result }
    ensures untold { IsUntold result }
{
    if error.kind() == ErrorKind::OutOfMemory {
        Fault::Memory
    } else {
        Fault::Usage
    }
}

fn words_from(rt: HostRuntime) -> io::Result<Vec<String>> {
    let mut words = Vec::new(rt.alloc());
    for word in env::args(&rt)?.skip(1) {
        words.push(word)?;
    }
    Ok(words)
}

/// The workers of a run whose command line names none.
const WORKERS: u32 = 4;

/// A run that the command line asks for: the name of its mount file, how many workers, from 1 to 16, and
/// whether the trace is printed.
#[derive(Clone, Copy, Debug, PartialEq, Eq)]
pub struct Command<'a> {
    pub mounts: &'a str,
    pub workers: u32,
    pub trace: bool,
}

/// The command that the words after the program's name are: `run MOUNTS [--workers N] [--trace]`, in this
/// order, where `MOUNTS` doesn't begin with a dash and `N` is 1 to 16 in decimal, with no sign and no leading
/// zero (POSIX.1-2017, 12.2, Utility Syntax Guidelines). `None` where they are no command. It takes no memory.
pub fn read_words(words: &[String]) -> Option<Command<'_>>
    ensures { option_map command_of result ≡ accepted (map string_bytes words.now) }
{
    match words {
        [run, mounts, more @ ..] => {
            if run.as_str() == "run" && !is_option(mounts.as_str()) {
                read_options(mounts.as_str(), more)
            } else {
                None
            }
        }
        _ => None,
    }
}

fn is_option(word: &str) -> bool
    ensures { result ≡ is_option word.now }
{
    match word.as_bytes() {
        [first, ..] => *first == b'-',
        [] => false,
    }
}

fn read_options<'a>(mounts: &'a str, words: &[String]) -> Option<Command<'a>>
    ensures { option_map command_of result ≡ options mounts.now (map string_bytes words.now) }
{
    match words {
        [option, number, more @ ..] => {
            if option.as_str() == "--workers" {
                read_trace(mounts, read_workers(number.as_str())?, more)
            } else {
                None
            }
        }
        _ => read_trace(mounts, WORKERS, words),
    }
}

fn read_workers(word: &str) -> Option<u32>
    ensures { result ≡ workers_of word.now }
{
    match word.as_bytes() {
        [digit] if (b'1'..=b'9').contains(digit) => Some(u32::from(*digit - b'0')),
        [b'1', digit] if (b'0'..=b'6').contains(digit) => Some(10 + u32::from(*digit - b'0')),
        _ => None,
    }
}

fn read_trace<'a>(mounts: &'a str, workers: u32, words: &[String]) -> Option<Command<'a>>
    ensures { option_map command_of result ≡ traced mounts.now workers (map string_bytes words.now) }
{
    let trace = match words {
        [] => false,
        [word] if word.as_str() == "--trace" => true,
        _ => return None,
    };
    Some(Command {
        mounts,
        workers,
        trace,
    })
}
