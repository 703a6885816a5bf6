//! States and traces by lines, and their text.

use crate::prints::print_bytes;
use futex_core::Waiters;
use kernel_model::{Args, Entry, Given, Kernel, Named, OpenFiles};
use read_cases::{Bad, add_bytes, number, parted};
use sentry_run::printed_text;
use sn_base::{List, Made, Map};
use std::alloc::Global;
use task_table::{Status, Tasks};

/// A state's console and thread groups, how each of these ended if it did, and a trace.
pub struct State {
    console: Vec<u8>,
    groups: Vec<Option<Status>>,
    trace: List<Entry>,
}

/// Lets all of it go by one call.
impl Drop for State {
    fn drop(self) {
        let State {
            console: _,
            groups: _,
            trace: _,
        } = self;
    }
}

/// How a group ended: `exit N`, `signal N`, or `live`; `None` where it is none of these.
fn ended_of(text: &str) -> Option<Option<Status>> {
    let (how, number) = parted(text);
    match (how, u8::from_str_radix(number, 10)) {
        ("exit", Ok(status)) => Some(Some(Status::Exited(status))),
        ("signal", Ok(signal)) => Some(Some(Status::Killed(signal))),
        ("live", _) => Some(None),
        _ => None,
    }
}

/// A call of task 1: `NUMBER FIRST REPLY`, all other arguments 0.
fn call_of(alloc: Global, text: &str) -> Option<Entry> {
    let (no, rest) = parted(text);
    let (first, reply) = parted(rest);
    let args = Args {
        a0: number(first)?,
        a1: 0,
        a2: 0,
        a3: 0,
        a4: 0,
        a5: 0,
    };
    let no = number(no)?;
    let reply = i64::from_str_radix(reply, 10).ok()?;
    let given = Given {
        fresh: List::new(alloc),
        rises: List::new(alloc),
    };
    Some(Entry::Call {
        task: 1,
        no,
        args,
        given,
        reply,
    })
}

/// An entry of task 1: `run COUNT`, `sleep`, `end SIGNAL`, or `call NUMBER FIRST REPLY`.
fn entry_of(alloc: Global, text: &str) -> Option<Entry> {
    let (kind, rest) = parted(text);
    match kind {
        "run" => {
            let n = u32::from_str_radix(rest, 10).ok()?;
            Some(Entry::Run { task: 1, n })
        }
        "sleep" => Some(Entry::Sleep { task: 1 }),
        "end" => {
            let signal = u8::from_str_radix(rest, 10).ok()?;
            Some(Entry::End { task: 1, signal })
        }
        "call" => call_of(alloc, rest),
        _ => None,
    }
}

/// Makes a thread group, which ends so.
fn add_group(alloc: Global, tasks: &mut Tasks, ended: Option<Status>) -> Result<(), Bad> {
    if tasks.last() > 1000 {
        return Err(Bad::Setup);
    }
    let made = Made { place: 0, index: 0 };
    let Ok(number) = tasks.open(made, made, 1) else {
        return Err(Bad::Setup);
    };
    let Some(status) = ended else {
        return Ok(());
    };
    let Some(group) = tasks.group(number) else {
        return Err(Bad::Setup);
    };
    if group.ended.is_some() {
        return Err(Bad::Setup);
    }
    tasks.end_group(alloc, number, status)?;
    Ok(())
}

fn tasks_of(alloc: Global, groups: &[Option<Status>]) -> Result<Tasks, Bad> {
    let mut tasks = Tasks::new(alloc);
    for ended in groups {
        add_group(alloc, &mut tasks, *ended)?;
    }
    Ok(tasks)
}

impl State {
    /// One of nothing.
    pub fn new(alloc: Global) -> State {
        State {
            console: Vec::new(alloc),
            groups: Vec::new(alloc),
            trace: List::new(alloc),
        }
    }

    /// Does a line; whether it is one of a state: `console BYTE ..`, `group exit N`, `group signal N`, `group live`, or
    /// `made ENTRY`.
    pub fn set(&mut self, alloc: Global, verb: &str, rest: &str) -> Result<bool, Bad> {
        match verb {
            "console" => add_bytes(&mut self.console, rest),
            "group" => self.add_group(rest),
            "made" => self.add_entry(alloc, rest),
            _ => Ok(false),
        }
    }

    fn add_group(&mut self, text: &str) -> Result<bool, Bad> {
        match ended_of(text) {
            Some(ended) => {
                self.groups.push(ended)?;
                Ok(true)
            }
            None => Ok(false),
        }
    }

    fn add_entry(&mut self, alloc: Global, text: &str) -> Result<bool, Bad> {
        match entry_of(alloc, text) {
            Some(entry) => {
                self.trace.push(entry)?;
                Ok(true)
            }
            None => Ok(false),
        }
    }

    fn kernel(&self, alloc: Global) -> Result<Kernel, Bad> {
        let tasks = tasks_of(alloc, self.groups.as_slice())?;
        let console = List::from_slice(alloc, self.console.as_slice())?;
        Ok(Kernel {
            tasks,
            registers: Map::new(alloc),
            spaces: Named::new(alloc),
            areas: Named::new(alloc),
            files: OpenFiles::new(alloc),
            nodes: Map::new(alloc),
            sleepers: Waiters::new(alloc),
            console,
            failed: Map::new(alloc),
            mounts: List::new(alloc),
            seed: List::new(alloc),
            entries: 0,
        })
    }

    /// Adds the text of the state, with the trace where it is asked for.
    pub fn print(&self, alloc: Global, text: &mut String, is_traced: bool) -> Result<(), Bad> {
        let kernel = self.kernel(alloc)?;
        let printed = printed_text(alloc, &kernel, &self.trace, is_traced)?;
        if printed.is_empty() {
            text.push_str("nothing")?;
        }
        print_bytes(text, printed.as_slice())?;
        Ok(())
    }
}
