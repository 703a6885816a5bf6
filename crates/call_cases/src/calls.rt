//! Calls as cases write them, and what comes of one.

use crate::numbers::value;
use kernel_model::{Args, Entry, Given, Kernel};
use mount_file::MOST_ENTRIES;
use plain_kernel::{Ahead, Plain};
use read_cases::Bad;
use rv_table::Regs;
use sn_base::List;
use sn_errno::CallNo;
use std::alloc::Global;

/// A call: its number and its arguments.
#[derive(Clone, Copy)]
pub struct Asked {
    pub no: u64,
    pub args: [u64; 6],
}

/// What came of a call or an instruction.
///
/// - `Nothing`: its task has no entry.
/// - `Gives`: the instruction went on, and a2 has that.
/// - `Unfit`: what lay ahead of the task was refused as an entry.
#[derive(Clone, Copy, Debug, PartialEq, Eq)]
pub enum Came {
    Nothing,
    Runs,
    Gives(u64),
    Replies(i64),
    Traps(u8),
    Sleeps,
    Waits,
    Unfit,
}

/// The number of a call by its name.
fn numbered(name: &str) -> Option<u64> {
    for no in 0..300_u64 {
        if let Some(call) = CallNo::of(no) {
            if call.name() == name {
                return Some(no);
            }
        }
    }
    None
}

/// The number of a call by its name or its number.
fn call_number(text: &str, each: u64) -> Option<u64> {
    match numbered(text) {
        Some(no) => Some(no),
        None => value(text, each),
    }
}

/// Arguments between commas: those that are not there are ones.
fn arguments(text: &str, each: u64) -> Option<[u64; 6]> {
    let mut args = [u64::MAX; 6];
    if text.is_empty() {
        return Some(args);
    }
    for (index, word) in text.split(", ").enumerate() {
        *args.get_mut(index)? = value(word, each)?;
    }
    Some(args)
}

/// The name before a bracket, and what stands between that and the last.
pub fn bracketed(text: &str) -> Option<(&str, &str)> {
    let (name, rest) = text.split_once('(')?;
    Some((name, rest.strip_suffix(')')?))
}

/// A call, as `NAME(ARGUMENTS)`.
pub fn read_call(text: &str, each: u64) -> Option<Asked> {
    let (name, inner) = bracketed(text)?;
    Some(Asked {
        no: call_number(name, each)?,
        args: arguments(inner, each)?,
    })
}

/// Nothing drawn and nothing met.
pub fn quiet(alloc: Global) -> Given {
    Given {
        fresh: List::new(alloc),
        rises: List::new(alloc),
    }
}

/// The arguments of an entry.
pub fn args_of([a0, a1, a2, a3, a4, a5]: [u64; 6]) -> Args {
    Args {
        a0,
        a1,
        a2,
        a3,
        a4,
        a5,
    }
}

/// The arguments that a task's registers have.
fn args_in(registers: &Regs) -> Args {
    Args {
        a0: registers.x[10],
        a1: registers.x[11],
        a2: registers.x[12],
        a3: registers.x[13],
        a4: registers.x[14],
        a5: registers.x[15],
    }
}

/// The entry of the call that a task is at, with a reply.
fn entry_of(alloc: Global, kernel: &Kernel, task: u32, reply: i64) -> Option<Entry> {
    let registers = kernel.registers.get(u64::from(task))?;
    Some(Entry::Call {
        task,
        no: registers.x[17],
        args: args_in(registers),
        given: quiet(alloc),
        reply,
    })
}

/// What a task has ahead of it. It says nothing of how it came to be.
pub fn ahead(alloc: Global, plain: &mut Plain, task: u32) -> Result<Ahead, Bad> {
    if plain.kernel.entries >= MOST_ENTRIES {
        return Err(Bad::Setup);
    }
    Ok(plain.ahead(alloc, task)?)
}

/// Does an entry, and answers whether it fits.
pub fn step(alloc: Global, plain: &mut Plain, entry: &Entry) -> Result<bool, Bad> {
    if plain.kernel.entries >= MOST_ENTRIES {
        return Err(Bad::Setup);
    }
    Ok(plain.step(alloc, entry)?)
}

/// What is done comes to this, where it fits.
fn fitting(fits: bool, came: Came) -> Came {
    if fits { came } else { Came::Unfit }
}

/// Does the call that a task is at, which has that reply.
fn reply(alloc: Global, plain: &mut Plain, task: u32, value: i64) -> Result<Came, Bad> {
    match entry_of(alloc, &plain.kernel, task, value) {
        Some(entry) => Ok(fitting(step(alloc, plain, &entry)?, Came::Replies(value))),
        None => Ok(Came::Unfit),
    }
}

/// What comes of a trap, with which no run goes on.
fn trap(alloc: Global, plain: &mut Plain, task: u32, signal: u8) -> Result<Came, Bad> {
    let runs = step(alloc, plain, &Entry::Run { task, n: 1 })?;
    Ok(fitting(!runs, Came::Traps(signal)))
}

/// Does what a task has ahead of it, but for a trap.
pub fn go_on(alloc: Global, plain: &mut Plain, task: u32) -> Result<Came, Bad> {
    match ahead(alloc, plain, task)? {
        Ahead::Nothing => Ok(Came::Nothing),
        Ahead::Runs => {
            let fits = step(alloc, plain, &Entry::Run { task, n: 1 })?;
            Ok(fitting(fits, Came::Runs))
        }
        Ahead::Ends(signal) => trap(alloc, plain, task, signal),
        Ahead::Replies(value) => reply(alloc, plain, task, value),
        Ahead::Sleeps => {
            let fits = step(alloc, plain, &Entry::Sleep { task })?;
            Ok(fitting(fits, Came::Sleeps))
        }
        Ahead::Waits => Ok(Came::Waits),
    }
}

/// Has a task stand at a call there; whether it may.
fn stand(kernel: &mut Kernel, task: u32, code: u64, asked: &Asked) -> bool {
    if kernel.sleepers.is_woken(task) {
        return false;
    }
    let Some(registers) = kernel.registers.get_mut(u64::from(task)) else {
        return false;
    };
    let [a0, a1, a2, a3, a4, a5] = asked.args;
    registers.pc = code;
    registers.x[17] = asked.no;
    registers.x[10] = a0;
    registers.x[11] = a1;
    registers.x[12] = a2;
    registers.x[13] = a3;
    registers.x[14] = a4;
    registers.x[15] = a5;
    true
}

/// Has a task make a call where an ECALL stands.
pub fn call(
    alloc: Global,
    plain: &mut Plain,
    task: u32,
    code: u64,
    asked: &Asked,
) -> Result<Came, Bad> {
    if !stand(&mut plain.kernel, task, code, asked) {
        return Ok(Came::Nothing);
    }
    go_on(alloc, plain, task)
}
