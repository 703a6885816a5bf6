//! A guest, of whose tasks the cases of a block are: its setup, its kernel once it was opened, whose case it is, where
//! its calls stand, and what the console had. Beside what other files say a case may be:
//!
//! - `open`: what the opening came to, `ok`, `misfit TASK` or `ERROR of TASK`;
//! - `as TASK` and `calls ADDRESS`: the cases behind are that task's, and calls are made by the ECALL there;
//! - `goes`: what is ahead of the task is done; of one that was woken that is the end of its call;
//! - `prints ADDRESS COUNT`: what a write of these bytes prints; `printed`: what the console has since it was set up;
//! - `each COUNT FIRST STEP CALL`: the call so many times, with `@` for the number of each: how many reply that number.

use crate::calls::{Asked, Came, call, go_on, read_call};
use crate::entries::try_entry;
use crate::instructions::{ECALL, instruct, is_silent, read_instruction};
use crate::numbers::{small, value};
use crate::opening::open;
use crate::puts::put;
use crate::setup::Setup;
use crate::state::{memory_of, tell};
use crate::texts::{tell_bytes, tell_number, tell_reply, tell_truth};
use plain_kernel::{OpeningErr, Plain};
use read_cases::{Bad, Cases, parted};
use std::alloc::Global;

/// A guest of cases.
pub struct Guest {
    setup: Setup,
    plain: Option<Plain>,
    task: u32,
    code: u64,
    printed: usize,
}

/// Lets all of it go by one call.
impl Drop for Guest {
    fn drop(self) {
        let Guest {
            setup: _,
            plain: _,
            task: _,
            code: _,
            printed: _,
        } = self;
    }
}

/// The task that a case names, and the case.
fn parted_task(case: &str, task: u32) -> (u32, &str) {
    if let Some((number, rest)) = case.split_once(": ") {
        if let Some(number) = small(number) {
            return (number, rest);
        }
    }
    (task, case)
}

/// Whether what comes of a call or an instruction is told, and how.
fn tell_came(text: &mut String, came: Came) -> Result<(), Bad> {
    match came {
        Came::Nothing => text.push_str("nothing")?,
        Came::Runs => text.push_str("runs")?,
        Came::Gives(value) => tell_number(text, value)?,
        Came::Replies(value) => tell_reply(text, value)?,
        Came::Traps(signal) => write!(text, "traps {signal}")?,
        Came::Sleeps => text.push_str("sleeps")?,
        Came::Waits => text.push_str("waits")?,
        Came::Unfit => text.push_str("unfit")?,
    }
    Ok(())
}

/// Does a call or an instruction, where a case is one.
fn act(
    alloc: Global,
    plain: &mut Plain,
    task: u32,
    code: u64,
    case: &str,
    each: u64,
) -> Result<Option<Came>, Bad> {
    if let Some(one) = read_instruction(case, each) {
        return Ok(Some(instruct(alloc, plain, task, &one)?));
    }
    match read_call(case, each) {
        Some(asked) => Ok(Some(call(alloc, plain, task, code, &asked)?)),
        None => Ok(None),
    }
}

/// Whether what came is told: a value or a reply is not behind `do`, and nothing of a store or a jump that went on.
fn is_told(case: &str, came: Came) -> bool {
    match came {
        Came::Gives(_) => {
            !case.starts_with("do ")
                && !read_instruction(case, 0).is_some_and(|one| is_silent(&one))
        }
        Came::Replies(_) => !case.starts_with("do "),
        _ => true,
    }
}

/// How many pages a task's memory has.
fn pages(plain: &Plain, task: u32) -> u64 {
    match memory_of(&plain.kernel, task) {
        Some(memory) => memory.space.areas().len(),
        None => 0,
    }
}

/// Does it, and tells what came; of one that is refused also what it mapped or unmapped.
fn tell_act(
    alloc: Global,
    text: &mut String,
    plain: &mut Plain,
    task: u32,
    code: u64,
    case: &str,
) -> Result<(), Bad> {
    let before = pages(plain, task);
    let done = case.strip_prefix("do ").unwrap_or(case);
    let Some(came) = act(alloc, plain, task, code, done, 0)? else {
        text.push_str("unread")?;
        return Ok(());
    };
    if !is_told(case, came) {
        return Ok(());
    }
    tell_came(text, came)?;
    if let Came::Replies(reply) = came {
        if reply < 0 && pages(plain, task) != before {
            text.push_str(" of other pages")?;
        }
    }
    Ok(())
}

/// Whether what came is what each of a row comes to: its number as the reply, or an instruction that went on.
fn is_each(came: Option<Came>, each: u64) -> bool {
    match came {
        Some(Came::Replies(reply)) => reply.cast_unsigned() == each,
        Some(Came::Gives(_)) => true,
        _ => false,
    }
}

/// A row of calls: how many, the first number, the step, and the case.
fn row_of(text: &str) -> Option<(u64, u64, u64, &str)> {
    let (count, rest) = text.split_once(' ')?;
    let (first, rest) = rest.split_once(' ')?;
    let (step, case) = rest.split_once(' ')?;
    Some((value(count, 0)?, value(first, 0)?, value(step, 0)?, case))
}

/// `each COUNT FIRST STEP CALL`: how many of a row of calls reply their number.
fn tell_each(
    alloc: Global,
    text: &mut String,
    plain: &mut Plain,
    task: u32,
    code: u64,
    rest: &str,
) -> Result<(), Bad> {
    let Some((count, first, step, case)) = row_of(rest) else {
        text.push_str("unread")?;
        return Ok(());
    };
    let mut each = first;
    let mut well = 0_u64;
    for _ in 0..count {
        if is_each(act(alloc, plain, task, code, case, each)?, each) {
            well = well.wrapping_add(1);
        }
        each = each.wrapping_add(step);
    }
    tell_number(text, well)
}

/// What the console has behind so many bytes.
fn tell_printed(text: &mut String, plain: &Plain, before: usize) -> Result<(), Bad> {
    let console = plain.kernel.console.as_slice();
    tell_bytes(text, console.get(before..).unwrap_or(&[]))
}

/// `prints ADDRESS COUNT`: what a write of a guest's bytes prints, or its reply where that is no such count.
fn tell_prints(
    alloc: Global,
    text: &mut String,
    plain: &mut Plain,
    task: u32,
    code: u64,
    rest: &str,
) -> Result<(), Bad> {
    let before = plain.kernel.console.len();
    let (at, count) = parted(rest);
    let (Some(at), Some(count)) = (value(at, 0), value(count, 0)) else {
        text.push_str("unread")?;
        return Ok(());
    };
    let ones = u64::MAX;
    let asked = Asked {
        no: 64,
        args: [1, at, count, ones, ones, ones],
    };
    match call(alloc, plain, task, code, &asked)? {
        Came::Replies(reply) if reply.cast_unsigned() == count => tell_printed(text, plain, before),
        came => tell_came(text, came),
    }
}

/// What an opening comes to.
fn tell_opening(text: &mut String, err: OpeningErr) -> Result<(), Bad> {
    match err {
        OpeningErr::Image { task, errno } => write!(text, "{errno:?} of {task}")?,
        OpeningErr::Misfit { task } => write!(text, "misfit {task}")?,
        OpeningErr::Memory => text.push_str("memory")?,
    }
    Ok(())
}

impl Guest {
    pub fn new(alloc: Global) -> Guest {
        Guest {
            setup: Setup::new(alloc),
            plain: None,
            task: 1,
            code: ECALL,
            printed: 0,
        }
    }

    /// Opens it, where it isn't open: whether it is then, which else is told.
    fn open(&mut self, alloc: Global, came: &mut String) -> Result<bool, Bad> {
        if self.plain.is_some() {
            return Ok(true);
        }
        match open(alloc, &mut self.setup)? {
            Ok(plain) => {
                self.plain = Some(plain);
                Ok(true)
            }
            Err(err) => {
                tell_opening(came, err)?;
                Ok(false)
            }
        }
    }

    /// Takes a line that is about the guest and not its kernel: whether it is one.
    fn turn(&mut self, verb: &str, rest: &str) -> bool {
        match verb {
            "as" => {
                self.task = small(rest).unwrap_or(0);
                true
            }
            "calls" => {
                self.code = value(rest, 0).unwrap_or(0);
                true
            }
            _ => false,
        }
    }

    /// Does a case of a task of the open guest.
    fn does(&mut self, alloc: Global, came: &mut String, task: u32, case: &str) -> Result<(), Bad> {
        let code = self.code;
        let Some(plain) = &mut self.plain else {
            return Ok(());
        };
        if case.ends_with(')') && !case.starts_with("each ") {
            return tell_act(alloc, came, plain, task, code, case);
        }
        let (verb, rest) = parted(case);
        if let Some(fits) = try_entry(alloc, plain, task, verb, rest)? {
            return tell_truth(came, fits);
        }
        if put(alloc, &mut plain.kernel, task, verb, rest)? {
            self.printed = if verb == "console" {
                plain.kernel.console.len()
            } else {
                self.printed
            };
            return Ok(());
        }
        match verb {
            "each" => tell_each(alloc, came, plain, task, code, rest),
            "goes" => tell_came(came, go_on(alloc, plain, task)?),
            "prints" => tell_prints(alloc, came, plain, task, code, rest),
            "printed" => tell_printed(came, plain, self.printed),
            _ => tell(alloc, came, &plain.kernel, task, verb, rest),
        }
    }
}

impl Cases for Guest {
    fn begin(&mut self, rt: &HostRuntime) -> Result<(), Bad> {
        *self = Guest::new(rt.alloc());
        Ok(())
    }

    fn answer(&mut self, rt: &HostRuntime, case: &str, came: &mut String) -> Result<(), Bad> {
        let alloc = rt.alloc();
        let (verb, rest) = parted(case);
        if self.plain.is_none() && self.setup.set(alloc, verb, rest)? {
            return Ok(());
        }
        if !self.open(alloc, came)? {
            return Ok(());
        }
        if case == "open" {
            came.push_str("ok")?;
            return Ok(());
        }
        let (task, case) = parted_task(case, self.task);
        let (verb, rest) = parted(case);
        if self.turn(verb, rest) {
            return Ok(());
        }
        self.does(alloc, came, task, case)
    }
}
