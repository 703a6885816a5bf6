//! The verbs of a task: its registers, its code, and runs of its instructions.

use crate::answers::{Answer, tell};
use crate::hands::Hands;
use crate::words::Words;
use mm_space::Space;
use quantum::{QuantumEnd, run_at_most, run_quantum};
use read_cases::{Bad, number};
use rv_table::Regs;
use std::alloc::{AllocError, Global};

/// The number of the task.
const TASK: u32 = 1;

/// The place of a register: 32 is that of `pc`.
fn place_of(name: &str) -> Option<usize> {
    if name == "pc" {
        return Some(32);
    }
    let place = number(name.strip_prefix('x')?)?;
    if place < 32 {
        Some(place as usize)
    } else {
        None
    }
}

/// Puts a value into a register.
fn set(regs: &mut Regs, word: &str) -> Option<()> {
    let (name, value) = word.split_once('=')?;
    let place = place_of(name)?;
    let value = number(value)?;
    if place < 32 {
        regs.x[place] = value;
    } else {
        regs.pc = value;
    }
    Some(())
}

/// Puts values into registers: `NAME=VALUE` each.
fn set_each(regs: &mut Regs, words: &mut Words<'_>) -> Option<Answer> {
    for word in words.left.split(' ') {
        set(regs, word)?;
    }
    Some(Answer::Silent)
}

/// What a register holds.
fn held(regs: &Regs, name: &str) -> Option<Answer> {
    let place = place_of(name)?;
    if place < 32 {
        Some(Answer::Number(regs.x[place]))
    } else {
        Some(Answer::Number(regs.pc))
    }
}

fn tell_each(regs: &Regs, words: &mut Words<'_>, came: &mut String) -> Result<(), Bad> {
    for word in words.left.split(' ') {
        match held(regs, word) {
            Some(answer) => tell(came, answer)?,
            None => tell(came, Answer::Word("unread"))?,
        }
    }
    Ok(())
}

/// Tells `pc`, and each register that isn't 0.
fn tell_all(regs: &Regs, came: &mut String) -> Result<(), Bad> {
    write!(came, "pc={:#x}", regs.pc)?;
    for place in 0..32 {
        let value = regs.x[place];
        if value != 0 {
            write!(came, " x{place}={value:#x}")?;
        }
    }
    Ok(())
}

fn tell_end(came: &mut String, end: QuantumEnd) -> Result<(), AllocError> {
    match end {
        QuantumEnd::Ended(count) => write!(came, "ended {count}"),
        QuantumEnd::Call(count) => write!(came, "call {count}"),
        QuantumEnd::Trap { count, signal } => write!(came, "trap {count} signal={signal}"),
        QuantumEnd::Shared { count, area } => {
            write!(came, "touched {count} shared={}:{}", area.place, area.index)
        }
        QuantumEnd::Memory => came.push_str("memory"),
    }
}

/// Runs the task's instructions, at most so many where a number is left.
fn run(
    alloc: Global,
    regs: &mut Regs,
    space: &mut Space,
    hands: &mut Hands,
    most: Option<u64>,
) -> QuantumEnd {
    match most {
        Some(most) => {
            let most = most.min(1_000_000) as u32;
            run_at_most(alloc, regs, space, TASK, &mut hands.handed, most)
        }
        None => run_quantum(alloc, regs, space, TASK, &mut hands.handed),
    }
}

/// Does a verb of the task, where it is one.
pub fn do_task(
    alloc: Global,
    regs: &mut Regs,
    space: &mut Space,
    hands: &mut Hands,
    verb: &str,
    words: &mut Words<'_>,
    came: &mut String,
) -> Result<bool, Bad> {
    match verb {
        "set" => return Ok(set_each(regs, words).is_some()),
        "reg" => tell_each(regs, words, came)?,
        "regs" => tell_all(regs, came)?,
        "run_quantum" => tell_end(came, run(alloc, regs, space, hands, None))?,
        "run_at_most" => match words.number() {
            Some(most) => tell_end(came, run(alloc, regs, space, hands, Some(most)))?,
            None => return Ok(false),
        },
        _ => return Ok(false),
    }
    Ok(true)
}
