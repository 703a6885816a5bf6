//! Who sleeps on which futex word. A word is `memory:NAME:ADDRESS` or `area:NAME:ADDRESS`.
//!
//! - `wait TASK WORD HOLDS EXPECTED`: `slept` or `differs`, for a task that isn't in the list;
//! - `sleep WORD TASK ..`: these go to sleep on the word in turn;
//! - `wake WORD COUNT`: how many were woken; `count_on WORD`: how many sleep there;
//! - `leave TASK`; `state TASK ..`: of each `asleep`, `woken` or `out`; `woken_above TASK`: the least, or `none`;
//! - `same WORD WORD`: whether they are one word.

use crate::notation::{made, small, space, tell_bool, tell_number};
use futex_core::{FutexKey, Owner, Waited, Waiters};
use read_cases::{Bad, number, parted};
use std::alloc::Global;

/// The list of sleepers.
#[derive(Drop)]
pub struct Sleepers {
    list: Waiters,
}

/// What a wait is called with.
#[derive(Clone, Copy)]
struct Sleeping {
    task: u32,
    word: FutexKey,
    holds: u32,
    expected: u32,
}

fn owner(text: &str) -> Option<Owner> {
    let (kind, name) = text.split_once(':')?;
    let name = made(name)?;
    let (place, index) = (name.place, name.index);
    match kind {
        "memory" => Some(Owner::Memory { place, index }),
        "area" => Some(Owner::Area { place, index }),
        _ => None,
    }
}

fn word(text: &str) -> Option<FutexKey> {
    let (owns, address) = text.rsplit_once(':')?;
    Some(FutexKey {
        owner: owner(owns)?,
        address: number(address)?,
    })
}

fn wait_of(text: &str) -> Option<Sleeping> {
    let (task, rest) = parted(text);
    let (key, values) = parted(rest);
    let (holds, expected) = parted(values);
    Some(Sleeping {
        task: small(task)?,
        word: word(key)?,
        holds: small(holds)?,
        expected: small(expected)?,
    })
}

/// A wait of a task that isn't in the list.
fn wait(list: &mut Waiters, asked: Sleeping) -> Result<Waited, Bad> {
    if list.is_asleep(asked.task) || list.is_woken(asked.task) {
        return Err(Bad::Setup);
    }
    Ok(list.wait(asked.task, asked.word, asked.holds, asked.expected)?)
}

fn do_wait(list: &mut Waiters, text: &str, came: &mut String) -> Result<bool, Bad> {
    let Some(it) = wait_of(text) else {
        return Ok(false);
    };
    came.push_str(match wait(list, it)? {
        Waited::Slept => "slept",
        Waited::Differs => "differs",
    })?;
    Ok(true)
}

/// Puts tasks to sleep in turn on a word that holds what they expect.
fn do_sleep(list: &mut Waiters, text: &str) -> Result<bool, Bad> {
    let (key, tasks) = parted(text);
    let Some(word) = word(key) else {
        return Ok(false);
    };
    for text in tasks.split(' ') {
        let Some(task) = small(text) else {
            return Ok(false);
        };
        let asleep = wait(
            list,
            Sleeping {
                task,
                word,
                holds: 7,
                expected: 7,
            },
        )?;
        if asleep == Waited::Differs {
            return Ok(false);
        }
    }
    Ok(true)
}

fn do_wake(list: &mut Waiters, text: &str, came: &mut String) -> Result<bool, Bad> {
    let (key, count) = parted(text);
    let (Some(word), Some(count)) = (word(key), small(count)) else {
        return Ok(false);
    };
    write!(came, "{}", list.wake(word, count))?;
    Ok(true)
}

fn do_leave(list: &mut Waiters, text: &str) -> bool {
    match small(text) {
        Some(task) => {
            list.leave(task);
            true
        }
        None => false,
    }
}

fn do_count_on(list: &Waiters, text: &str, came: &mut String) -> Result<bool, Bad> {
    let Some(word) = word(text) else {
        return Ok(false);
    };
    write!(came, "{}", list.count_on(word))?;
    Ok(true)
}

fn state_of(list: &Waiters, task: u32) -> &'static str {
    match (list.is_asleep(task), list.is_woken(task)) {
        (true, true) => "both",
        (true, false) => "asleep",
        (false, true) => "woken",
        (false, false) => "out",
    }
}

fn do_state(list: &Waiters, tasks: &str, came: &mut String) -> Result<bool, Bad> {
    for text in tasks.split(' ') {
        let Some(task) = small(text) else {
            return Ok(false);
        };
        space(came)?;
        came.push_str(state_of(list, task))?;
    }
    Ok(true)
}

fn do_woken_above(list: &Waiters, text: &str, came: &mut String) -> Result<bool, Bad> {
    let Some(task) = small(text) else {
        return Ok(false);
    };
    tell_number(came, list.woken_above(task).map(u64::from))?;
    Ok(true)
}

fn do_same(text: &str, came: &mut String) -> Result<bool, Bad> {
    let (one, other) = parted(text);
    let (Some(one), Some(other)) = (word(one), word(other)) else {
        return Ok(false);
    };
    tell_bool(came, one.is_same_word(&other))?;
    Ok(true)
}

/// Does a case that looks at a list.
fn do_look(list: &Waiters, verb: &str, rest: &str, came: &mut String) -> Result<bool, Bad> {
    match verb {
        "state" => do_state(list, rest, came),
        "woken_above" => do_woken_above(list, rest, came),
        "count_on" => do_count_on(list, rest, came),
        "same" => do_same(rest, came),
        _ => Ok(false),
    }
}

impl Sleepers {
    /// A list that nobody is in.
    pub fn new(alloc: Global) -> Sleepers {
        Sleepers {
            list: Waiters::new(alloc),
        }
    }

    /// Does a case; whether it is one.
    pub fn do_case(&mut self, case: &str, came: &mut String) -> Result<bool, Bad> {
        let (verb, rest) = parted(case);
        match verb {
            "wait" => do_wait(&mut self.list, rest, came),
            "sleep" => do_sleep(&mut self.list, rest),
            "wake" => do_wake(&mut self.list, rest, came),
            "leave" => Ok(do_leave(&mut self.list, rest)),
            _ => do_look(&self.list, verb, rest, came),
        }
    }
}
