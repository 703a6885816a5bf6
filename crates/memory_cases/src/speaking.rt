//! Lines that speak to an address space.

use crate::accesses::{do_access, do_places};
use crate::answers::{Answer, of_access, tell};
use crate::block::{Block, empty_space};
use crate::hands::Hands;
use crate::parts::tell_some;
use crate::runs::{do_read, do_run, write_code, write_pattern};
use crate::spaces::do_space;
use crate::tasks::do_task;
use crate::words::{Place, Words, place_of, read_run};
use mm_space::{Handed, Space};
use read_cases::Bad;
use rv_table::MemErr;
use std::alloc::Global;

/// Does a verb that puts a run of bytes at an address.
fn run_into_space(
    alloc: Global,
    space: &mut Space,
    hands: &mut Hands,
    verb: &str,
    words: &mut Words<'_>,
    run: &mut Vec<u8>,
) -> Result<Option<Answer>, Bad> {
    match verb {
        "write_code" => return write_code(alloc, space, hands, words, run),
        "write_pattern" => return write_pattern(alloc, space, hands, words, run, false),
        "write_other" => return write_pattern(alloc, space, hands, words, run, true),
        _ => (),
    }
    let Some(place) = words.place() else {
        return Ok(None);
    };
    let first = if verb == "put_two" {
        words.count()
    } else {
        None
    };
    if !read_run(run, words.left)? {
        return Ok(None);
    }
    Ok(do_run(alloc, space, hands, place, first, run))
}

/// Stores 0 in so many bytes: 8 where no access has the width.
fn store_zeros(
    alloc: Global,
    space: &mut Space,
    handed: &mut Handed,
    by: Place,
    width: u8,
) -> Result<(), MemErr> {
    match width {
        1 => space.store(alloc, handed, by.task, by.at, 1, 0),
        2 => space.store(alloc, handed, by.task, by.at, 2, 0),
        4 => space.store(alloc, handed, by.task, by.at, 4, 0),
        _ => space.store(alloc, handed, by.task, by.at, 8, 0),
    }
}

/// Whether a verb is one of loading.
fn is_of_program(verb: &str) -> bool {
    matches!(
        verb,
        "file_header"
            | "segment"
            | "rest"
            | "arg"
            | "env"
            | "args"
            | "envs"
            | "load_program"
            | "opening_stack"
            | "stack_words"
            | "stack_bytes"
            | "page_rights"
            | "joined"
            | "allows"
            | "bits"
    )
}

/// A space made anew of another, by a verb.
fn made(alloc: Global, space: &mut Space, verb: &str) -> Result<Space, Bad> {
    match verb {
        "fork" => Ok(space.fork(alloc)?),
        "copy" => Ok(space.copy(alloc)?),
        _ => Ok(empty_space(alloc)),
    }
}

/// What a reservation of so many bytes is to outlive: a store of another width in a space.
#[derive(Clone, Copy)]
struct Trial {
    number: usize,
    reserved: Place,
    count: u8,
    other: usize,
    width: u8,
}

impl Block {
    /// Whether a reservation is there once a store was made.
    fn outlives_store(&mut self, trial: Trial, word: &str) -> Option<Answer> {
        let by = place_of(word)?;
        let Trial {
            number,
            reserved,
            count,
            other,
            width,
        } = trial;
        let handed = &mut self.hands.handed;
        let space = self.spaces.get_mut(number)?;
        space
            .reserve(handed, reserved.task, reserved.at, count)
            .ok()?;
        let storing = self.spaces.get_mut(other)?;
        let stored = store_zeros(self.alloc, storing, handed, by, width);
        if stored.is_err() {
            return Some(of_access(stored));
        }
        let space = self.spaces.get_mut(number)?;
        let is_held = space.take(handed, reserved.task, reserved.at, count);
        Some(Answer::Truth(is_held))
    }

    /// Has a reservation made anew for each store that is left, and tells which it outlives.
    fn outlives_each(
        &mut self,
        number: usize,
        words: &mut Words<'_>,
        came: &mut String,
    ) -> Result<bool, Bad> {
        let (Some(count), Some(reserved)) = (words.byte(), words.place()) else {
            return Ok(false);
        };
        let (Some(other), Some(width)) = (words.count(), words.byte()) else {
            return Ok(false);
        };
        let trial = Trial {
            number,
            reserved,
            count,
            other,
            width,
        };
        for word in words.left.split(' ') {
            match self.outlives_store(trial, word) {
                Some(answer) => tell(came, answer)?,
                None => return Ok(false),
            }
        }
        Ok(true)
    }

    /// Puts a space's child, its copy, or an empty one in the place of another.
    fn make(&mut self, number: usize, verb: &str, words: &mut Words<'_>) -> Result<bool, Bad> {
        let Some(space) = self.spaces.get_mut(number) else {
            return Ok(false);
        };
        let new = made(self.alloc, space, verb)?;
        match words.count() {
            Some(other) if other < self.spaces.len() => {
                self.spaces[other] = new;
                Ok(true)
            }
            _ => Ok(false),
        }
    }

    /// Does a verb of the areas in hand, of the program, or of the task, where it is one.
    fn speak_beside(
        &mut self,
        number: usize,
        verb: &str,
        words: &mut Words<'_>,
        came: &mut String,
    ) -> Result<bool, Bad> {
        let alloc = self.alloc;
        let (Some(space), Some(area)) = (self.spaces.get_mut(number), self.pages.get_mut(0)) else {
            return Ok(false);
        };
        let hands = &mut self.hands;
        let regs = &mut self.regs;
        match verb {
            "hand" | "lend" | "take_back" | "in_hand" | "swap_hands" => {
                let answer = hands.do_hand(alloc, area, verb, words)?;
                tell_some(came, answer)
            }
            "set" | "reg" | "regs" | "run_quantum" | "run_at_most" => {
                do_task(alloc, regs, space, hands, verb, words, came)
            }
            _ => self
                .program
                .do_program(alloc, space, regs, verb, words, came),
        }
    }

    /// Does a verb of the space's bytes, or of what is mapped there.
    fn speak_of_bytes(
        &mut self,
        number: usize,
        verb: &str,
        words: &mut Words<'_>,
        came: &mut String,
    ) -> Result<bool, Bad> {
        let alloc = self.alloc;
        let Some(space) = self.spaces.get_mut(number) else {
            return Ok(false);
        };
        let hands = &mut self.hands;
        let run = &mut self.run;
        let answer = match verb {
            "load" | "load_near" | "fetch" | "reserve" | "take" | "is_own" | "area_byte" => {
                return do_places(space, hands, verb, words, came);
            }
            "read" | "read_long" | "piece" => {
                return do_read(alloc, space, hands, verb, words, run, came);
            }
            "write" | "put_two" | "write_code" | "write_pattern" | "write_other" => {
                run_into_space(alloc, space, hands, verb, words, run)?
            }
            "store" | "store_near" | "conditional_near" | "writable" | "allowed" => {
                do_access(alloc, space, hands, verb, words)
            }
            _ => do_space(alloc, space, verb, words),
        };
        tell_some(came, answer)
    }

    /// Does a verb of a space, of the areas in hand, of the task, or of the program.
    pub fn speak_to_space(
        &mut self,
        number: usize,
        words: &mut Words<'_>,
        came: &mut String,
    ) -> Result<bool, Bad> {
        let Some(verb) = words.word() else {
            return Ok(false);
        };
        match verb {
            "fork" | "copy" | "end" => self.make(number, verb, words),
            "outlives" => self.outlives_each(number, words, came),
            "hand"
            | "lend"
            | "take_back"
            | "in_hand"
            | "swap_hands"
            | "set"
            | "reg"
            | "regs"
            | "run_quantum"
            | "run_at_most" => self.speak_beside(number, verb, words, came),
            _ if is_of_program(verb) => self.speak_beside(number, verb, words, came),
            _ => self.speak_of_bytes(number, verb, words, came),
        }
    }
}
