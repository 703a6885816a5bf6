//! The task of a case: its registers and its memory.

use crate::bytes::{Reached, Right, Stretch};
use crate::memory::{Reserved, Small};
use crate::numbers::{put, put_bytes};
use read_cases::number;
use rv_exec::{Step, step};
use rv_table::{Area, Regs};

/// Where a task stands, unless its case says otherwise.
const PC: u64 = 0x4_0000;

/// Where its sixteen bytes lie that can be read and written.
const DATA: u64 = 0x2_0000;

/// The shared area in which what is shared lies.
const AREA: Area = Area { place: 7, index: 1 };

/// A task.
#[derive(Clone, Copy)]
pub struct Task {
    pub regs: Regs,
    pub memory: Small,
}

/// Registers, each but x0 with a number of its own.
fn regs_at(pc: u64) -> Regs {
    let mut regs = Regs { pc, x: [0; 32] };
    let mut number = 0_u64;
    for place in 0..32 {
        regs.x[place] = number;
        number = number.wrapping_add(0x0101_0101_0101_0101);
    }
    regs
}

/// A memory whose page is at an address, of zeros, with that right to execute them and so many calls to be answered.
fn memory_at(from: u64, right: Right, accesses: u64) -> Small {
    Small {
        code: Reached {
            stretch: Stretch {
                from,
                bytes: [0; 4096],
                area: None,
            },
            right,
        },
        data: Stretch {
            from: DATA,
            bytes: [0; 16],
            area: None,
        },
        readable: Right::Each,
        writable: Right::Each,
        reserved: None,
        accesses,
        ready: false,
        is_near: true,
    }
}

fn right_of(text: &str) -> Option<Right> {
    match text {
        "each" => Some(Right::Each),
        "none" => Some(Right::Nothing),
        _ => Some(Right::But(number(text)?)),
    }
}

fn put_right(place: &mut Right, text: &str) -> bool {
    match right_of(text) {
        Some(right) => {
            *place = right;
            true
        }
        None => false,
    }
}

fn reserved_of(text: &str) -> Option<Reserved> {
    let (address, width) = text.split_once(':')?;
    let address = number(address)?;
    let width = u8::from_str_radix(width, 10).ok()?;
    Some(Reserved { address, width })
}

fn put_reserved(place: &mut Option<Reserved>, text: &str) -> bool {
    *place = reserved_of(text);
    place.is_some() || text == "none"
}

fn put_near(place: &mut bool, text: &str) -> bool {
    *place = text == "yes";
    *place || text == "no"
}

impl Task {
    /// A task at a word, the only one that it may execute.
    pub fn at_word(word: u32) -> Task {
        let mut memory = memory_at(PC, Right::Word(PC), 4);
        memory.put_word(0, word);
        Task {
            regs: regs_at(PC),
            memory,
        }
    }

    /// A task at a word of a page of zeros, by the word's number.
    pub fn at_page(from: u64, place: u64) -> Task {
        Task {
            regs: regs_at(from.wrapping_add(place.wrapping_mul(4))),
            memory: memory_at(from, Right::Each, 1_000_000),
        }
    }

    /// Puts a word where the task stands, which is the only one that it may execute then.
    pub fn put_word(&mut self, word: u32) {
        let pc = self.regs.pc;
        self.memory.code.stretch.from = pc;
        self.memory.code.right = Right::Word(pc);
        self.memory.put_word(0, word);
        self.memory.accesses = 4;
    }

    /// Does what a key says; whether it is one.
    ///
    /// - `pc`: where the task stands; `code`: where its only word lies.
    /// - `x0` to `x31`: what a register holds.
    /// - `at`: where the sixteen bytes lie; `data`: these.
    /// - `readable`, `writable`: `each`, `none`, or the one that lacks the right.
    /// - `reserved`: `ADDRESS:WIDTH` or `none`.
    /// - `shared`: `code` or `data`, which lies in an area.
    /// - `accesses`: how many calls memory answers; `near`: whether the sixteen bytes are at hand, `yes` or `no`.
    pub fn set(&mut self, key: &str, value: &str) -> bool {
        match key {
            "pc" => put(&mut self.regs.pc, value),
            "code" => self.move_word(value),
            "at" => put(&mut self.memory.data.from, value),
            "data" => put_bytes(&mut self.memory.data.bytes, value),
            "readable" => put_right(&mut self.memory.readable, value),
            "writable" => put_right(&mut self.memory.writable, value),
            "reserved" => put_reserved(&mut self.memory.reserved, value),
            "shared" => self.share(value),
            "accesses" => put(&mut self.memory.accesses, value),
            "near" => put_near(&mut self.memory.is_near, value),
            _ => self.set_register(key, value),
        }
    }

    /// Does what the words `KEY=VALUE` say, those between single spaces; whether each is one.
    pub fn set_all(&mut self, words: &str) -> bool {
        if words.is_empty() {
            return true;
        }
        for word in words.split(' ') {
            match word.split_once('=') {
                Some((key, value)) if self.set(key, value) => {}
                _ => return false,
            }
        }
        true
    }

    fn move_word(&mut self, value: &str) -> bool {
        match number(value) {
            Some(from) => {
                self.memory.code.stretch.from = from;
                self.memory.code.right = Right::Word(from);
                true
            }
            None => false,
        }
    }

    fn share(&mut self, value: &str) -> bool {
        match value {
            "code" => self.memory.code.stretch.area = Some(AREA),
            "data" => self.memory.data.area = Some(AREA),
            _ => return false,
        }
        true
    }

    fn set_register(&mut self, key: &str, value: &str) -> bool {
        let Some(digits) = key.strip_prefix('x') else {
            return false;
        };
        let Ok(register) = usize::from_str_radix(digits, 10) else {
            return false;
        };
        match self.regs.x.get_mut(register) {
            Some(held) => put(held, value),
            None => false,
        }
    }

    /// Does the instruction at which the task stands.
    pub fn step(&mut self) -> Step {
        step(&mut self.regs, &mut self.memory)
    }
}
