//! The program `memory_cases`: it does the cases of the files that its words name, over frames, areas, address spaces,
//! runs of instructions and loaded programs.
//!
//! A block begins with a frame that nobody has written, an area without pages, and three spaces where nothing is
//! mapped. A line says to what it speaks, then a verb, which has the name of the function that it calls, and then what
//! that is given: `frame` and `frame.1` to a page's bytes, `pages` to those of a shared area, `areas` to what is
//! mapped, `space.1` to an address space. A line that names none speaks to the first space, the areas in hand, the task
//! or the program. `share` and `fork` make one more of a kind, by the next number; `fork 1` makes a space's
//! child the space 1.
//!
//! - Numbers are decimal, or hexadecimal behind `0x`; bytes pairs of digits, or `PAIR*TIMES`; rights the letters
//!   `r`, `w` and `x`, or `-`; `3:0` is the name of a shared area, and `2@0x1000` what task 2 does at an address.
//! - What is done is answered `ok`, and what is refused by its fault: `invalid`, `fault=ADDRESS`, `shared=AREA`. What
//!   isn't there is `none`, and a line that is no case `unread`.
//! - `load`, `take` and the like ask the same of each place that they name. `read_long` tells bytes by the pattern that
//!   `write_pattern` puts, and `outlives` which stores leave a reservation. `hand` hands in the area of `pages`.
//! - `setup NAME` gives the block a name, and a block with `as NAME` begins with its lines.
//!
//! Proved: the functions here are safe, and end. What the cases are about is proved of the crates below.
//!
//! Not said: that the cases are enough.
#![tactic(auto)]

mod accesses;
mod answers;
mod areas;
mod block;
mod frame;
mod hands;
mod looks;
mod pages;
mod parts;
mod programs;
mod runs;
mod setups;
mod spaces;
mod speaking;
mod tasks;
mod words;

use block::Block;
use read_cases::{Bad, Cases, do_all, parted};
use setups::Setups;
use std::process::ExitCode;

/// A block, the blocks that have names, and whether this one has.
struct Memory {
    block: Block,
    setups: Setups,
    is_named: bool,
}

impl Drop for Memory {
    fn drop(self) {
        let Memory {
            block: _,
            setups: _,
            is_named: _,
        } = self;
    }
}

impl Memory {
    /// Does the lines of the block of a name. What they come to isn't told: that stands where they have their name.
    fn repeat(&mut self, name: &str, came: &mut String) -> Result<(), Bad> {
        let Some(lines) = self.setups.lines(name) else {
            return Ok(came.push_str("unread")?);
        };
        for line in lines.lines() {
            self.block.do_case(line, came)?;
        }
        came.clear();
        Ok(())
    }
}

impl Cases for Memory {
    fn begin(&mut self, _rt: &HostRuntime) -> Result<(), Bad> {
        self.is_named = false;
        self.block.begin()
    }

    fn answer(&mut self, _rt: &HostRuntime, case: &str, came: &mut String) -> Result<(), Bad> {
        match parted(case) {
            ("setup", name) => {
                self.is_named = true;
                self.setups.begin(name)
            }
            ("as", name) => self.repeat(name, came),
            _ => {
                if self.is_named {
                    self.setups.add(case)?;
                }
                self.block.do_case(case, came)
            }
        }
    }
}

fn main(rt: HostRuntime) -> ExitCode {
    let mut memory = Memory {
        block: Block::new(rt.alloc()),
        setups: Setups::none(rt.alloc()),
        is_named: false,
    };
    do_all(&rt, &mut memory)
}
