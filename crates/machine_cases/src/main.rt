//! The program `machine_cases`: cases of instructions. What a word is decoded to, what an instruction computes and
//! does, what runs of decoded words do, and which reservations stay.
//!
//! Its files have cases as `read_cases` reads them, of words between single spaces. A block begins with a task at a
//! word of zeros, and with no reservations.
//!
//! - `decode WORD`: the instruction, the numbers of its registers, and its immediate as a signed number.
//! - `alu WORD A B`, `taken WORD A B`, `amo WORD OLD B`: what `alu`, `is_taken` and `amo` answer of it.
//! - `low N`: the low 32 bits, and these as a signed number; `register N`: the number of the register of that number.
//! - `step WORD KEY=VALUE ..`: what the step of a new task comes to, and each register, byte, word and reservation that
//!   it changed; pc is told where it is not that of the instruction behind. `then WORD KEY=VALUE ..` is a step of the
//!   task that is there, at that word, and `again KEY=VALUE ..` one where no word is put. `Task::set` has the keys.
//! - `page ADDRESS N WORD ..`: puts down a task at the word of that number of a page, with these words from there on,
//!   and `fill ADDRESS WORD` one at a page of that word; `with KEY=VALUE ..` says more of it. `run MOST KEY=VALUE ..`
//!   runs it, and `run_on MOST KEY=VALUE ..` goes on where the last run or step ended: how many instructions were done,
//!   what ended the run, and what it changed, which as many steps have to change too.
//! - `space VERB ..`, `area VERB ..`: a call of `Reservations` or `AreaReservations`, of a task and what it names, as
//!   the call takes them; `in PLACE:INDEX` behind names the shared area of the page. `copy` sets a copy aside, and
//!   `change` changes places with what is aside.
//!
//! Proved: the functions here are safe, and end, and the memory of a task keeps the contract of `Mem`. What the cases
//! are about is proved of the crates below.
//!
//! Not said: that the cases are enough. An assembler made their words, and an emulator of the RISC-V their values; what
//! lies round the end of the addresses, what traps and with which signal, and which of two traps goes first, goes by
//! the manual and by this project's choices.
#![tactic(auto)]

mod areas;
mod bytes;
mod instrs;
mod machine;
mod memory;
mod numbers;
mod rows;
mod runs;
mod spaces;
mod steps;
mod task;
mod told;
mod values;

use machine::Machine;
use read_cases::do_all;
use std::process::ExitCode;

fn main(rt: HostRuntime) -> ExitCode {
    let mut machine = Machine::new(rt.alloc());
    do_all(&rt, &mut machine)
}
