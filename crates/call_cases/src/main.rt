//! The program `call_cases`: guests that call, over the plain kernel, as the files say that its words name.
//!
//! A block of a file begins with the opening of a guest (`setup.rt`): of the common guest, whose words are instructions
//! that take an address in a0 and a value in a1 and give one in a2, with an ECALL behind them, where no line says
//! another. Then each line is a case of the task that is said last by `as TASK`, or of the one that stands before it,
//! as `TASK: `:
//!
//! - `mmap(0, 4096, PROT_READ, MAP_PRIVATE|MAP_ANONYMOUS, -1, 0)` is a call: what it replies, or `waits`, or `sleeps`.
//!   Arguments that it has not are ones. One that is refused and maps or unmaps a page says so;
//! - `ld(ADDRESS)`, `sc.d(ADDRESS, VALUE)` are instructions of the common guest: what a2 has, or `traps SIGNAL`, of
//!   which nothing is done; a store and a jump come to nothing, and so do each and a call behind `do `;
//! - `run COUNT`, `end SIGNAL`, `sleep`, `try CALL REPLY` are entries: whether they fit (`entries.rt`);
//! - other words put something into the state (`puts.rt`), or ask what it has (`state.rt`).
//!
//! A number is a sum of numbers and names (`numbers.rt`); one that is told is hexadecimal from 65,536 on, and an error
//! has its name. What a call comes to is what `Plain::ahead` says, and its entry is done then by `Plain::step`, which
//! has to fit. An instruction is no entry that counts: places are those of calls.
//!
//! Proved: the functions here are safe, and end. What a call comes to is proved of the plain kernel.
#![tactic(auto)]

mod calls;
mod cases;
mod entries;
mod flags;
mod instructions;
mod numbers;
mod opening;
mod puts;
mod setup;
mod state;
mod texts;

use cases::Guest;
use std::process::ExitCode;

fn main(rt: HostRuntime) -> ExitCode {
    let mut guest = Guest::new(rt.alloc());
    read_cases::do_all(&rt, &mut guest)
}
