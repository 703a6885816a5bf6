//! Runs of a task's instructions over its address space, until one calls the system, traps, touches a shared area that
//! is not handed in, or so many have run.
//!
//! A caller hands in a task's number and registers, its address space, and the shared areas that it reaches (`Handed`).
//! Contracts see the task with what it reaches as an `Acting`, and instructions one after another by `ran`. An
//! instruction that touches a shared area is done where the area is handed in: with none in hand a run ends before it,
//! and a run of one instruction with that area goes on behind.
//!
//! Proved of `run_quantum`, for `QUANTUM`, and of `run_at_most`, for any number: as many instructions as the answer
//! tells lead from the state before to the state after, each by `rv_exec`'s `exec` (`ran`). A run that nothing stops
//! has as many as there may be, and any other has fewer (`few`). What stops it is what the next instruction does
//! (`stopped`). Where memory was wanting, registers and address space are as after some whole instructions, fewer than
//! there may be (`memory`). `Acting`, private, is the memory that instructions see: after each write, bytes and
//! reservations are what the write says (specs/laws).
//!
//! Pages that run have their words decoded, and what is at hand is reached by guesses at where pages lie. The clauses
//! don't know of it.
//!
//! Not said: time, and when memory is wanting.
//!
//! Standard: RISC-V Unprivileged ISA 20191213, 1.2 to 1.6 and chapter 8; mmap(2); signals by signal(7). No locks.
#![tactic(auto)]

mod acting;
mod run;
mod turn;

pub use run::{QUANTUM, QuantumEnd, run_at_most, run_quantum};
