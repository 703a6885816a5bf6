//! Instructions of a RISC-V task, over any memory: one, fetched, decoded and executed, or those of a page one after
//! another, decoded before.
//!
//! A caller hands in registers (`Regs`) and a memory (`Mem`), which has the task's reservation too. Contracts see a
//! memory as what each byte is to a fetch, to a load and to a store: it holds a number, may not be accessed so, or lies
//! in a shared area that is not handed in; and as what the task has reserved, by address and width. An instruction
//! comes to a `Step`, in a run to a `Flow`, which has no cause of a refusal and tells a jump (`Jump`) from what goes on
//! to the instruction behind (`Next`); all but these change nothing.
//!
//! Proved over every memory. `step`: registers, answer and what is told of memory are as the definition `exec` says of
//! the bytes at pc (`done`); where no call of the memory answers want of memory, a step doesn't either (`lean`).
//! `run_row`: it has done as many instructions as it answers, each by `exec` (`ran`), no more than it may (`few`);
//! where it ends at a call or a trap, the next one is that (`ended`); where it ends with `Next` and stands at an
//! instruction of the page, it has done as many as it may (`whole`); the page's words are as before (`row`).
//!
//! Asked of a memory: the number of an access is its bytes', the lowest first (`word`, `number`), a store answers by
//! what its bytes are (`room`), writes them (`ok`) or changes nothing (`err`), and takes no memory where `writable`
//! said yes (`ready`); `take` tells of the reservation (`held`) and ends it (`ended`). A reservation leaves all pages'
//! instructions (`rows`). `load_near`, `store_near` and `conditional_near` are fast forms, for what is at hand, which
//! may do nothing, and leave the other pages' instructions (`rows`).
//! Laws: after a write each byte is what the write puts at its place (`written`), an address is of its own byte
//! (`itself`), and a page's decoded words, its row, are those of its bytes (`decoded`).
//!
//! Not said: when memory is wanting; which byte a `Trap` of 11 is about; how far a run gets before it ends with
//! `Refused`; what a system call does; that a store ends other tasks' reservations.
//!
//! Standard: RISC-V Unprivileged ISA 20191213, chapters 1 to 3, 5, 7 and 8; signals by signal(7). No locks.
#![tactic(auto)]

mod access;
mod atomic;
mod cycle;
mod execute;
mod flow;
mod load;
mod mem;
mod moves;
mod outcome;
mod plain;
mod rows;

pub use cycle::step;
pub use flow::Flow;
pub use mem::Mem;
pub use outcome::Step;
pub use rows::{RowRun, run_row};
