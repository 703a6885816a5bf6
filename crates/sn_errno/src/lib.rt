//! The errors of system calls, what a call leaves in a0, and the table of system calls.
//!
//! A caller sees an `Errno` and a `CallNo` as one of their variants, and a `Reply` as an integer. The
//! numbers stand in `specs/`: `number_of` has each error's, and `calls` is the one table of the calls, a
//! row for each with number, call and name. `call_of` and `known_name` look a number up in it, and
//! `call_name` is what a call is printed as: its name, or `call` and the number in decimal.
//!
//! Proved: `Errno::number` is `number_of`; `Reply::of` is the error's number, negative (`reply_of`), and a
//! reply keeps its number; `CallNo::of` finds a call exactly at the table's numbers (`call_of`);
//! `CallNo::number` is the number of the row with this call (`row`), and no other number has it (`only`),
//! so the number of what `of` finds is the number asked for; `CallNo::name` is the name beside it. The
//! rule that each call has one row is `firsts` in `proofs/CallLaws.antt`, computed over the table; what the
//! printed name is, `printed_known` and `printed_unknown`, stands there for the crates above.
//!
//! Not said: what a call does, which calls the kernel serves, and which error comes when.
//!
//! Standard: errno(3), syscall(2) and intro(2) of Linux's manual; Linux's asm-generic/errno-base.h,
//! errno.h and unistd.h.
#![tactic(auto)]

mod calls;
mod errno;
mod reply;

pub use calls::CallNo;
pub use errno::Errno;
pub use reply::Reply;
