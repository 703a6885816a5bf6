//! The tests of the pool of workers: tasks that count, hand a token round, fork, park for ever, or run out of room or
//! memory, by 1, 2, 4 and 16 workers.
//!
//! `Stage` is what runs their turns: a board under a lock has the token and the next number of a child. `Held` is a
//! gate that holds the first worker until another has passed it.
//!
//! The clauses of `Pool::run` say what comes back. What is tested is that it returns at all, that no task that can go
//! on stays parked, what the pool counts, and that the turns of two workers overlap.
#![tactic(auto)]

mod holding;
mod job;
mod stage;
#[cfg(test)]
mod tests;

pub use holding::Held;
pub use job::{Job, Part};
pub use stage::{Board, Stage};
