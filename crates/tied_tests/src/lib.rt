//! The tests of pages that are tied to one book: a small machine of counters and pairs, calls over its pages, and
//! threads that race.
//!
//! An entry adds a pair's first to a counter, which is its reply, writes a pair, or moves between two counters.
//! `Kernel::add` looks at the pair, holds the counter and ends, again and again until its look is true; `Kernel::put`
//! holds the pair and writes it; `Kernel::shift` holds two counters and moves 1. Proved of all three: the book's
//! entries of the caller's task have grown by that one entry, whose reply is the sum at its place, or which leaves as
//! much in both counters as they had together, or by none.
#![tactic(auto)]

mod adding;
mod kernel;
mod machine;
mod moving;
mod orders;
mod putting;
mod racing;
mod sharing;
#[cfg(test)]
mod tests;
mod turns;

pub use adding::{Added, Tried};
pub use kernel::Kernel;
pub use machine::{Entry, Part, Tally};
pub use moving::Counts;
pub use racing::{COUNTER, PAIR, Raced, race};
pub use sharing::{FULL, Moves, come_to_the_limit, move_all};
pub use turns::{Turned, pages_had, take_turns};
