//! Numbers that many threads draw, no number twice.
//!
//! A caller sees a `Pass` as the runs of numbers that were drawn with it, newest first, each as its first number and
//! how many there are; the numbers of a run stand in a row. A new pass has drawn nothing, and each thread draws with a
//! pass of its own, so nobody waits.
//!
//! Proved of `draw`: it answers the first of `count` numbers in a row (`drawn`), all above 0 (`positive`) and below
//! 2^63 + 16 (`small`), and of all runs of the pass no two have a number in common (`once`). Where another thread drew
//! between its two steps, or 2^63 numbers are gone, it answers `Raced` with what it found (`raced`), and has drawn
//! nothing (`nothing`). Proved of `join`: the runs of both passes are in hand (`both`), and no two of them have a
//! number in common (`once`), so what two passes drew differs at all times.
//!
//! Only `Opened::new` takes memory.
//!
//! Not said: which numbers come, but that they are above 0, and how often a caller is `Raced`.
//!
//! One atomic word, the number drawn last, without locks: a draw is one load and at most one compare-exchange, as with
//! `AtomicU64`.
#![tactic(auto)]

mod ids;
mod rule;

pub use ids::{Ids, Opened, Pass, Raced};
pub use rule::{OfIds, View};
