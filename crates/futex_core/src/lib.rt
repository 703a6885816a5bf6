//! The futex list of a kernel: which tasks sleep on which futex word, and which were woken and haven't answered yet.
//!
//! A caller sees `Waiters` as two lists: the sleepers, each a task and the name of its word, in order of sleeping, and
//! the woken tasks, in order of waking. A word's name is a `FutexKey`: what it lies in, the memory of one address space
//! or an area that several share, and its address there. A task goes from asleep to woken by a wake, and out of the
//! list by `leave`: when its call is entered, or when it ends.
//!
//! Proved of `wait`: the task is the last sleeper and nothing else changed (`slept`), which comes only where the word
//! is what the task expected (`equal`); it's told that the word differs exactly where it does (`differs`), and then
//! nothing changes (`unchanged`). Want of memory changes nothing (`err`) and comes only where the task would have slept
//! (`err_equal`). Proved of `wake`: the first `n` who sleep on that very word are woken, in order, and all others sleep
//! on (`after`); the answer is how many they are (`count`). `is_woken` and `is_asleep` are exact (`woken`, `asleep`),
//! and tell that no task is in the list twice, nor both asleep and woken (`once`). `woken_above` is the
//! least woken task above a number. After `leave` the task is in neither
//! list, and all others are as they were. Two names are of one word only where they are equal (`same`).
//!
//! Only `wait` takes memory: it takes the room for the sleeper's waking too.
//!
//! Not said: what the word holds, which the caller reads, and when a woken task runs.
//!
//! Standard: futex(2), FUTEX_WAIT and FUTEX_WAKE, without timeouts. That waking goes by the order of sleeping is a
//! choice of this project. No locks.
#![tactic(auto)]

mod keys;
mod waiters;

pub use keys::{FutexKey, Owner};
pub use waiters::{Sleeper, Waited, Waiters};
