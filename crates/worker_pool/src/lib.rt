//! A pool of workers, each on a thread of its own, that runs the turns of tasks until all are over or none can go on.
//!
//! A caller sees `Pool::run`, over any `Turn`: it hands in tasks and gets back how the pool ended (`PoolEnd`), with all
//! tasks, those that were forked too. The caller is one of the workers, and where no thread is to be had the only one.
//!
//! Proved of `Pool::run`: unless memory ran out, the tasks that come back have the numbers of those handed in and of
//! those that these tasks forked since, each as often (`numbers`). It is `AllEnded` exactly where the last turn of
//! each answered Ended (`all_ended`), and those told as over are (`over`). It is `Stuck` only where tasks are left,
//! the last turn of each of them answered Parked, and the pool's count of turns that answered anything else is what it
//! was as that turn began (`stuck`). It is `Full` only where a task's last turn answered Full (`full`). Proved of the
//! desk, for each turn that ends: which task is put where, who is woken and what is counted (`ready`, `parked`,
//! `over`, `turns`), whether turns may begin from then on (`halt`), and that this very task came back (`knot`); and of
//! `take`: no turn begins after Full or want of memory (`going`).
//!
//! That no task is lost or run by two workers: under the lock lies a knot that knows the note of each task that is
//! out, and with each such task goes the share of its note. Where none is out, those that are here are all.
//!
//! Not said: that `run` returns, since a turn may wait; nor which worker runs a turn, or that two ever overlap.
//!
//! The words are those of cooperative scheduling. Lock: the desk's, the only one; no turn and no gate runs under it, so
//! a turn may take locks of its own. A worker that finds no task sleeps on the condition variable beside it, and is
//! woken by a turn's end that leaves more than one task ready, or nothing to wait for.
#![tactic(auto)]

mod crew;
mod desk;
mod handed;
mod pool;

pub use handed::Handed;
pub use pool::{Pool, WORKERS};
pub use pool_places::{PoolEnd, Tried};
