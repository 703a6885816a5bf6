//! The state of a run, and its turns: the entries that its tasks make, one after another.
//!
//! A caller sees `Processes`: the cells of proc_cells, which its tasks share. It begins with none (`new`), takes
//! opening tasks one after another, numbered 1 up (`open`), and has its tasks make the entries of a run (`run_turns`).
//! Each turn is one call, one task put to sleep, one end by a signal or one run of instructions, of the least task
//! above that of the last turn, or else of the least, of the live tasks whose next step is ready. An instruction that
//! touches a shared area is a run of its own. The mount file's seed comes with each entry, as its place does. What the
//! host gave stands beside: no entry so far reads or changes a node. What is open goes along: an opening task opens its
//! descriptors, a child process has a copy of its parent's, and a thread group that ends closes its own.
//!
//! A task that sleeps on a futex word is not looked at before it was woken, and one whose call waits not before the
//! list of tasks has changed, another task of its memory made an entry, or something else may have changed that the
//! call used: a shared area, or a pipe, its description or the descriptor table that it was found by. A call that moves
//! bytes touches its pipe alone, and one that makes a pipe the names that it makes and its table. Tasks are parked in
//! parked_tasks, which finds who is looked at again without a walk over all tasks.
//!
//! Proved: with an opening task more the processes are the kernel with that task (`begun`). A run of turns is a history
//! of the kernel that the processes are with that seed, whatever else stands beside them (`history`), each of whose
//! Runs is whole (`whole`), and each of whose entries is of the task whose turn it is (`turns`); it leaves the
//! processes (`state`), is no longer than asked for (`bound`), and ends where no task's next step is ready or the trace
//! is full (`ended`). Private: each entry is a step (`advance`), what it leaves as it was is told (`moves`), and why
//! the step of a parked task is not ready (`parks`).
//!
//! Not said: time, fairness, or what a host is.
//!
//! Standard: the entries are the profile's; Linux man-pages sections 2 and 7.
#![tactic(auto)]

mod answers;
mod entered;
mod entries;
mod moving;
mod processes;
mod schedule;
mod turns;

pub use processes::{Processes, TaskOpening};
pub use turns::{EndedTurns, run_turns};
