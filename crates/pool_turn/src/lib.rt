//! What a pool of workers runs, turn by turn: a task, what a turn of it answers, and the gate before each turn.
//!
//! A caller sees a task as three facts that `Turn` tells of it: its number, the numbers of the children that it forked,
//! in order, and what its last turn answered (`Last`). A turn takes the task and gives it back, unless memory ran out.
//!
//! Proved: nothing here runs. The clauses of `Turn::turn` are what each implementation owes and each pool may rest on:
//! a turn keeps the task's number (`number`); the child of a fork, which is new, is the only one that it adds to those
//! forked (`forked`, `child`); and the task tells what the turn answered (`last`). No task gets a turn after `Ended`.
//! `Open` is the gate that does nothing.
//!
//! Not said: what a turn computes, how long it takes, or that it ends, since a turn may wait.
//!
//! The words are those of cooperative scheduling: a turn is what a task runs between two points at which it yields.
#![tactic(auto)]

mod gate;
mod turn;

pub use gate::{Gate, Open, Point};
pub use turn::{Last, Turn, TurnEnd};
