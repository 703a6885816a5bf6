//! Where the tasks of a pool are while no turn of theirs runs: a queue of those that can go on, those that are parked,
//! and those that are over. Plain data, with no thread.
//!
//! A caller sees `Places` as its fields: `ready` and `parked`, each first in, first out; `ended`; how many tasks are
//! out for a turn (`running`); how many turns answered anything but Parked (`turns`); and whether turns may begin
//! (`halt`).
//!
//! Proved: `take` gives the first that is ready, with the count as its turn begins (`first`, `began`), and none where
//! none is ready or no turn may begin (`none`, `going`). A turn that answered anything but Parked wakes all that are
//! parked, in their order, before its own task (`queue`), and counts (`counted`). A task that parks is ready at once
//! where such a turn ended after its own began, and is parked else (`park`). `fork` alone takes memory, and only where
//! the room for `ROOM` tasks that are not over doesn't suffice; where it gets none it leaves all as it was (`err`).
//! `close` tells how the pool ended and gives every task back (`left`, `ended`, `kind`).
//!
//! Not said: what a task is, or who calls.
//!
//! The count of turns stays at 2 ^ 64 - 1; from then on no task is parked, and each is tried again and again.
#![tactic(auto)]

mod closing;
mod ends;
mod places;
mod turns;

pub use ends::{PoolEnd, Tried};
pub use places::{Halt, Places, ROOM};
