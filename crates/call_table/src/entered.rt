//! What a turn of a task comes to.

use kernel_model::Entry;
use parked_tasks::{Spot, Touched};

/// An entry that a task made, whether it changed the task list, whether it may have changed a shared area, and what of
/// what is open it may have changed, where it left the task list.
#[derive(Drop)]
pub(crate) struct Entered {
    pub(crate) entry: Entry,
    pub(crate) tasks: bool,
    pub(crate) areas: bool,
    pub(crate) touched: Option<Touched>,
}

/// What a turn of a task that is not on the futex list comes to.
///
/// - `Enters`: it made an entry.
/// - `Waits`: its call waits, and goes on to as long as the task list, the task's registers, and what it used are what
///   they are.
#[derive(Drop)]
pub(crate) enum Turn {
    Enters(Entered),
    Waits(Spot),
}
