//! One instruction of a task.

use rv_table::Area;

/// What a step came to.
///
/// - `Next`: the instruction was done, and the task stands at the next one.
/// - `Call`: it is a system call, which is not done here.
/// - `Trap`: it traps with that signal.
/// - `Shared`: it touches that shared area, which is not handed in.
/// - `Memory`: want of memory.
///
/// All but `Next` change nothing.
#[derive(Clone, Copy, Debug, PartialEq, Eq)]
pub enum Step {
    Next,
    Call,
    Trap(u8),
    Shared(Area),
    Memory,
}
