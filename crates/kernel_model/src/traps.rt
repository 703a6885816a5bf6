//! What an instruction comes to.

use rv_table::Area;

/// What the next instruction of a task does: it goes on, calls the system, traps with that signal, which changes
/// nothing, or touches a shared area that is not in hand.
#[derive(Clone, Copy, Debug, PartialEq, Eq)]
pub enum Next {
    Goes,
    Calls,
    Traps(u8),
    Touches(Area),
}
