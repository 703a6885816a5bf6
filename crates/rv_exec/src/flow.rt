//! What an instruction comes to, without what a refusal is about.

/// What an instruction came to.
///
/// - `Next`: the instruction was done, and the task stands at the one behind it.
/// - `Jump`: the instruction was done, and the task stands where it led.
/// - `Call`: it is a system call, which is not done here.
/// - `Trap`: it traps with that signal.
/// - `Refused`: one of its accesses was refused. Why, who made the access knows.
///
/// All but `Next` and `Jump` change nothing. It carries nothing wide, since it is answered at each instruction.
#[derive(Clone, Copy, Debug, PartialEq, Eq)]
pub enum Flow {
    Next,
    Jump,
    Call,
    Trap(u8),
    Refused,
}
