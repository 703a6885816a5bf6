//! What an entry does to a kernel, done in place: the steps of the plain kernel.
//!
//! A caller has a `Kernel` of `kernel_model`, and an `Entry` that may be made there. `change` does what the entry does,
//! but for the count of entries, and answers whether the entry fits. The work of instructions and calls is done by the
//! functions of `guest_access`, `kernel_calls` and `call_fs`, over copies of the caller's address space and of the
//! shared areas (a `Draft`), which take their places once the entry is seen to fit. Numbers that a call drew are given
//! by `node_numbers`. No entry of a task that sleeps on a futex word fits, and of one that was woken only the call that
//! it slept in.
//!
//! Proved: `change` does the changes that the entry's row comes to by the definitions of `kernel_model`, and answers
//! whether there are any; a refusal or want of memory leaves the kernel as it was (`Does`).
//!
//! Not said: which entries may be made, time, or which task comes next.
//!
//! Standards: RISC-V Unprivileged ISA 20191213, Linux man-pages sections 2, 3 and 7.
#![tactic(auto)]

mod ahead;
mod callers;
mod calls;
mod drafts;
mod effects;
mod entries;
mod moving;
mod step;
mod waiting;

pub use ahead::{Ahead, look_ahead};
pub use step::change;
