//! The plain kernel: a kernel of one thread over one state, which does each entry as the definitions say.
//!
//! A caller opens a `Plain` by the record of an opening, over a tree for each mount, and has it do entries one after
//! another; it answers whether each of them fits. Its state is a `Kernel` of `kernel_model`, for everybody to see. What
//! an entry does is done by `plain_steps`, and nodes get their numbers by `node_numbers`. Nothing of the program's run
//! stands on these three crates: they show that the definitions can be obeyed, and tests run traces on this one. No
//! entry of a task that sleeps on a futex word fits, and of one that was woken only the call that it slept in. What a
//! task has ahead of it can be asked before (`Plain::ahead`): the reply of its call, without which no entry fits.
//!
//! Proved: `Plain::opening` and `Plain::step` are the definitions (`ok`, `refused`, `fits`), and a refused step or one
//! out of memory changes nothing (`ok`, `err`). `Plain::ahead` is what the row of the call comes to by the definitions
//! (`told`), and changes nothing (`kept`).
//!
//! Not said: time, which task comes next, or what a host is.
//!
//! Standards: RISC-V Unprivileged ISA 20191213, ELF-64 Object File Format, Linux man-pages sections 2, 3 and 7.
#![tactic(auto)]

mod opening_tasks;
mod plain;
mod records;
mod walking;

pub use plain::{OpeningErr, Plain};
pub use plain_steps::Ahead;
