//! What a guest's memory gives and takes: buffers of its calls, and its instructions, with the shared areas that they
//! touch, which are handed in as they are asked for.
//!
//! A caller sees an address space and the shared areas by name. `read`, `write` and `is_accessible` are of one buffer,
//! `scatter` puts bytes into several, and `send` puts a buffer's bytes into a pipe; `asks_for_area` tells whether a
//! buffer touches shared areas. `run` does a task's instructions up to one that calls, traps or touches a shared area,
//! and `step` one with the shared areas that it touches. Behind each of them all areas are in their places again.
//!
//! Proved, by the definitions of `kernel_model`: what is read is what the buffer's bytes are (`bytes`), and what was
//! put is what they become, all of them or none (`wrote`); what is sent goes behind the pipe's bytes (`sent`); want of
//! memory changes nothing (`err`). `run` is so many instructions one after another (`steps`), up to its limit or to one
//! that stops it (`within`, `stopped`), or fewer (`memory`). `step` tells what the next instruction does (`next`),
//! leaves what its row leaves where it goes on (`goes`), and else what was there (`kept`, `err`).
//!
//! Not said: which calls there are, and what they do with the bytes.
//!
//! Standards: RISC-V Unprivileged ISA 20191213; read(2), readv(2), write(2) and mmap(2) of Linux's manual.
#![tactic(auto)]

mod buffers;
mod instructions;
mod lending;
mod scattering;
mod sending;
mod stepping;
mod two_runs;

pub use buffers::{asks_for_area, is_accessible, read, write};
pub use instructions::{InstructionRun, run};
pub use scattering::scatter;
pub use sending::send;
pub use stepping::step;
pub use two_runs::front;
