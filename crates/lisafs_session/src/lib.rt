//! A client's side of LISAFS: what each operation asks a server of files, and how its answer is read.
//!
//! A caller sees a `ControlFd`, which stands for a node, and an `OpenFd`, which stands for an opened file or directory.
//! Each has an `ask_` for every operation on it, which adds the request's bytes to the caller's, and a `read_`, which
//! takes the bytes that came back: it answers the value, or a `Refusal`, which is the server's errno or a mismatch.
//! The operations are a table of their numbers, and of what an answer has to be beside what was asked
//! (`specs/Operations.antt`): a walk ends within its names, and no more is read or written than was asked for.
//!
//! Proved: what is asked is the one spelling of that request (`ok`), and a refused `ask_` adds nothing (`err`). What is
//! read is what the bytes spell as an answer of the operation (`value`, with `most` and `ends` where that is tested
//! beside what was asked); an errno is that of the error which they spell (`errno`); and `Mismatch` is told exactly
//! where they are no answer of the operation (`mismatch`). Where an answer is a list, want of memory is told in place
//! of these; the other answers take no memory.
//!
//! Not said: that bytes reach a server, or which answer it gives. That an FD is one of that server isn't known either.
//!
//! Standard: gVisor, package lisafs, for the operations; their numbers and limits are this project's own.
#![tactic(auto)]

mod control_fd;
mod lists;
mod made;
mod names;
mod open_fd;
mod refusal;
mod reply;

pub use control_fd::ControlFd;
pub use made::{Created, Listed, Made, Mounted, Walked};
pub use open_fd::OpenFd;
pub use refusal::{ListError, Refusal};
