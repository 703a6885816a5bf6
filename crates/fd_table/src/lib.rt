//! Descriptor tables: which numbers are open and what each has, and what an open file description is.
//!
//! A caller sees an `FdTable` as a finite map from the numbers that are open, none above 255 (`within`), to their
//! descriptors: the name of an open file description, and whether execve(2) closes the number. A `Description` is the
//! record of its fields, and `OpenFlags` are a number's bits, of which 11 have names. The descriptions that names
//! stand for aren't kept here.
//!
//! Proved: `install` and `dup` open the lowest free number at or above the least asked (`lowest`), and are refused as
//! `Full` exactly where there is none (`full`), from 0 on exactly where 256 are open (`all`); before that `dup` is
//! refused as `BadFd` exactly where its number isn't open (`bad_fd`). `dup` and `dup3` give a number another's
//! description, with the mark that the call gives (`ok`); `dup3` answers what had the place (`replaced`), and
//! `dup3_fault` says which fault it answers (`fault`). `close` answers what the number had, or that it isn't open
//! (`answer`), and frees it (`ok`). After an error the table is as before (`err`). A copy is equal, and `numbers` and
//! `on_exec` give the open numbers, and those that execve(2) closes, ascending. `access` is what the low two bits say
//! (`access_in`), `status_flags` what F_GETFL answers, and `set_status` sets O_APPEND and O_NONBLOCK alone.
//!
//! Only `new`, `copy`, `numbers` and `on_exec` take memory. A look-up goes by index; `install` and `dup` look at the
//! numbers from the least asked to the one that they open.
//!
//! Not said: which descriptions there are, and when one is closed with its last descriptor.
//!
//! Standard: open(2), close(2), dup(2), fcntl(2) and execve(2) of the Linux manual pages; Linux's asm-generic/fcntl.h.
//! 256 numbers, and that the access mode 3 is refused, are choices of this project. No locks.
#![tactic(auto)]

mod description;
mod descriptor;
mod flags;
mod slots;
mod table;

pub use description::{Description, Object, PipeSide};
pub use descriptor::{Descriptor, FdErr};
pub use flags::{AccessMode, O_APPEND, O_CLOEXEC, O_NONBLOCK, OpenFlags};
pub use table::{FdTable, OPEN_MAX};
