//! What is open, as descriptors are made, copied, given, marked and closed.
//!
//! A caller has an `OpenFiles`: descriptor tables, open file descriptions with the number of descriptors of each, and
//! pipes, each by its name. `open_files` makes what an opening task has, `copy_table` copies a table for a process that
//! is made, and `close_table` closes all of one with its thread group. `change_files` does one change (`FileChange`) of
//! a caller's table: a number gets what another stands for, is marked, or is closed, or a description has other status
//! flags. `count_one` and `drop_one` are of a single description, which has a descriptor more or fewer.
//!
//! Proved, by the definitions of `kernel_model`: `open_files` leaves what its task begins with (`files_opened`),
//! `copy_table` a copy with each of its descriptions counted (`ok`), or what was there (`err`), and `close_table` no
//! such table, with each of its descriptions counted off; `change_files` leaves what `specs/` has for that change
//! (`files_after`). What has its last descriptor counted off is gone, and with it the end of a pipe, and a pipe with
//! its last end. A name that nothing has changes nothing. Nothing but `open_files` and `copy_table` takes memory.
//!
//! Not said: whose table it is, which call changes it, whether a change is refused (what can't be done changes
//! nothing), and what `open_files` leaves where memory is wanting.
//!
//! Standards: stdin(3), fork(2), _exit(2), dup(2), fcntl(2), close(2), and pipe(7), I/O on pipes and FIFOs, of the
//! Linux manual pages. The names of what an opening task has are choices of this project. No locks.
#![tactic(auto)]

mod change;
mod counts;
mod opened_files;

pub use change::{FileChange, change_files};
pub use counts::{close_table, copy_table, count_one, drop_one};
pub use opened_files::open_files;
