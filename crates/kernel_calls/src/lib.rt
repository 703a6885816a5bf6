//! The system calls of the Sentry, as functions over the parts that their rows use.
//!
//! A caller sees `call`, which tells what becomes of a call of a live task (`Called`): it replies, makes a child, puts
//! its task to sleep on a futex word, or waits. What it does to memory is done then. What is left of it to do to the
//! task list, the futex list or what is open `commit` does, `make` gives a child its place, and `sleep` puts a task to
//! sleep. `end_group` prepares the end of a thread group by a signal. `args_of`, `call_of` and `reply` are of the
//! registers at a call; and of execve there are `is_too_long`, `read_executable`, `opened`, `opening_random`,
//! `open_task` and `root_of`. They know no host and no trace; of other tasks' registers `make` alone knows, which puts
//! a child's among them. Buffers go by `guest_access`, and what is open changes by `file_changes`.
//!
//! Proved, by the definitions of `kernel_model`: `call` comes to what its row says, in every state that has what was
//! handed in (`row`). Where what is left may lack memory, and where the call waits, memory is as it was (`apart`), and
//! for a child there is room (`room`). Want of memory changes nothing, and no area under its name (`err`, `err_areas`).
//! So it is with `end_group` (`ends`). `commit` leaves what the row changes, and `make` and `sleep` that, or nothing
//! (`ok`, `err`). `read_executable` is the image as execve takes it (`image`, `pages`), `opened` what an opening task
//! begins with (`registers`, `space`), and the last three are of its random bytes, its place, and its directory.
//!
//! Not said: which tasks there are, what a host is, and what an entry changes.
//!
//! Standards: RISC-V Unprivileged ISA 20191213, ELF-64 Object File Format, Linux man-pages sections 2, 3 and 7.
#![tactic(auto)]

mod arguments;
mod calls;
mod clear_words;
mod clone;
mod context;
mod ending;
mod executable;
mod filling;
mod futex;
mod identity;
mod making;
mod mapping;
mod memory;
mod opened_task;
mod prepared;
mod random;
mod registers;
mod time;
mod wait;

pub use arguments::is_too_long;
pub use calls::{call, refused};
pub use clone::{ClonedTask, Words};
pub use context::Context;
pub use ending::end_group;
pub use executable::read_executable;
pub use making::make;
pub use opened_task::{Beginning, open_task, opened, root_of};
pub use prepared::{Awaited, Called, Effect, Ending, Prepared, UsedEnd, commit, sleep};
pub use random::opening_random;
pub use registers::{args_of, call_of, reply};
