//! Pipes: bytes on their way from writers to readers, and the ends that are open.
//!
//! A caller sees a `Pipe` as a list of at most 65,536 bytes (`within`), oldest first, and the numbers of its read and
//! write ends. A new one is empty and has one end of each kind, as pipe2(2) makes them.
//!
//! Proved of `read`: it waits exactly where it wants some bytes, none are there and a write end is open (`wait`); else
//! it gets all that are there, at most as many as it has room for (`got`), so nothing where no write end is left, and
//! nothing into a buffer of length 0 (`nothing`). The oldest bytes stand in the buffer's front, in order, and the rest
//! of it is as before (`bytes`); they have left the pipe (`rest`). Proved of `write`: it's broken exactly where no read
//! end is open (`broken`), and else waits exactly where there is no room for all of up to 4,096 bytes, or for one of
//! more (`wait`); else it puts as many as fit (`put`), which of up to 4,096 are all (`atomic`), behind those that are
//! there (`after`). A read that waits and a write that puts nothing change nothing (`unchanged`). `oldest` lends the
//! bytes that are there, `skip` drops the first of them as a read does, `put` puts bytes for which there is room, and
//! `truncate` drops the last of them. Opening and closing an end counts that end and changes nothing else.
//!
//! Only `Pipe::new` takes memory: the room for all the bytes that the pipe ever holds.
//!
//! Not said: who has the ends, and when a task that waits tries again.
//!
//! Standard: pipe(7), I/O on pipes and FIFOs, Pipe capacity and PIPE_BUF; pipe(2); read(2); write(2). That a blocking
//! write of more than 4,096 bytes puts what fits now, in place of waiting for all, is a choice of this project. No
//! locks.
#![tactic(auto)]

mod pipe;
mod ring;

pub use pipe::{ATOMIC, Pipe, PipeRead, PipeWrite};
pub use ring::CAPACITY;
