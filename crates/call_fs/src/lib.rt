//! The system calls on descriptors, as functions over the parts that their rows use, and the table of all calls.
//!
//! A caller sees `call`, which tells what becomes of a call of a live task (`CallEnd`): those on what is open are
//! prepared here, and each other by `kernel_calls`, whose `commit` does what is prepared. It takes what each call uses
//! out of what is open (`OpenFiles`), and hands that in alone: to `dup`, `dup3`, `ioctl`, `close` and `pipe2` the
//! caller's descriptor table; to `lseek`, `pread64` and `pwrite64` an open file description; to `fcntl` both; and to
//! `read`, `write`, `readv` and `writev` that with the pipe of which it is an end (`file_in_hand`). Most come to a
//! reply and a `FileChange` (`FilePrepared`). The last four reply with a `Transfer`, or wait (`Transferred`): a read
//! has put bytes into memory then, and what a pipe or the console loses or gets `commit_transfer` does, from the
//! guest's pages straight into the pipe (`after_transfer`). `buffers_at` finds buffers whose records lie in memory.
//! `pipe2` prepares a `NewPipe`, and `make_pipe` makes it.
//!
//! Proved, by the definitions of `kernel_model`: `call` comes to what its row says, for every number (`row`), with the
//! clauses of `kernel_calls` beside it (`apart`, `own`, `ended`, `waits`, `room`, `err`, `err_areas`), and bytes are
//! put into a pipe only where it has room (`sure`). The row of each call here comes to the reply that was prepared, and
//! its changes leave what the prepared change leaves, in every state that has what was handed in, whatever else is open
//! in it (`row`). `commit_transfer` and `make_pipe` leave that (`ok`). A call that waits leaves memory as it was, and
//! want of memory changes nothing (`err`).
//!
//! Not said: which task calls, what its registers hold afterwards, and which entry is made.
//!
//! Standards: dup(2), fcntl(2), ioctl(2), close(2), lseek(2), pread(2), read(2), write(2), readv(2), pipe(2) and
//! pipe(7) of the Linux manual pages; Linux's asm-generic/fcntl.h. Which commands fcntl takes, and the order of two
//! errors, are choices of this project. No locks.
#![tactic(auto)]

mod call_end;
mod calls;
mod descriptors;
mod gathering;
mod lookups;
mod moving;
mod pipes;
mod prepared;
mod reads;
mod seek;
mod transfers;
mod vectors;
mod vectors_read;
mod vectors_write;
mod waiting;
mod writes;

pub use call_end::CallEnd;
pub use calls::call;
pub use descriptors::{close, dup, dup3, fcntl, ioctl};
pub use lookups::{FileInHand, file_in_hand};
pub use pipes::{NewPipe, PipeCall, PipeEnds, make_pipe, pipe2};
pub use prepared::FilePrepared;
pub use reads::read;
pub use seek::{lseek, pread64, pwrite64};
pub use transfers::{Transfer, Transferred, commit_transfer};
pub use vectors::{Buffers, Vectors, buffers_at};
pub use vectors_read::readv;
pub use vectors_write::writev;
pub use writes::write;
