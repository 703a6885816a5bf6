//! Records that system calls store in a guest's memory, or read there, as bytes: struct stat, struct linux_dirent64
//! and struct iovec.
//!
//! A caller fills in a `Stat` or a `Dirent` and gets its bytes, or hands in bytes and gets the list of the `IoVec`s in
//! them. Contracts see bytes as lists of numbers, and a `Dirent` with the bytes of its name (`DirEntry`). `stat_record`
//! and `dirent_record` are the bytes of a record, a field a line; `iovecs_in` are the buffers in some bytes.
//!
//! Proved of `stat_bytes`: it gives the 128 bytes of `stat_record` (`bytes`), in which each field is read at its offset
//! and all other bytes are 0 (`fields`). `put_stat` and `put_dirent` add their record at the end (`ok`), so many bytes
//! (`length`), or leave the bytes as they were (`err`); an entry's record is read as it was filled in, tells its own
//! length, and ends its name with a NUL (`fields`). `dirent_length` is the least multiple of 8 with room for all that
//! (`value`, `multiple`, `room`, `least`).
//!
//! Proved of `iovec_bytes`: it refuses the counts outside 0 to 1,024, and no others (`count`, `within`, `fault`).
//! `iovecs` gives all buffers in order (`ok`, `count`), and is refused with `Sum` exactly where they have more than
//! 2^63 - 1 bytes in all (`sum`, `fault`), whatever the memory (`faulty`). `total` is that sum. None of them wraps.
//!
//! Not said: that memory suffices, where the records lie in a guest's memory, and which numbers a node has.
//!
//! Standard: stat(2) and inode(7); Linux's asm-generic/stat.h, as riscv64 has it; getdents64(2) and readdir(3);
//! readv(2). Owner and group 1,000, blocks of 4,096 bytes and times of 0 are choices of this project. No locks.
#![tactic(auto)]

mod dirent;
mod iovec;
mod kind;
mod place;
mod stat;

pub use dirent::{Dirent, dirent_length, put_dirent};
pub use iovec::{IOV_MAX, IoVec, IoVecErr, iovec_bytes, iovecs, total};
pub use kind::FileKind;
pub use stat::{OWNER, STAT_SIZE, Stat, put_stat, stat_bytes};
