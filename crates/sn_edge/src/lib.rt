//! The two ways in which bytes come from the outside and go there: files that are read by name, and a stream
//! that is written.
//!
//! A `Source` tells what its files hold, what is left of the one last opened, and how much was read; a
//! `Sink` tells all the bytes that it took. `MemSource` and `MemSink` tell it, and fail at the calls that
//! they are told to; `FileSource` and `StdSink`, over the system, tell nothing. `read_all` and `write_all`
//! work over any of them.
//!
//! Proved: `read_all` gives the front of the file of that name, up to a byte more than its limit
//! (`content`), with no read but the last that takes nothing, and leaves the files (`told`); `write_all`
//! has all bytes taken, or a front of them and not all (`ok`, `err`). Where a call answers `Failed` the
//! count of faults has risen, and where it answers otherwise the count has stayed (`cause`). A source or
//! sink no call of which is to fail doesn't answer `Failed` (`unfailing`, `succeeds`).
//!
//! Not said: what a file of the system holds, what becomes of the bytes that a writer took, and when
//! memory runs out.
//!
//! As open(2), read(2) and write(2). A count of faults stays at its greatest value, 2 ^ 64 - 1.
#![tactic(auto)]

mod error;
mod file_source;
mod mem_sink;
mod mem_source;
mod named_file;
mod plan;
mod reading;
mod sink;
mod source;
mod std_sink;
mod system;
mod tally;
mod writing;

pub use error::EdgeErr;
pub use file_source::FileSource;
pub use mem_sink::MemSink;
pub use mem_source::MemSource;
pub use reading::read_all;
pub use sink::Sink;
pub use source::Source;
pub use std_sink::StdSink;
pub use writing::write_all;
