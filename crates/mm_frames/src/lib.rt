//! Frames: the 4,096 bytes of a page of guest memory, shared by several holders until one of them writes, and the
//! page's words, decoded, as a cache.
//!
//! A caller sees a `Frame` as the list of its bytes (`bytes_of`), whether it has them for itself (`is_own`), so that a
//! store takes no memory, and whether its words are there decoded (`has_row`). `Frames` are pages one behind another
//! (`pages_of`, `owned_of`). What is read and stored is said in `specs/Numbers.antt`: a number's bytes lie lowest
//! first.
//!
//! Proved: each read gives exactly what lies there, and `None` exactly where the page doesn't reach so far or no
//! access is so wide. A store leaves exactly the bytes before with the new ones in their place (`ok`, `bytes`), and
//! the frame own (`own`, `owned`). An `Err` is want of memory, changes nothing (`err`), and comes only where it wasn't
//! own (`shared`): zeros that nobody has written take no memory, so that their first store takes some, as that to a
//! shared frame does. `put_number` and `put_bytes` take none, and answer `true` exactly where the frame is own and
//! what is put fits (`fits`). `share` gives another frame of the same bytes, and neither is own from then on (`lost`).
//! A row that is there is always that of the bytes (`decoded`): a store of a byte or a number decodes the words anew
//! that it changes, and a run drops the row.
//!
//! Not said: that memory suffices, how many holders a shared frame has, or that a frame becomes own again when the
//! other holders are gone. That a store leaves the other holders their bytes is the meaning of a contract that speaks
//! of one frame alone; tests show it.
//!
//! Standard: RISC-V Unprivileged ISA 20191213, 1.4 and 1.5 (little-endian memory, words of instructions); fork(2),
//! NOTES (copy-on-write pages); mmap(2), MAP_ANONYMOUS (pages of zeros). No locks.
#![tactic(auto)]

mod bytes;
mod frame;
mod frames;
mod numbers;
mod row;

pub use bytes::Bytes;
pub use frame::Frame;
pub use frames::Frames;
pub use row::Row;
