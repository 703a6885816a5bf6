//! Little-endian fields in bytes: how numbers of 1, 2, 4 and 8 bytes are read out of a file's bytes, and
//! how they are added to the end of some.
//!
//! A caller sees bytes as a list of numbers. A field is its width and its place, the offset of its lowest
//! byte. `field width at bytes` is the number that stands there, `field_at` the same as an option, and
//! `little_bytes width n` the bytes of a number, all of `specs/Fields.antt`.
//!
//! Proved: a read gives exactly `field_at`, so the number where the whole field is inside and `None` where
//! it is not, at every place up to the greatest; a write adds exactly `little_bytes` at the end (`ok`), where
//! the number is read back (`back`), and one that is refused for want of memory leaves the bytes as they were
//! (`err`).
//!
//! Not said: that memory suffices. Signed numbers and other orders of bytes are no part of this.
//!
//! Standard: ELF-64 Object File Format, version 1.5, Data Representation, ELFDATA2LSB.
#![tactic(auto)]

mod read;
mod write;

pub use read::{u8_at, u16_at, u32_at, u64_at};
pub use write::{put_u8, put_u16, put_u32, put_u64};
