//! Executable files: whether bytes are an ELF-64 executable for RISC-V, and the image that they are.
//!
//! A caller hands in a file's bytes and gets an `Image`: where the program starts, its loadable segments in the
//! file's order, each with its address, its size, what the file has of it, and its rights, and where in memory the
//! table of program headers stands. Contracts see an image as a record of these (`Loadable`), and the bytes as the
//! numbers that stand in them.
//!
//! Proved of `read_image`: what it gives is `image_in` of the bytes (`ok`), with the table's address in the first
//! segment that holds all of it, or 0 (`headers_in_memory`); and it gives something only where
//! the bytes have no fault (`sound`); its segments have no address in common (`apart`), and it starts in one that
//! may be executed (`starts`); a refusal tells the first fault in the order of `ImageFault`, or want of memory, for
//! bytes without one (`fault`); bytes with a fault are refused with that one, whatever the memory (`faulty`).
//! `image_fault` gives the first fault, exactly. Every image has at most 64 segments, each of at least one byte,
//! between the addresses 4,096 and 2^37, and not shorter than what the file has of it; the pages that they meet are
//! so few that a loader's sums fit (`AreLoadable`).
//!
//! Not said: that memory suffices. Section headers, alignments (`p_align`), and program headers of other types
//! than PT_LOAD and PT_INTERP aren't looked at.
//!
//! Standard: ELF-64 Object File Format, version 1.5; RISC-V ELF psABI, File Header. The order of the faults and
//! the bounds are this project's own.
#![tactic(auto)]

mod fault;
mod header;
mod image;
mod table;

pub use fault::{ImageFault, image_fault};
pub use header::{FILE_HEADER_SIZE, MOST_HEADERS, PROGRAM_HEADER_SIZE};
pub use image::{Image, Segment, SegmentRights, read_image};
