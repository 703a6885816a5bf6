//! Test data that several crates use: instruction words, programs, and images of programs, all for RV64IMA under
//! Linux's call numbers, and LISAFS messages.
//!
//! A caller sees data with names. `words` has single instructions as numbers, each with the text that an assembler
//! takes for it; `programs` has lists of them, with what such a program writes and how it ends, some on a shared page;
//! `images` has whole ELF-64 files as bytes, and `messages` single messages. `image_of` makes such a file of a list of
//! words.
//!
//! Proved: what `image_of` gives, but for want of memory, is exactly `image` of `specs/Images.antt`, field by field of
//! the standard's headers, and then the words, the lowest byte of each first.
//!
//! Not said: that memory suffices; what a program does, for which an emulator is the witness.
//!
//! An assembler made the instructions, and a disassembler read them again. A linker made the images `GUEST`, but for
//! its section headers, and `HELLO`; `TWO_SEGMENTS` was written by hand after the standard. What the programs and
//! `HELLO` write and exit with, but for random bytes, is what an emulator of Linux's calls for RISC-V showed: it ran
//! the text of `HELLO` linked with its pages aligned.
//!
//! Standard: ELF-64 Object File Format, version 1.5; RISC-V ELF psABI, ELF Object Files; RISC-V Unprivileged ISA
//! 20191213, chapter 24, and section 1.5 for the order of bytes.
#![tactic(auto)]

mod image;
pub mod images;
pub mod messages;
pub mod programs;
pub mod words;

pub use image::image_of;
pub use programs::SampleProgram;
