//! The table of RISC-V instructions, RV64IMA and Zifencei, and the decoder: a word of 32 bits to its instruction.
//!
//! A caller sees an `Instr` as one of its variants, one for each row of the table, a `Reg` as its number, and an
//! immediate with its sign carried on to 64 bits. The table stands in `specs/Table.antt`, a row a line in the manual's
//! order, and the fields of a word in `specs/Fields.antt`. `rows_of word` is the list of all instructions that rows of
//! the table make of a word. The registers of a task are `Regs`, and why memory answers nothing is `MemErr`. What the
//! crates above say of numbers of 64 and of 32 bits stands in `specs/Words.antt`, with `low_word` and `signed_word` for
//! the W instructions' operands, and how they see memory, byte by byte, in `specs/Bytes.antt`.
//!
//! Proved: of every word, `decode` gives the only row that fits it, and `Illegal` where none does (`row`), which is
//! what the definition `instr_of` says (`instr`). So no two rows fit one word. A register's number is kept (`number`)
//! and below 32 (`below`).
//!
//! Not said: what an instruction does. What a row doesn't name is not looked at, as aq and rl of an atomic instruction
//! and all fields of a fence but funct3; a word without a row is `Illegal` whether the manual reserves it or an
//! extension has it.
//!
//! Standard: The RISC-V Instruction Set Manual, Volume I: Unprivileged ISA, version 20191213, chapter 24, RV32/64G
//! Instruction Set Listings; fields of chapters 2 and 5.
#![tactic(auto)]

mod atomics;
mod computations;
mod decoder;
mod error;
mod fields;
mod instr;
mod reg;
mod registers;
mod words;

pub use decoder::decode;
pub use error::{Area, MemErr};
pub use instr::Instr;
pub use reg::Reg;
pub use registers::Regs;
pub use words::{low_word, signed_word};
