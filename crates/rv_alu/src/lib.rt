//! What the instructions of RV64I and RV64M compute: the value of an instruction, of the numbers that it is given, and
//! which branches are taken.
//!
//! A caller hands in a decoded instruction (`Instr`), and two registers' contents: what rs1 holds, or pc for AUIPC, and
//! what rs2 holds. Immediates and shifts that an instruction says itself stand in it. Contracts see a register as the
//! number from 0 to 2^64 - 1 that its bits are; where the manual speaks of a sign, they read it as two's complement.
//!
//! Proved of `alu`, of every instruction and all numbers: the value is `value_of`, the definition that has a row for
//! each instruction in the manual's order. No instruction traps: a division by 0 and the one quotient that doesn't fit
//! have the values that the manual gives them. A W instruction reads the low 32 bits alone, and its value has their
//! sign carried on to 64. Proved of `is_taken`, in the same way: a branch is taken where the definition `is_taken` says
//! so.
//! Nothing is asked of the caller, and no memory is taken.
//!
//! Not said: which registers and which immediate a word names (`rv_table`), where the value and a branch go, and what
//! jumps, loads, stores, fences, system calls and atomic instructions do. Those have 0 here, and are not taken.
//!
//! Standard: RISC-V Unprivileged ISA 20191213: chapter 2, RV32I, chapter 5, RV64I, and chapter 7, M.
#![tactic(auto)]

mod branches;
mod divide;
mod multiply;
mod shifts;
mod values;
mod words;

pub use branches::is_taken;
pub use values::alu;
