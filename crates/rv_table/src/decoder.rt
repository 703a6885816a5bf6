//! The decoder: a word to its instruction.

ghost use Rattle.std.specs.Prelude.{◌≡◌, option_to_list, ◌++◌};
ghost use Rattle.rv_table.specs.Fields.{funct3_of, funct6_of};
ghost use Rattle.rv_table.specs.Table.{by_funct3, by_two, rows_at, i_format, s_format, b_format};
ghost use Rattle.rv_table.specs.Table.{shift_format, jumps, branches, load_rows};
ghost use Rattle.rv_table.specs.Table.{store_rows, immediates, shifts};
ghost use Rattle.rv_table.specs.Table.{fences, systems, rows_of, IsOnly};
ghost use Rattle.rv_table.specs.Table.{instr_of};

use crate::Instr;
use crate::atomics::atomic;
use crate::computations::{register, word_immediate, word_register};
use crate::fields::{
    b_immediate, i_immediate, j_immediate, rd, rs1, rs2, s_immediate, shamt, u_immediate,
};

/// The instruction of a word: `Illegal` where no row of the table makes one of it.
pub fn decode(word: u32) -> Instr
    ensures row { IsOnly (rows_of word) result }
    ensures instr { result ≡ instr_of word }
{
    match row(word) {
        Some(instr) => instr,
        None => Instr::Illegal,
    }
}

/// The row of a word, by its opcode.
#[tactic(auto, unfolding(crate::specs::Table::rows_of))]
fn row(word: u32) -> Option<Instr>
    ensures row { rows_of word ≡ option_to_list result }
{
    match word % 128 {
        0x37 => Some(Instr::Lui {
            rd: rd(word),
            imm: u_immediate(word),
        }),
        0x17 => Some(Instr::Auipc {
            rd: rd(word),
            imm: u_immediate(word),
        }),
        0x6f => Some(Instr::Jal {
            rd: rd(word),
            imm: j_immediate(word),
        }),
        0x67 => jump(word),
        0x63 => branch(word),
        0x03 => load(word),
        0x23 => store(word),
        0x13 => immediate(word),
        0x33 => register(word),
        0x0f => fence(word),
        0x73 => system(word),
        0x1b => word_immediate(word),
        0x3b => word_register(word),
        0x2f => atomic(word),
        _ => None,
    }
}

/// By funct3.
fn jump(word: u32) -> Option<Instr>
    ensures { by_funct3 i_format jumps word ≡ option_to_list result }
{
    match (word >> 12) % 8 {
        0 => Some(Instr::Jalr {
            rd: rd(word),
            rs1: rs1(word),
            imm: i_immediate(word),
        }),
        _ => None,
    }
}

/// By funct3.
fn branch(word: u32) -> Option<Instr>
    ensures { by_funct3 b_format branches word ≡ option_to_list result }
{
    let rs1 = rs1(word);
    let rs2 = rs2(word);
    let imm = b_immediate(word);
    match (word >> 12) % 8 {
        0 => Some(Instr::Beq { rs1, rs2, imm }),
        1 => Some(Instr::Bne { rs1, rs2, imm }),
        4 => Some(Instr::Blt { rs1, rs2, imm }),
        5 => Some(Instr::Bge { rs1, rs2, imm }),
        6 => Some(Instr::Bltu { rs1, rs2, imm }),
        7 => Some(Instr::Bgeu { rs1, rs2, imm }),
        _ => None,
    }
}

/// By funct3.
fn load(word: u32) -> Option<Instr>
    ensures { by_funct3 i_format load_rows word ≡ option_to_list result }
{
    let rd = rd(word);
    let rs1 = rs1(word);
    let imm = i_immediate(word);
    match (word >> 12) % 8 {
        0 => Some(Instr::Lb { rd, rs1, imm }),
        1 => Some(Instr::Lh { rd, rs1, imm }),
        2 => Some(Instr::Lw { rd, rs1, imm }),
        3 => Some(Instr::Ld { rd, rs1, imm }),
        4 => Some(Instr::Lbu { rd, rs1, imm }),
        5 => Some(Instr::Lhu { rd, rs1, imm }),
        6 => Some(Instr::Lwu { rd, rs1, imm }),
        _ => None,
    }
}

/// By funct3.
fn store(word: u32) -> Option<Instr>
    ensures { by_funct3 s_format store_rows word ≡ option_to_list result }
{
    let rs1 = rs1(word);
    let rs2 = rs2(word);
    let imm = s_immediate(word);
    match (word >> 12) % 8 {
        0 => Some(Instr::Sb { rs1, rs2, imm }),
        1 => Some(Instr::Sh { rs1, rs2, imm }),
        2 => Some(Instr::Sw { rs1, rs2, imm }),
        3 => Some(Instr::Sd { rs1, rs2, imm }),
        _ => None,
    }
}

/// By funct3; where that is a shift's, by the bits above the shift too.
fn immediate(word: u32) -> Option<Instr>
    ensures { by_funct3 i_format immediates word ++ by_two shift_format funct3_of funct6_of shifts word
        ≡ option_to_list result }
{
    let rd = rd(word);
    let rs1 = rs1(word);
    let imm = i_immediate(word);
    match (word >> 12) % 8 {
        0 => Some(Instr::Addi { rd, rs1, imm }),
        2 => Some(Instr::Slti { rd, rs1, imm }),
        3 => Some(Instr::Sltiu { rd, rs1, imm }),
        4 => Some(Instr::Xori { rd, rs1, imm }),
        6 => Some(Instr::Ori { rd, rs1, imm }),
        7 => Some(Instr::Andi { rd, rs1, imm }),
        _ => shift(word),
    }
}

/// By funct3 and the six bits above the shift.
fn shift(word: u32) -> Option<Instr>
    ensures { by_two shift_format funct3_of funct6_of shifts word ≡ option_to_list result }
{
    let rd = rd(word);
    let rs1 = rs1(word);
    let shamt = shamt(word);
    match ((word >> 12) % 8, word >> 26) {
        (1, 0) => Some(Instr::Slli { rd, rs1, shamt }),
        (5, 0) => Some(Instr::Srli { rd, rs1, shamt }),
        (5, 16) => Some(Instr::Srai { rd, rs1, shamt }),
        _ => None,
    }
}

/// By funct3 alone.
fn fence(word: u32) -> Option<Instr>
    ensures { rows_at (funct3_of word) fences ≡ option_to_list result }
{
    match (word >> 12) % 8 {
        0 => Some(Instr::Fence),
        1 => Some(Instr::FenceI),
        _ => None,
    }
}

/// The two rows that fit one word each.
fn system(word: u32) -> Option<Instr>
    ensures { rows_at word systems ≡ option_to_list result }
{
    match word {
        0x0000_0073 => Some(Instr::Ecall),
        0x0010_0073 => Some(Instr::Ebreak),
        _ => None,
    }
}
