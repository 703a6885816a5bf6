//! The decoder's rows of computations on two registers, and of those on words.

ghost use Rattle.std.specs.Prelude.{◌≡◌, option_to_list, ◌++◌};
ghost use Rattle.rv_table.specs.Fields.{funct3_of, funct7_of};
ghost use Rattle.rv_table.specs.Table.{by_funct3, by_two, r_format, i_format, word_shift_format, registers};
ghost use Rattle.rv_table.specs.Table.{word_immediates, word_shifts, word_registers};

use crate::Instr;
use crate::fields::{i_immediate, rd, rs1, rs2, word_shamt};

/// By funct7 and funct3.
pub fn register(word: u32) -> Option<Instr>
    ensures { by_two r_format funct7_of funct3_of registers word ≡ option_to_list result }
{
    let rd = rd(word);
    let rs1 = rs1(word);
    let rs2 = rs2(word);
    match (word >> 25, (word >> 12) % 8) {
        (0, 0) => Some(Instr::Add { rd, rs1, rs2 }),
        (0, 1) => Some(Instr::Sll { rd, rs1, rs2 }),
        (0, 2) => Some(Instr::Slt { rd, rs1, rs2 }),
        (0, 3) => Some(Instr::Sltu { rd, rs1, rs2 }),
        (0, 4) => Some(Instr::Xor { rd, rs1, rs2 }),
        (0, 5) => Some(Instr::Srl { rd, rs1, rs2 }),
        (0, 6) => Some(Instr::Or { rd, rs1, rs2 }),
        (0, 7) => Some(Instr::And { rd, rs1, rs2 }),
        (32, 0) => Some(Instr::Sub { rd, rs1, rs2 }),
        (32, 5) => Some(Instr::Sra { rd, rs1, rs2 }),
        (1, 0) => Some(Instr::Mul { rd, rs1, rs2 }),
        (1, 1) => Some(Instr::Mulh { rd, rs1, rs2 }),
        (1, 2) => Some(Instr::Mulhsu { rd, rs1, rs2 }),
        (1, 3) => Some(Instr::Mulhu { rd, rs1, rs2 }),
        (1, 4) => Some(Instr::Div { rd, rs1, rs2 }),
        (1, 5) => Some(Instr::Divu { rd, rs1, rs2 }),
        (1, 6) => Some(Instr::Rem { rd, rs1, rs2 }),
        (1, 7) => Some(Instr::Remu { rd, rs1, rs2 }),
        _ => None,
    }
}

/// By funct3; where that is a shift's, by funct7 too.
pub fn word_immediate(word: u32) -> Option<Instr>
    ensures { by_funct3 i_format word_immediates word ++ by_two word_shift_format funct3_of funct7_of word_shifts word
        ≡ option_to_list result }
{
    match (word >> 12) % 8 {
        0 => Some(Instr::Addiw {
            rd: rd(word),
            rs1: rs1(word),
            imm: i_immediate(word),
        }),
        _ => word_shift(word),
    }
}

/// By funct3 and funct7.
fn word_shift(word: u32) -> Option<Instr>
    ensures { by_two word_shift_format funct3_of funct7_of word_shifts word ≡ option_to_list result }
{
    let rd = rd(word);
    let rs1 = rs1(word);
    let shamt = word_shamt(word);
    match ((word >> 12) % 8, word >> 25) {
        (1, 0) => Some(Instr::Slliw { rd, rs1, shamt }),
        (5, 0) => Some(Instr::Srliw { rd, rs1, shamt }),
        (5, 32) => Some(Instr::Sraiw { rd, rs1, shamt }),
        _ => None,
    }
}

/// By funct7 and funct3.
pub fn word_register(word: u32) -> Option<Instr>
    ensures { by_two r_format funct7_of funct3_of word_registers word ≡ option_to_list result }
{
    let rd = rd(word);
    let rs1 = rs1(word);
    let rs2 = rs2(word);
    match (word >> 25, (word >> 12) % 8) {
        (0, 0) => Some(Instr::Addw { rd, rs1, rs2 }),
        (0, 1) => Some(Instr::Sllw { rd, rs1, rs2 }),
        (0, 5) => Some(Instr::Srlw { rd, rs1, rs2 }),
        (32, 0) => Some(Instr::Subw { rd, rs1, rs2 }),
        (32, 5) => Some(Instr::Sraw { rd, rs1, rs2 }),
        (1, 0) => Some(Instr::Mulw { rd, rs1, rs2 }),
        (1, 4) => Some(Instr::Divw { rd, rs1, rs2 }),
        (1, 5) => Some(Instr::Divuw { rd, rs1, rs2 }),
        (1, 6) => Some(Instr::Remw { rd, rs1, rs2 }),
        (1, 7) => Some(Instr::Remuw { rd, rs1, rs2 }),
        _ => None,
    }
}
