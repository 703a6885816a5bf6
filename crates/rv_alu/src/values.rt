//! The value of an instruction.

ghost use Rattle.std.specs.Prelude.{◌≡◌};
ghost use Rattle.rv_alu.specs.Values.{value_of};

use crate::words::{less_signed, less_unsigned, word};
use crate::{divide, multiply, shifts};
use rv_table::Instr;

/// The value that an instruction computes: `a` is what rs1 holds, or pc for AUIPC, and `b` what rs2 holds. An
/// instruction that computes none has 0.
#[tactic(auto, unfolding(crate::specs::Values::value_of))]
#[inline(always)]
pub fn alu(instr: &Instr, a: u64, b: u64) -> u64
    ensures { result ≡ value_of instr.now a b }
{
    match *instr {
        Instr::Lui { imm, .. } => imm,
        Instr::Auipc { imm, .. } => a.wrapping_add(imm),
        Instr::Addi { imm, .. } => a.wrapping_add(imm),
        Instr::Slti { imm, .. } => less_signed(a, imm),
        Instr::Sltiu { imm, .. } => less_unsigned(a, imm),
        Instr::Xori { imm, .. } => a ^ imm,
        Instr::Ori { imm, .. } => a | imm,
        Instr::Andi { imm, .. } => a & imm,
        Instr::Slli { shamt, .. } => shifts::left(a, u64::from(shamt)),
        Instr::Srli { shamt, .. } => shifts::right(a, u64::from(shamt)),
        Instr::Srai { shamt, .. } => shifts::right_signed(a, u64::from(shamt)),
        Instr::Add { .. } => a.wrapping_add(b),
        Instr::Sub { .. } => a.wrapping_sub(b),
        Instr::Sll { .. } => shifts::left(a, b),
        Instr::Slt { .. } => less_signed(a, b),
        Instr::Sltu { .. } => less_unsigned(a, b),
        Instr::Xor { .. } => a ^ b,
        Instr::Srl { .. } => shifts::right(a, b),
        Instr::Sra { .. } => shifts::right_signed(a, b),
        Instr::Or { .. } => a | b,
        Instr::And { .. } => a & b,
        Instr::Addiw { imm, .. } => word(a.wrapping_add(imm)),
        Instr::Slliw { shamt, .. } => shifts::word_left(a, u64::from(shamt)),
        Instr::Srliw { shamt, .. } => shifts::word_right(a, u64::from(shamt)),
        Instr::Sraiw { shamt, .. } => shifts::word_right_signed(a, u64::from(shamt)),
        Instr::Addw { .. } => word(a.wrapping_add(b)),
        Instr::Subw { .. } => word(a.wrapping_sub(b)),
        Instr::Sllw { .. } => shifts::word_left(a, b),
        Instr::Srlw { .. } => shifts::word_right(a, b),
        Instr::Sraw { .. } => shifts::word_right_signed(a, b),
        Instr::Mul { .. } => a.wrapping_mul(b),
        Instr::Mulh { .. } => multiply::high_of_signed(a, b),
        Instr::Mulhsu { .. } => multiply::high_of_mixed(a, b),
        Instr::Mulhu { .. } => multiply::high_of_unsigned(a, b),
        Instr::Div { .. } => divide::quotient(a, b),
        Instr::Divu { .. } => divide::quotient_unsigned(a, b),
        Instr::Rem { .. } => divide::remainder(a, b),
        Instr::Remu { .. } => divide::remainder_unsigned(a, b),
        Instr::Mulw { .. } => word(a.wrapping_mul(b)),
        Instr::Divw { .. } => divide::word_quotient(a, b),
        Instr::Divuw { .. } => divide::word_quotient_unsigned(a, b),
        Instr::Remw { .. } => divide::word_remainder(a, b),
        Instr::Remuw { .. } => divide::word_remainder_unsigned(a, b),
        _ => 0,
    }
}
