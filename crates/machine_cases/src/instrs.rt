//! Instructions as text: the name, and the operands that it has.

use rv_table::{Instr, Reg};
use std::alloc::AllocError;

/// An instruction's name, and the operands that it has.
#[derive(Clone, Copy)]
struct Parts {
    name: &'static str,
    rd: Option<Reg>,
    rs1: Option<Reg>,
    rs2: Option<Reg>,
    imm: Option<u64>,
}

fn alone(name: &'static str) -> Parts {
    Parts {
        name,
        rd: None,
        rs1: None,
        rs2: None,
        imm: None,
    }
}

fn upper(name: &'static str, rd: Reg, imm: u64) -> Parts {
    Parts {
        rd: Some(rd),
        imm: Some(imm),
        ..alone(name)
    }
}

fn two(name: &'static str, rd: Reg, rs1: Reg) -> Parts {
    Parts {
        rd: Some(rd),
        rs1: Some(rs1),
        ..alone(name)
    }
}

fn immediate(name: &'static str, rd: Reg, rs1: Reg, imm: u64) -> Parts {
    Parts {
        imm: Some(imm),
        ..two(name, rd, rs1)
    }
}

fn shift(name: &'static str, rd: Reg, rs1: Reg, shamt: u8) -> Parts {
    immediate(name, rd, rs1, u64::from(shamt))
}

fn three(name: &'static str, rd: Reg, rs1: Reg, rs2: Reg) -> Parts {
    Parts {
        rs2: Some(rs2),
        ..two(name, rd, rs1)
    }
}

fn pair(name: &'static str, rs1: Reg, rs2: Reg, imm: u64) -> Parts {
    Parts {
        rs1: Some(rs1),
        rs2: Some(rs2),
        imm: Some(imm),
        ..alone(name)
    }
}

#[rattlefmt::skip]
fn parts_of(instr: &Instr) -> Parts {
    match *instr {
        Instr::Lui { rd, imm } => upper("Lui", rd, imm),
        Instr::Auipc { rd, imm } => upper("Auipc", rd, imm),
        Instr::Jal { rd, imm } => upper("Jal", rd, imm),
        Instr::Jalr { rd, rs1, imm } => immediate("Jalr", rd, rs1, imm),
        Instr::Beq { rs1, rs2, imm } => pair("Beq", rs1, rs2, imm),
        Instr::Bne { rs1, rs2, imm } => pair("Bne", rs1, rs2, imm),
        Instr::Blt { rs1, rs2, imm } => pair("Blt", rs1, rs2, imm),
        Instr::Bge { rs1, rs2, imm } => pair("Bge", rs1, rs2, imm),
        Instr::Bltu { rs1, rs2, imm } => pair("Bltu", rs1, rs2, imm),
        Instr::Bgeu { rs1, rs2, imm } => pair("Bgeu", rs1, rs2, imm),
        Instr::Lb { rd, rs1, imm } => immediate("Lb", rd, rs1, imm),
        Instr::Lh { rd, rs1, imm } => immediate("Lh", rd, rs1, imm),
        Instr::Lw { rd, rs1, imm } => immediate("Lw", rd, rs1, imm),
        Instr::Ld { rd, rs1, imm } => immediate("Ld", rd, rs1, imm),
        Instr::Lbu { rd, rs1, imm } => immediate("Lbu", rd, rs1, imm),
        Instr::Lhu { rd, rs1, imm } => immediate("Lhu", rd, rs1, imm),
        Instr::Lwu { rd, rs1, imm } => immediate("Lwu", rd, rs1, imm),
        Instr::Sb { rs1, rs2, imm } => pair("Sb", rs1, rs2, imm),
        Instr::Sh { rs1, rs2, imm } => pair("Sh", rs1, rs2, imm),
        Instr::Sw { rs1, rs2, imm } => pair("Sw", rs1, rs2, imm),
        Instr::Sd { rs1, rs2, imm } => pair("Sd", rs1, rs2, imm),
        Instr::Addi { rd, rs1, imm } => immediate("Addi", rd, rs1, imm),
        Instr::Slti { rd, rs1, imm } => immediate("Slti", rd, rs1, imm),
        Instr::Sltiu { rd, rs1, imm } => immediate("Sltiu", rd, rs1, imm),
        Instr::Xori { rd, rs1, imm } => immediate("Xori", rd, rs1, imm),
        Instr::Ori { rd, rs1, imm } => immediate("Ori", rd, rs1, imm),
        Instr::Andi { rd, rs1, imm } => immediate("Andi", rd, rs1, imm),
        Instr::Slli { rd, rs1, shamt } => shift("Slli", rd, rs1, shamt),
        Instr::Srli { rd, rs1, shamt } => shift("Srli", rd, rs1, shamt),
        Instr::Srai { rd, rs1, shamt } => shift("Srai", rd, rs1, shamt),
        Instr::Add { rd, rs1, rs2 } => three("Add", rd, rs1, rs2),
        Instr::Sub { rd, rs1, rs2 } => three("Sub", rd, rs1, rs2),
        Instr::Sll { rd, rs1, rs2 } => three("Sll", rd, rs1, rs2),
        Instr::Slt { rd, rs1, rs2 } => three("Slt", rd, rs1, rs2),
        Instr::Sltu { rd, rs1, rs2 } => three("Sltu", rd, rs1, rs2),
        Instr::Xor { rd, rs1, rs2 } => three("Xor", rd, rs1, rs2),
        Instr::Srl { rd, rs1, rs2 } => three("Srl", rd, rs1, rs2),
        Instr::Sra { rd, rs1, rs2 } => three("Sra", rd, rs1, rs2),
        Instr::Or { rd, rs1, rs2 } => three("Or", rd, rs1, rs2),
        Instr::And { rd, rs1, rs2 } => three("And", rd, rs1, rs2),
        Instr::Fence => alone("Fence"),
        Instr::FenceI => alone("FenceI"),
        Instr::Ecall => alone("Ecall"),
        Instr::Ebreak => alone("Ebreak"),
        Instr::Addiw { rd, rs1, imm } => immediate("Addiw", rd, rs1, imm),
        Instr::Slliw { rd, rs1, shamt } => shift("Slliw", rd, rs1, shamt),
        Instr::Srliw { rd, rs1, shamt } => shift("Srliw", rd, rs1, shamt),
        Instr::Sraiw { rd, rs1, shamt } => shift("Sraiw", rd, rs1, shamt),
        Instr::Addw { rd, rs1, rs2 } => three("Addw", rd, rs1, rs2),
        Instr::Subw { rd, rs1, rs2 } => three("Subw", rd, rs1, rs2),
        Instr::Sllw { rd, rs1, rs2 } => three("Sllw", rd, rs1, rs2),
        Instr::Srlw { rd, rs1, rs2 } => three("Srlw", rd, rs1, rs2),
        Instr::Sraw { rd, rs1, rs2 } => three("Sraw", rd, rs1, rs2),
        Instr::Mul { rd, rs1, rs2 } => three("Mul", rd, rs1, rs2),
        Instr::Mulh { rd, rs1, rs2 } => three("Mulh", rd, rs1, rs2),
        Instr::Mulhsu { rd, rs1, rs2 } => three("Mulhsu", rd, rs1, rs2),
        Instr::Mulhu { rd, rs1, rs2 } => three("Mulhu", rd, rs1, rs2),
        Instr::Div { rd, rs1, rs2 } => three("Div", rd, rs1, rs2),
        Instr::Divu { rd, rs1, rs2 } => three("Divu", rd, rs1, rs2),
        Instr::Rem { rd, rs1, rs2 } => three("Rem", rd, rs1, rs2),
        Instr::Remu { rd, rs1, rs2 } => three("Remu", rd, rs1, rs2),
        Instr::Mulw { rd, rs1, rs2 } => three("Mulw", rd, rs1, rs2),
        Instr::Divw { rd, rs1, rs2 } => three("Divw", rd, rs1, rs2),
        Instr::Divuw { rd, rs1, rs2 } => three("Divuw", rd, rs1, rs2),
        Instr::Remw { rd, rs1, rs2 } => three("Remw", rd, rs1, rs2),
        Instr::Remuw { rd, rs1, rs2 } => three("Remuw", rd, rs1, rs2),
        Instr::LrW { rd, rs1 } => two("LrW", rd, rs1),
        Instr::ScW { rd, rs1, rs2 } => three("ScW", rd, rs1, rs2),
        Instr::AmoswapW { rd, rs1, rs2 } => three("AmoswapW", rd, rs1, rs2),
        Instr::AmoaddW { rd, rs1, rs2 } => three("AmoaddW", rd, rs1, rs2),
        Instr::AmoxorW { rd, rs1, rs2 } => three("AmoxorW", rd, rs1, rs2),
        Instr::AmoandW { rd, rs1, rs2 } => three("AmoandW", rd, rs1, rs2),
        Instr::AmoorW { rd, rs1, rs2 } => three("AmoorW", rd, rs1, rs2),
        Instr::AmominW { rd, rs1, rs2 } => three("AmominW", rd, rs1, rs2),
        Instr::AmomaxW { rd, rs1, rs2 } => three("AmomaxW", rd, rs1, rs2),
        Instr::AmominuW { rd, rs1, rs2 } => three("AmominuW", rd, rs1, rs2),
        Instr::AmomaxuW { rd, rs1, rs2 } => three("AmomaxuW", rd, rs1, rs2),
        Instr::LrD { rd, rs1 } => two("LrD", rd, rs1),
        Instr::ScD { rd, rs1, rs2 } => three("ScD", rd, rs1, rs2),
        Instr::AmoswapD { rd, rs1, rs2 } => three("AmoswapD", rd, rs1, rs2),
        Instr::AmoaddD { rd, rs1, rs2 } => three("AmoaddD", rd, rs1, rs2),
        Instr::AmoxorD { rd, rs1, rs2 } => three("AmoxorD", rd, rs1, rs2),
        Instr::AmoandD { rd, rs1, rs2 } => three("AmoandD", rd, rs1, rs2),
        Instr::AmoorD { rd, rs1, rs2 } => three("AmoorD", rd, rs1, rs2),
        Instr::AmominD { rd, rs1, rs2 } => three("AmominD", rd, rs1, rs2),
        Instr::AmomaxD { rd, rs1, rs2 } => three("AmomaxD", rd, rs1, rs2),
        Instr::AmominuD { rd, rs1, rs2 } => three("AmominuD", rd, rs1, rs2),
        Instr::AmomaxuD { rd, rs1, rs2 } => three("AmomaxuD", rd, rs1, rs2),
        Instr::Illegal => alone("Illegal"),
    }
}

fn tell_register(text: &mut String, field: &str, register: Option<Reg>) -> Result<(), AllocError> {
    match register {
        Some(register) => write!(text, " {field}={}", register.number()),
        None => Ok(()),
    }
}

/// Tells an instruction's name and operands.
pub fn tell_instr(text: &mut String, instr: &Instr) -> Result<(), AllocError> {
    let parts = parts_of(instr);
    text.push_str(parts.name)?;
    tell_register(text, "rd", parts.rd)?;
    tell_register(text, "rs1", parts.rs1)?;
    tell_register(text, "rs2", parts.rs2)?;
    match parts.imm {
        Some(imm) => write!(text, " imm={}", imm.cast_signed()),
        None => Ok(()),
    }
}
