//! What each instruction does: a row a line.

ghost use Rattle.std.specs.Prelude.{◌≡◌, ◌≢◌, ◌%◌, false};
ghost use Rattle.rv_table.specs.Words.{sum};
ghost use Rattle.rv_exec.specs.Execution.{done_by};
ghost use Rattle.rv_exec.specs.Flows.{FlowsAs};
ghost use Rattle.rv_exec.specs.declared.outcome.Step.TheVariants as Step;

use crate::access::Access;
use crate::atomic::{load_reserved, operate, store_conditional};
use crate::load::Load;
use crate::moves::{branch, combine, compute, go_on, jump, jump_to_register, put};
use crate::plain::{load, store};
use crate::{Flow, Mem};
use rv_alu::alu;
use rv_table::{Instr, Regs};

/// Does an instruction, by a way to reach memory.
#[inline(always)]
#[rattlefmt::skip]
#[tactic(auto, unfolding(crate::specs::Execution::done_by), using(crate::proofs::MovesOverMemory::moved))]
pub(crate) fn execute<M: Mem, A: Access>(regs: &mut Regs, mem: &mut M, access: &mut A, instr: &Instr) -> Flow
    ensures done { FlowsAs M.after A.is_exact (A.why access.new) (done_by (M.seen (M.told mem.old)) regs.old instr.now)
        regs.old regs.new (M.told mem.old) (M.told mem.new) result }
    ensures lean { M.takes_memory ≡ false → A.why access.old ≢ Step.Memory → A.why access.new ≢ Step.Memory }
    ensures row { A.is_exact ≡ false →
        M.instrs (M.told mem.new) (A.page access.old) ≡ M.instrs (M.told mem.old) (A.page access.old) }
    ensures page { A.page access.new ≡ A.page access.old }
    ensures aligned { regs.old.pc % 4 ≡ 0 → regs.new.pc % 4 ≡ 0 }
    ensures straight { result ≡ Flow.Next → regs.new.pc ≡ sum regs.old.pc 4 }
{
    match *instr {
        Instr::Lui { rd, .. } => put(regs, rd, alu(instr, 0, 0)),
        Instr::Auipc { rd, .. } => put(regs, rd, alu(instr, regs.pc, 0)),
        Instr::Jal { rd, imm } => jump(regs, rd, regs.pc.wrapping_add(imm)),
        Instr::Jalr { rd, rs1, imm } => jump_to_register(regs, rd, rs1, imm),
        Instr::Beq { rs1, rs2, imm } => branch(regs, instr, rs1, rs2, imm),
        Instr::Bne { rs1, rs2, imm } => branch(regs, instr, rs1, rs2, imm),
        Instr::Blt { rs1, rs2, imm } => branch(regs, instr, rs1, rs2, imm),
        Instr::Bge { rs1, rs2, imm } => branch(regs, instr, rs1, rs2, imm),
        Instr::Bltu { rs1, rs2, imm } => branch(regs, instr, rs1, rs2, imm),
        Instr::Bgeu { rs1, rs2, imm } => branch(regs, instr, rs1, rs2, imm),
        Instr::Lb { rd, rs1, imm } => load(regs, mem, access, Load::Byte, rd, rs1, imm),
        Instr::Lh { rd, rs1, imm } => load(regs, mem, access, Load::Half, rd, rs1, imm),
        Instr::Lw { rd, rs1, imm } => load(regs, mem, access, Load::Word, rd, rs1, imm),
        Instr::Ld { rd, rs1, imm } => load(regs, mem, access, Load::Double, rd, rs1, imm),
        Instr::Lbu { rd, rs1, imm } => load(regs, mem, access, Load::UnsignedByte, rd, rs1, imm),
        Instr::Lhu { rd, rs1, imm } => load(regs, mem, access, Load::UnsignedHalf, rd, rs1, imm),
        Instr::Lwu { rd, rs1, imm } => load(regs, mem, access, Load::UnsignedWord, rd, rs1, imm),
        Instr::Addi { rd, rs1, .. } => compute(regs, instr, rd, rs1),
        Instr::Slti { rd, rs1, .. } => compute(regs, instr, rd, rs1),
        Instr::Sltiu { rd, rs1, .. } => compute(regs, instr, rd, rs1),
        Instr::Xori { rd, rs1, .. } => compute(regs, instr, rd, rs1),
        Instr::Ori { rd, rs1, .. } => compute(regs, instr, rd, rs1),
        Instr::Andi { rd, rs1, .. } => compute(regs, instr, rd, rs1),
        Instr::Slli { rd, rs1, .. } => compute(regs, instr, rd, rs1),
        Instr::Srli { rd, rs1, .. } => compute(regs, instr, rd, rs1),
        Instr::Srai { rd, rs1, .. } => compute(regs, instr, rd, rs1),
        Instr::Add { rd, rs1, rs2 } => combine(regs, instr, rd, rs1, rs2),
        Instr::Sub { rd, rs1, rs2 } => combine(regs, instr, rd, rs1, rs2),
        Instr::Sll { rd, rs1, rs2 } => combine(regs, instr, rd, rs1, rs2),
        Instr::Slt { rd, rs1, rs2 } => combine(regs, instr, rd, rs1, rs2),
        Instr::Sltu { rd, rs1, rs2 } => combine(regs, instr, rd, rs1, rs2),
        Instr::Xor { rd, rs1, rs2 } => combine(regs, instr, rd, rs1, rs2),
        Instr::Srl { rd, rs1, rs2 } => combine(regs, instr, rd, rs1, rs2),
        Instr::Sra { rd, rs1, rs2 } => combine(regs, instr, rd, rs1, rs2),
        Instr::Or { rd, rs1, rs2 } => combine(regs, instr, rd, rs1, rs2),
        Instr::And { rd, rs1, rs2 } => combine(regs, instr, rd, rs1, rs2),
        Instr::Fence | Instr::FenceI => go_on(regs),
        Instr::Ecall => Flow::Call,
        Instr::Ebreak => Flow::Trap(5),
        Instr::Addiw { rd, rs1, .. } => compute(regs, instr, rd, rs1),
        Instr::Slliw { rd, rs1, .. } => compute(regs, instr, rd, rs1),
        Instr::Srliw { rd, rs1, .. } => compute(regs, instr, rd, rs1),
        Instr::Sraiw { rd, rs1, .. } => compute(regs, instr, rd, rs1),
        Instr::Addw { rd, rs1, rs2 } => combine(regs, instr, rd, rs1, rs2),
        Instr::Subw { rd, rs1, rs2 } => combine(regs, instr, rd, rs1, rs2),
        Instr::Sllw { rd, rs1, rs2 } => combine(regs, instr, rd, rs1, rs2),
        Instr::Srlw { rd, rs1, rs2 } => combine(regs, instr, rd, rs1, rs2),
        Instr::Sraw { rd, rs1, rs2 } => combine(regs, instr, rd, rs1, rs2),
        Instr::Mul { rd, rs1, rs2 } => combine(regs, instr, rd, rs1, rs2),
        Instr::Mulh { rd, rs1, rs2 } => combine(regs, instr, rd, rs1, rs2),
        Instr::Mulhsu { rd, rs1, rs2 } => combine(regs, instr, rd, rs1, rs2),
        Instr::Mulhu { rd, rs1, rs2 } => combine(regs, instr, rd, rs1, rs2),
        Instr::Div { rd, rs1, rs2 } => combine(regs, instr, rd, rs1, rs2),
        Instr::Divu { rd, rs1, rs2 } => combine(regs, instr, rd, rs1, rs2),
        Instr::Rem { rd, rs1, rs2 } => combine(regs, instr, rd, rs1, rs2),
        Instr::Remu { rd, rs1, rs2 } => combine(regs, instr, rd, rs1, rs2),
        Instr::Mulw { rd, rs1, rs2 } => combine(regs, instr, rd, rs1, rs2),
        Instr::Divw { rd, rs1, rs2 } => combine(regs, instr, rd, rs1, rs2),
        Instr::Divuw { rd, rs1, rs2 } => combine(regs, instr, rd, rs1, rs2),
        Instr::Remw { rd, rs1, rs2 } => combine(regs, instr, rd, rs1, rs2),
        Instr::Remuw { rd, rs1, rs2 } => combine(regs, instr, rd, rs1, rs2),
        Instr::Sb { rs1, rs2, imm } => store(regs, mem, access, rs1, imm, 1, rs2),
        Instr::Sh { rs1, rs2, imm } => store(regs, mem, access, rs1, imm, 2, rs2),
        Instr::Sw { rs1, rs2, imm } => store(regs, mem, access, rs1, imm, 4, rs2),
        Instr::Sd { rs1, rs2, imm } => store(regs, mem, access, rs1, imm, 8, rs2),
        Instr::LrW { rd, rs1 } => load_reserved(regs, mem, access, Load::Word, rd, rs1),
        Instr::ScW { rd, rs1, rs2 } => store_conditional(regs, mem, access, Load::Word, rd, rs1, rs2),
        Instr::AmoswapW { rd, rs1, rs2 }
        | Instr::AmoaddW { rd, rs1, rs2 }
        | Instr::AmoxorW { rd, rs1, rs2 }
        | Instr::AmoandW { rd, rs1, rs2 }
        | Instr::AmoorW { rd, rs1, rs2 }
        | Instr::AmominW { rd, rs1, rs2 }
        | Instr::AmomaxW { rd, rs1, rs2 }
        | Instr::AmominuW { rd, rs1, rs2 }
        | Instr::AmomaxuW { rd, rs1, rs2 } => operate(regs, mem, access, instr, Load::Word, rd, rs1, rs2),
        Instr::LrD { rd, rs1 } => load_reserved(regs, mem, access, Load::Double, rd, rs1),
        Instr::ScD { rd, rs1, rs2 } => store_conditional(regs, mem, access, Load::Double, rd, rs1, rs2),
        Instr::AmoswapD { rd, rs1, rs2 }
        | Instr::AmoaddD { rd, rs1, rs2 }
        | Instr::AmoxorD { rd, rs1, rs2 }
        | Instr::AmoandD { rd, rs1, rs2 }
        | Instr::AmoorD { rd, rs1, rs2 }
        | Instr::AmominD { rd, rs1, rs2 }
        | Instr::AmomaxD { rd, rs1, rs2 }
        | Instr::AmominuD { rd, rs1, rs2 }
        | Instr::AmomaxuD { rd, rs1, rs2 } => operate(regs, mem, access, instr, Load::Double, rd, rs1, rs2),
        Instr::Illegal => Flow::Trap(4),
    }
}
