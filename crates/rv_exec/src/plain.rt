//! Loads and stores.

ghost use Rattle.std.specs.Prelude.{◌≡◌, ◌≢◌, ◌%◌, false};
ghost use Rattle.rv_table.specs.Registers.{reg};
ghost use Rattle.rv_table.specs.Words.{IsWidth, sum};
ghost use Rattle.rv_exec.specs.Execution.{loads, stores};
ghost use Rattle.rv_exec.specs.Flows.{FlowsAs};
ghost use Rattle.rv_exec.specs.Loads.{width_of, extend_of};
ghost use Rattle.rv_exec.specs.declared.outcome.Step.TheVariants as Step;

use crate::access::Access;
use crate::load::Load;
use crate::moves::{go_on, put};
use crate::{Flow, Mem};
use rv_table::{Reg, Regs};

/// Loads into a register, from an address so far from what another holds.
#[inline(always)]
pub(crate) fn load<M: Mem, A: Access>(
    regs: &mut Regs,
    mem: &mut M,
    access: &mut A,
    kind: Load,
    rd: Reg,
    rs1: Reg,
    imm: u64,
) -> Flow
    ensures done { FlowsAs M.after A.is_exact (A.why access.new)
        (loads (M.seen (M.told mem.old)) regs.old rd (sum (reg regs.old rs1) imm) (width_of kind) (extend_of kind))
        regs.old regs.new (M.told mem.old) (M.told mem.new) result }
    ensures lean { M.takes_memory ≡ false → A.why access.old ≢ Step.Memory → A.why access.new ≢ Step.Memory }
    ensures row { A.is_exact ≡ false →
        M.instrs (M.told mem.new) (A.page access.old) ≡ M.instrs (M.told mem.old) (A.page access.old) }
    ensures page { A.page access.new ≡ A.page access.old }
    ensures aligned { regs.old.pc % 4 ≡ 0 → regs.new.pc % 4 ≡ 0 }
    ensures straight { result ≡ Flow.Next → regs.new.pc ≡ sum regs.old.pc 4 }
{
    let at = regs.read(rs1).wrapping_add(imm);
    match access.load(mem, at, kind.width()) {
        Some(value) => put(regs, rd, kind.extend(value)),
        None => Flow::Refused,
    }
}

/// Stores so many of the bytes that a register holds, at an address so far from what another holds.
#[inline(always)]
pub(crate) fn store<M: Mem, A: Access>(
    regs: &mut Regs,
    mem: &mut M,
    access: &mut A,
    rs1: Reg,
    imm: u64,
    width: u8,
    rs2: Reg,
) -> Flow
    requires { IsWidth width }
    ensures done { FlowsAs M.after A.is_exact (A.why access.new)
        (stores (M.seen (M.told mem.old)) regs.old (sum (reg regs.old rs1) imm) width (reg regs.old rs2))
        regs.old regs.new (M.told mem.old) (M.told mem.new) result }
    ensures lean { M.takes_memory ≡ false → A.why access.old ≢ Step.Memory → A.why access.new ≢ Step.Memory }
    ensures row { A.is_exact ≡ false →
        M.instrs (M.told mem.new) (A.page access.old) ≡ M.instrs (M.told mem.old) (A.page access.old) }
    ensures page { A.page access.new ≡ A.page access.old }
    ensures aligned { regs.old.pc % 4 ≡ 0 → regs.new.pc % 4 ≡ 0 }
    ensures straight { result ≡ Flow.Next → regs.new.pc ≡ sum regs.old.pc 4 }
{
    let at = regs.read(rs1).wrapping_add(imm);
    if access.store(mem, at, width, regs.read(rs2)) {
        go_on(regs)
    } else {
        Flow::Refused
    }
}
