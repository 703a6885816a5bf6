//! Atomic instructions: load-reserved, store-conditional, and atomic memory operations.

ghost use Rattle.std.specs.Prelude.{◌≡◌, ◌≢◌, ◌%◌, false};
ghost use Rattle.rv_table.specs.Registers.{reg};
ghost use Rattle.rv_table.specs.Words.{sum};
ghost use Rattle.rv_exec.specs.Execution.{load_reserved, operates, store_conditional};
ghost use Rattle.rv_exec.specs.Flows.{FlowsAs};
ghost use Rattle.rv_exec.specs.Loads.{width_of, extend_of};
ghost use Rattle.rv_exec.specs.declared.outcome.Step.TheVariants as Step;

use crate::access::Access;
use crate::load::Load;
use crate::moves::put;
use crate::{Flow, Mem};
use rv_atomic::amo;
use rv_table::{Instr, Reg, Regs};

/// Loads from an address into a register, and reserves the address.
pub(crate) fn load_reserved<M: Mem, A: Access>(
    regs: &mut Regs,
    mem: &mut M,
    access: &mut A,
    kind: Load,
    rd: Reg,
    rs1: Reg,
) -> Flow
    ensures done { FlowsAs M.after A.is_exact (A.why access.new)
        (load_reserved (M.seen (M.told mem.old)) regs.old rd (reg regs.old rs1) (width_of kind) (extend_of kind))
        regs.old regs.new (M.told mem.old) (M.told mem.new) result }
    ensures lean { M.takes_memory ≡ false → A.why access.old ≢ Step.Memory → A.why access.new ≢ Step.Memory }
    ensures row { A.is_exact ≡ false →
        M.instrs (M.told mem.new) (A.page access.old) ≡ M.instrs (M.told mem.old) (A.page access.old) }
    ensures page { A.page access.new ≡ A.page access.old }
    ensures aligned { regs.old.pc % 4 ≡ 0 → regs.new.pc % 4 ≡ 0 }
    ensures straight { result ≡ Flow.Next → regs.new.pc ≡ sum regs.old.pc 4 }
{
    let at = regs.read(rs1);
    if !kind.is_aligned(at) {
        return Flow::Trap(7);
    }
    match access.load(mem, at, kind.width()) {
        Some(value) => {
            if access.reserve(mem, at, kind.width()) {
                put(regs, rd, kind.extend(value))
            } else {
                Flow::Refused
            }
        }
        None => Flow::Refused,
    }
}

/// Stores at an address that is reserved, and tells a register whether it did.
pub(crate) fn store_conditional<M: Mem, A: Access>(
    regs: &mut Regs,
    mem: &mut M,
    access: &mut A,
    kind: Load,
    rd: Reg,
    rs1: Reg,
    rs2: Reg,
) -> Flow
    ensures done { FlowsAs M.after A.is_exact (A.why access.new)
        (store_conditional (M.seen (M.told mem.old)) regs.old rd (reg regs.old rs1) (width_of kind) (reg regs.old rs2))
        regs.old regs.new (M.told mem.old) (M.told mem.new) result }
    ensures lean { M.takes_memory ≡ false → A.why access.old ≢ Step.Memory → A.why access.new ≢ Step.Memory }
    ensures row { A.is_exact ≡ false →
        M.instrs (M.told mem.new) (A.page access.old) ≡ M.instrs (M.told mem.old) (A.page access.old) }
    ensures page { A.page access.new ≡ A.page access.old }
    ensures aligned { regs.old.pc % 4 ≡ 0 → regs.new.pc % 4 ≡ 0 }
    ensures straight { result ≡ Flow.Next → regs.new.pc ≡ sum regs.old.pc 4 }
{
    let at = regs.read(rs1);
    if !kind.is_aligned(at) {
        return Flow::Trap(7);
    }
    match access.conditional(mem, at, kind.width(), regs.read(rs2)) {
        Some(true) => put(regs, rd, 0),
        Some(false) => put(regs, rd, 1),
        None => Flow::Refused,
    }
}

/// Puts what memory holds at an address into a register, and what the instruction makes of it and of another number
/// into its place.
pub(crate) fn operate<M: Mem, A: Access>(
    regs: &mut Regs,
    mem: &mut M,
    access: &mut A,
    instr: &Instr,
    kind: Load,
    rd: Reg,
    rs1: Reg,
    rs2: Reg,
) -> Flow
    ensures done { FlowsAs M.after A.is_exact (A.why access.new)
        (operates (M.seen (M.told mem.old)) regs.old instr.now rd (reg regs.old rs1) (width_of kind) (reg regs.old rs2)
        (extend_of kind))
        regs.old regs.new (M.told mem.old) (M.told mem.new) result }
    ensures lean { M.takes_memory ≡ false → A.why access.old ≢ Step.Memory → A.why access.new ≢ Step.Memory }
    ensures row { A.is_exact ≡ false →
        M.instrs (M.told mem.new) (A.page access.old) ≡ M.instrs (M.told mem.old) (A.page access.old) }
    ensures page { A.page access.new ≡ A.page access.old }
    ensures aligned { regs.old.pc % 4 ≡ 0 → regs.new.pc % 4 ≡ 0 }
    ensures straight { result ≡ Flow.Next → regs.new.pc ≡ sum regs.old.pc 4 }
{
    let at = regs.read(rs1);
    let width = kind.width();
    if !kind.is_aligned(at) {
        return Flow::Trap(7);
    }
    match access.operand(mem, at, width) {
        Some(value) => {
            let old = kind.extend(value);
            if access.store(mem, at, width, amo(instr, old, regs.read(rs2))) {
                put(regs, rd, old)
            } else {
                Flow::Refused
            }
        }
        None => Flow::Refused,
    }
}
