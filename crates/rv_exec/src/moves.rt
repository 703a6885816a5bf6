//! What changes registers alone: values, jumps and branches.

ghost use Rattle.std.specs.Prelude.{◌≡◌, ◌%◌};
ghost use Rattle.rv_table.specs.Registers.{reg, with_reg, gone_on};
ghost use Rattle.rv_table.specs.Words.{sum};
ghost use Rattle.rv_alu.specs.Branches.{is_taken};
ghost use Rattle.rv_alu.specs.Values.{value_of};
ghost use Rattle.rv_exec.specs.Execution.{jumped, branched, even};
ghost use Rattle.rv_exec.specs.Flows.{MovesAs};

use crate::Flow;
use rv_alu::{alu, is_taken};
use rv_table::{Instr, Reg, Regs};

/// Puts a value into a register, and moves on to the next instruction.
#[inline(always)]
pub(crate) fn put(regs: &mut Regs, rd: Reg, value: u64) -> Flow
    ensures next { result ≡ Flow.Next }
    ensures regs { regs.new ≡ gone_on (with_reg regs.old rd value) }
    ensures aligned { regs.old.pc % 4 ≡ 0 → regs.new.pc % 4 ≡ 0 }
    ensures straight { result ≡ Flow.Next → regs.new.pc ≡ sum regs.old.pc 4 }
{
    regs.write(rd, value);
    go_on(regs)
}

/// Moves on to the next instruction.
#[inline(always)]
pub(crate) fn go_on(regs: &mut Regs) -> Flow
    ensures next { result ≡ Flow.Next }
    ensures regs { regs.new ≡ gone_on regs.old }
    ensures aligned { regs.old.pc % 4 ≡ 0 → regs.new.pc % 4 ≡ 0 }
    ensures straight { result ≡ Flow.Next → regs.new.pc ≡ sum regs.old.pc 4 }
{
    regs.go_on();
    Flow::Next
}

/// Jumps to an address, with the next instruction's address in a register.
#[inline(always)]
pub(crate) fn jump(regs: &mut Regs, rd: Reg, target: u64) -> Flow
    ensures done { MovesAs (jumped regs.old rd target) regs.old regs.new result }
    ensures aligned { regs.old.pc % 4 ≡ 0 → regs.new.pc % 4 ≡ 0 }
    ensures straight { result ≡ Flow.Next → regs.new.pc ≡ sum regs.old.pc 4 }
{
    if target % 4 != 0 {
        return Flow::Trap(7);
    }
    let link = regs.pc.wrapping_add(4);
    regs.write(rd, link);
    regs.pc = target;
    Flow::Jump
}

/// Jumps so far from a register's address, its lowest bit cleared.
#[inline(always)]
pub(crate) fn jump_to_register(regs: &mut Regs, rd: Reg, rs1: Reg, offset: u64) -> Flow
    ensures done { MovesAs (jumped regs.old rd (even (sum (reg regs.old rs1) offset))) regs.old regs.new result }
    ensures aligned { regs.old.pc % 4 ≡ 0 → regs.new.pc % 4 ≡ 0 }
    ensures straight { result ≡ Flow.Next → regs.new.pc ≡ sum regs.old.pc 4 }
{
    let target = regs.read(rs1).wrapping_add(offset);
    jump(regs, rd, target - target % 2)
}

/// Jumps so far where a branch is taken, with no address in a register, and else goes on.
#[inline(always)]
pub(crate) fn branch(regs: &mut Regs, instr: &Instr, rs1: Reg, rs2: Reg, offset: u64) -> Flow
    ensures done { MovesAs
        (branched regs.old (is_taken instr.now (reg regs.old rs1) (reg regs.old rs2)) (sum regs.old.pc offset))
        regs.old regs.new result }
    ensures aligned { regs.old.pc % 4 ≡ 0 → regs.new.pc % 4 ≡ 0 }
    ensures straight { result ≡ Flow.Next → regs.new.pc ≡ sum regs.old.pc 4 }
{
    if is_taken(instr, regs.read(rs1), regs.read(rs2)) {
        jump(regs, Reg::new(0), regs.pc.wrapping_add(offset))
    } else {
        go_on(regs)
    }
}

/// Puts what an instruction computes of a register into another.
#[inline(always)]
pub(crate) fn compute(regs: &mut Regs, instr: &Instr, rd: Reg, rs1: Reg) -> Flow
    ensures next { result ≡ Flow.Next }
    ensures regs { regs.new ≡ gone_on (with_reg regs.old rd (value_of instr.now (reg regs.old rs1) 0)) }
    ensures aligned { regs.old.pc % 4 ≡ 0 → regs.new.pc % 4 ≡ 0 }
    ensures straight { result ≡ Flow.Next → regs.new.pc ≡ sum regs.old.pc 4 }
{
    let value = alu(instr, regs.read(rs1), 0);
    put(regs, rd, value)
}

/// Puts what an instruction computes of two registers into a third.
#[inline(always)]
pub(crate) fn combine(regs: &mut Regs, instr: &Instr, rd: Reg, rs1: Reg, rs2: Reg) -> Flow
    ensures next { result ≡ Flow.Next }
    ensures regs { regs.new ≡
        gone_on (with_reg regs.old rd (value_of instr.now (reg regs.old rs1) (reg regs.old rs2))) }
    ensures aligned { regs.old.pc % 4 ≡ 0 → regs.new.pc % 4 ≡ 0 }
    ensures straight { result ≡ Flow.Next → regs.new.pc ≡ sum regs.old.pc 4 }
{
    let value = alu(instr, regs.read(rs1), regs.read(rs2));
    put(regs, rd, value)
}
