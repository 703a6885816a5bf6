//! The registers of a task at a system call (syscall(2), riscv).

ghost use Rattle.std.specs.Prelude.{◌≡◌};
ghost use Rattle.kernel_model.specs.machine.Registers.{args_of, call_of, replied};

use kernel_model::Args;
use rv_table::{Reg, Regs};

/// The register in which a call's reply comes back: a0, which is x10.
const A0: u8 = 10;

/// The arguments of a system call, a0 to a5, which are x10 to x15.
pub fn args_of(registers: &Regs) -> Args
    ensures { result ≡ args_of registers.now }
{
    Args {
        a0: registers.read(Reg::new(10)),
        a1: registers.read(Reg::new(11)),
        a2: registers.read(Reg::new(12)),
        a3: registers.read(Reg::new(13)),
        a4: registers.read(Reg::new(14)),
        a5: registers.read(Reg::new(15)),
    }
}

/// The number of a system call, in a7, which is x17.
pub fn call_of(registers: &Regs) -> u64
    ensures { result ≡ call_of registers.now }
{
    registers.read(Reg::new(17))
}

/// Puts a system call's reply into a0, in two's complement, and moves on to the next instruction.
pub fn reply(registers: &mut Regs, value: i64)
    ensures { registers.new ≡ replied registers.old value }
{
    registers.write(Reg::new(A0), value.cast_unsigned());
    registers.go_on();
}
