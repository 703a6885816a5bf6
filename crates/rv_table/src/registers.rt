//! The registers of a task.

ghost use Rattle.std.specs.Prelude.{◌≡◌, ◌<◌, ◌==◌, if◌then◌else◌};
ghost use Rattle.rv_table.specs.Registers.{reg, with_reg, gone_on};

use crate::Reg;

/// The state of a hardware thread: the program counter and the integer registers x0 to x31, of which x0 is 0.
///
/// RISC-V Unprivileged ISA 20191213, 2.1, Programmers' Model for Base Integer ISA.
#[derive(Clone, Copy, Debug, PartialEq, Eq)]
pub struct Regs {
    pub pc: u64,
    pub x: [u64; 32],
}

/// All bits of a register.
const ALL: u64 = u64::MAX;

/// The bits that a read gives of a register, by its number: none of x0.
#[rattlefmt::skip]
const MASKS: [u64; 32] = [
    0, ALL, ALL, ALL, ALL, ALL, ALL, ALL, ALL, ALL, ALL, ALL, ALL, ALL, ALL, ALL,
    ALL, ALL, ALL, ALL, ALL, ALL, ALL, ALL, ALL, ALL, ALL, ALL, ALL, ALL, ALL, ALL,
];

/// What is read of a register that holds so much, by its number.
#[inline(always)]
fn masked(value: u64, number: usize) -> u64
    requires { number < 32 }
    ensures { result ≡ if number == 0 then 0 else value }
{
    value & MASKS[number]
}

impl Regs {
    /// What a register holds. x0 holds 0. There is no branch, since each instruction reads registers.
    pub fn read(&self, register: Reg) -> u64
        ensures { result ≡ reg self.now register }
    {
        let number = register.number();
        masked(self.x[number], number)
    }

    /// Puts a value into a register. A write to x0 does nothing.
    pub fn write(&mut self, register: Reg, value: u64)
        ensures { self.new ≡ with_reg self.old register value }
    {
        let number = register.number();
        self.x[number] = if number == 0 { self.x[0] } else { value };
    }

    /// Moves on to the next instruction, 4 bytes further.
    pub fn go_on(&mut self)
        ensures { self.new ≡ gone_on self.old }
    {
        self.pc = self.pc.wrapping_add(4);
    }
}
