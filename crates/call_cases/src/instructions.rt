//! The common guest: instructions, each of which takes an address in a0 and a value in a1 and gives a value in a2.

use crate::calls::{Came, bracketed, go_on};
use crate::numbers::value;
use kernel_model::Kernel;
use plain_kernel::Plain;
use read_cases::Bad;
use std::alloc::Global;

/// Its words, as an assembler made them.
#[rattlefmt::skip]
pub const CODE: [u32; 10] = [
    0x00b5_3023, // sd a1, 0(a0)
    0x0005_3603, // ld a2, 0(a0)
    0x1005_362f, // lr.d a2, (a0)
    0x18b5_362f, // sc.d a2, a1, (a0)
    0x00b5_362f, // amoadd.d a2, a1, (a0)
    0x1005_262f, // lr.w a2, (a0)
    0x18b5_262f, // sc.w a2, a1, (a0)
    0x00b5_262f, // amoadd.w a2, a1, (a0)
    0x0005_0067, // jr a0
    0x0000_0073, // ecall
];

/// Where the first of them stands, and the ECALL.
const FIRST: u64 = 65_656;

pub const ECALL: u64 = FIRST + 36;

/// Where an instruction stands, by its name.
fn place_of(name: &str) -> Option<u64> {
    match name {
        "sd" => Some(FIRST),
        "ld" => Some(FIRST + 4),
        "lr.d" => Some(FIRST + 8),
        "sc.d" => Some(FIRST + 12),
        "amoadd.d" => Some(FIRST + 16),
        "lr.w" => Some(FIRST + 20),
        "sc.w" => Some(FIRST + 24),
        "amoadd.w" => Some(FIRST + 28),
        "jr" => Some(FIRST + 32),
        _ => None,
    }
}

/// An instruction with its address and its value.
#[derive(Clone, Copy)]
pub struct Instruction {
    pub at: u64,
    pub address: u64,
    pub value: u64,
}

/// An instruction, as `NAME(ADDRESS)` or `NAME(ADDRESS, VALUE)`.
pub fn read_instruction(text: &str, each: u64) -> Option<Instruction> {
    let (name, inner) = bracketed(text)?;
    let at = place_of(name)?;
    let (address, second) = match inner.split_once(", ") {
        Some((first, second)) => (value(first, each)?, value(second, each)?),
        None => (value(inner, each)?, 0),
    };
    Some(Instruction {
        at,
        address,
        value: second,
    })
}

/// Whether an instruction gives no value: a store, or a jump.
pub fn is_silent(one: &Instruction) -> bool {
    one.at == FIRST || one.at == FIRST + 32
}

/// Has a task stand at an instruction; whether there is one.
pub fn stand(kernel: &mut Kernel, task: u32, one: &Instruction) -> bool {
    match kernel.registers.get_mut(u64::from(task)) {
        Some(registers) => {
            registers.pc = one.at;
            registers.x[10] = one.address;
            registers.x[11] = one.value;
            true
        }
        None => false,
    }
}

/// What a2 has, where a0 has that address.
fn given(kernel: &Kernel, task: u32, address: u64) -> Came {
    match kernel.registers.get(u64::from(task)) {
        Some(registers) if registers.x[10] == address => Came::Gives(registers.x[12]),
        _ => Came::Unfit,
    }
}

/// Has a task do an instruction, which does not count as an entry.
pub fn instruct(
    alloc: Global,
    plain: &mut Plain,
    task: u32,
    one: &Instruction,
) -> Result<Came, Bad> {
    if !stand(&mut plain.kernel, task, one) {
        return Ok(Came::Nothing);
    }
    let entries = plain.kernel.entries;
    let came = go_on(alloc, plain, task)?;
    plain.kernel.entries = entries;
    match came {
        Came::Runs => Ok(given(&plain.kernel, task, one.address)),
        _ => Ok(came),
    }
}
