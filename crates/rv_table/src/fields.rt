//! The fields of an instruction word, as the decoder takes them.

ghost use Rattle.std.specs.Prelude.{◌≡◌, ◌<◌};
ghost use Rattle.rv_table.specs.Fields.{sign_extend, rd_of, rs1_of, rs2_of, shamt_of, word_shamt_of, i_immediate};
ghost use Rattle.rv_table.specs.Fields.{s_immediate, b_immediate, u_immediate, j_immediate};

use crate::Reg;

/// Bits 7 to 11.
pub fn rd(word: u32) -> Reg
    ensures { result ≡ rd_of word }
{
    Reg::new(((word >> 7) % 32) as u8)
}

/// Bits 15 to 19.
pub fn rs1(word: u32) -> Reg
    ensures { result ≡ rs1_of word }
{
    Reg::new(((word >> 15) % 32) as u8)
}

/// Bits 20 to 24.
pub fn rs2(word: u32) -> Reg
    ensures { result ≡ rs2_of word }
{
    Reg::new(((word >> 20) % 32) as u8)
}

/// How far a shift of 64 bits goes: bits 20 to 25.
pub fn shamt(word: u32) -> u8
    ensures { result ≡ shamt_of word }
{
    ((word >> 20) % 64) as u8
}

/// How far a shift of 32 bits goes: bits 20 to 24.
pub fn word_shamt(word: u32) -> u8
    ensures { result ≡ word_shamt_of word }
{
    ((word >> 20) % 32) as u8
}

/// A number of twelve bits, the highest of them the sign.
fn extended(bits: u32) -> u64
    requires { bits < 4096 }
    ensures { result ≡ sign_extend 11 bits }
{
    if bits < 0x800 {
        u64::from(bits)
    } else {
        u64::from(bits) + 0xffff_ffff_ffff_f000
    }
}

/// Bits 20 to 31, the highest of them the sign.
pub fn i_immediate(word: u32) -> u64
    ensures { result ≡ i_immediate word }
{
    extended(word >> 20)
}

/// A store's distance: bits 25 to 31, the highest of them the sign, then bits 7 to 11.
pub fn s_immediate(word: u32) -> u64
    ensures { result ≡ s_immediate word }
{
    extended((word >> 25) * 0x20 + (word >> 7) % 0x20)
}

/// A branch's distance: bit 31, the sign, then bit 7, bits 25 to 30, bits 8 to 11, and a zero.
pub fn b_immediate(word: u32) -> u64
    ensures { result ≡ b_immediate word }
{
    let high = (word >> 31) * 0x1000 + (word >> 7) % 2 * 0x800;
    let low = (word >> 25) % 0x40 * 0x20 + (word >> 8) % 0x10 * 2;
    let bits = u64::from(high + low);
    if bits < 0x1000 {
        bits
    } else {
        bits + 0xffff_ffff_ffff_e000
    }
}

/// Bits 12 to 31 in their places, the highest of them the sign.
pub fn u_immediate(word: u32) -> u64
    ensures { result ≡ u_immediate word }
{
    let bits = u64::from(word >> 12) * 0x1000;
    if bits < 0x8000_0000 {
        bits
    } else {
        bits + 0xffff_ffff_0000_0000
    }
}

/// A jump's distance: bit 31, the sign, then bits 12 to 19, bit 20, bits 21 to 30, and a zero.
pub fn j_immediate(word: u32) -> u64
    ensures { result ≡ j_immediate word }
{
    let high = (word >> 31) * 0x10_0000 + (word >> 12) % 0x100 * 0x1000;
    let low = (word >> 20) % 2 * 0x800 + (word >> 21) % 0x400 * 2;
    let bits = u64::from(high + low);
    if bits < 0x10_0000 {
        bits
    } else {
        bits + 0xffff_ffff_ffe0_0000
    }
}
