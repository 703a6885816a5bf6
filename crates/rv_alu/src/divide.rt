//! Quotients and remainders, towards 0, and what a division by 0 gives.

ghost use Rattle.std.specs.Prelude.{◌≡◌, ◌^◌, ◌-◌, ◌/◌, ◌%◌, nat_eq, int_div, if◌then◌else◌};
ghost use Rattle.std.specs.Int.{IsNonZero, w32};
ghost use Rattle.rv_table.specs.Words.{signed, bits_of, low_word, signed_word, word};
ghost use Rattle.rv_alu.specs.Values.{quotient, remainder};

use crate::words::{carried, word};
use rv_table::{low_word, signed_word};

/// The quotient of signed numbers: -1 by 0.
#[inline]
pub(crate) fn quotient(a: u64, b: u64) -> u64
    ensures { result ≡ quotient (signed a) (signed b) b }
{
    if b == 0 {
        u64::MAX
    } else {
        a.cast_signed()
            .wrapping_div(b.cast_signed())
            .cast_unsigned()
    }
}

/// The quotient of numbers without a sign: 2^64 - 1 by 0.
#[inline]
pub(crate) fn quotient_unsigned(a: u64, b: u64) -> u64
    ensures { result ≡ if nat_eq b 0 then 2 ^ 64 - 1 else a / b }
{
    if b == 0 { u64::MAX } else { a / b }
}

/// The remainder of signed numbers, with the dividend's sign: the dividend by 0.
#[inline]
pub(crate) fn remainder(a: u64, b: u64) -> u64
    ensures { result ≡ remainder (signed a) (signed b) a b }
{
    if b == 0 {
        a
    } else {
        a.cast_signed()
            .wrapping_rem(b.cast_signed())
            .cast_unsigned()
    }
}

/// The remainder of numbers without a sign: the dividend by 0.
#[inline]
pub(crate) fn remainder_unsigned(a: u64, b: u64) -> u64
    ensures { result ≡ if nat_eq b 0 then a else a % b }
{
    if b == 0 { a } else { a % b }
}

/// The quotient of two signed words, as a register has it.
#[inline]
fn divided(a: i32, b: i32) -> u64
    requires { IsNonZero w32 b }
    ensures { result ≡ word (bits_of (int_div a b)) }
{
    carried(a.wrapping_div(b))
}

/// The quotient of signed words.
#[inline]
pub(crate) fn word_quotient(a: u64, b: u64) -> u64
    ensures { result ≡ word (quotient (signed_word a) (signed_word b) (low_word b)) }
{
    if low_word(b) == 0 {
        u64::MAX
    } else {
        divided(signed_word(a), signed_word(b))
    }
}

/// The quotient of words without a sign.
#[inline]
pub(crate) fn word_quotient_unsigned(a: u64, b: u64) -> u64
    ensures { result ≡ if nat_eq (low_word b) 0 then 2 ^ 64 - 1 else word (low_word a / low_word b) }
{
    let divisor = low_word(b);
    if divisor == 0 {
        u64::MAX
    } else {
        word(u64::from(low_word(a) / divisor))
    }
}

/// The remainder of signed words.
#[inline]
pub(crate) fn word_remainder(a: u64, b: u64) -> u64
    ensures { result ≡ word (remainder (signed_word a) (signed_word b) a (low_word b)) }
{
    if low_word(b) == 0 {
        word(a)
    } else {
        carried(signed_word(a).wrapping_rem(signed_word(b)))
    }
}

/// The remainder of words without a sign.
#[inline]
pub(crate) fn word_remainder_unsigned(a: u64, b: u64) -> u64
    ensures { result ≡ if nat_eq (low_word b) 0 then word a else word (low_word a % low_word b) }
{
    let divisor = low_word(b);
    if divisor == 0 {
        word(a)
    } else {
        word(u64::from(low_word(a) % divisor))
    }
}
