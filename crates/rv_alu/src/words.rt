//! Numbers of 64 and of 32 bits, with and without a sign.

ghost use Rattle.std.specs.Prelude.{◌≡◌, int_lt, nat_lt};
ghost use Rattle.rv_table.specs.Words.{signed, bits_of, word, flag};

use rv_table::signed_word;

/// A word as a register has it: with its sign carried on.
#[inline]
pub(crate) fn carried(z: i32) -> u64
    ensures { result ≡ bits_of z }
{
    i64::from(z).cast_unsigned()
}

/// The low 32 bits of a register, with their sign carried on.
#[inline]
pub(crate) fn word(n: u64) -> u64
    ensures { result ≡ word n }
{
    carried(signed_word(n))
}

/// Whether one register is below another, as signed numbers.
#[inline]
pub(crate) fn less_signed(a: u64, b: u64) -> u64
    ensures { result ≡ flag (int_lt (signed a) (signed b)) }
{
    u64::from(a.cast_signed() < b.cast_signed())
}

/// Whether one register is below another.
#[inline]
pub(crate) fn less_unsigned(a: u64, b: u64) -> u64
    ensures { result ≡ flag (nat_lt a b) }
{
    u64::from(a < b)
}
