//! Shifts, of 64 bits and of 32. How far a shift goes is taken by its low 6 or 5 bits.

ghost use Rattle.std.specs.Prelude.{◌≡◌, ◌^◌, ◌%◌, ◌*◌};
ghost use Rattle.std.specs.Int.{int_shr};
ghost use Rattle.rv_table.specs.Words.{signed, bits_of, low_word, signed_word, word, shifted_left, shifted_right};

use crate::words::{carried, word};
use rv_table::{low_word, signed_word};

/// To the left.
#[inline]
pub(crate) fn left(n: u64, places: u64) -> u64
    ensures { result ≡ shifted_left n (places % 64) }
{
    n << (places % 64)
}

/// To the right, with zeros.
#[inline]
pub(crate) fn right(n: u64, places: u64) -> u64
    ensures { result ≡ shifted_right n (places % 64) }
{
    n >> (places % 64)
}

/// To the right, with the sign.
#[inline]
pub(crate) fn right_signed(n: u64, places: u64) -> u64
    ensures { result ≡ bits_of (int_shr (signed n) (places % 64)) }
{
    (n.cast_signed() >> (places % 64)).cast_unsigned()
}

/// A word to the left.
#[inline]
pub(crate) fn word_left(n: u64, places: u64) -> u64
    ensures { result ≡ word (n * 2 ^ (places % 32)) }
{
    word(n << (places % 32))
}

/// A word to the right, with zeros.
#[inline]
pub(crate) fn word_right(n: u64, places: u64) -> u64
    ensures { result ≡ word (shifted_right (low_word n) (places % 32)) }
{
    word(u64::from(low_word(n) >> (places % 32)))
}

/// A word to the right, with the sign.
#[inline]
pub(crate) fn word_right_signed(n: u64, places: u64) -> u64
    ensures { result ≡ bits_of (int_shr (signed_word n) (places % 32)) }
{
    carried(signed_word(n) >> (places % 32))
}
