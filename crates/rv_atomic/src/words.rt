//! The lesser and the greater of two words, and of two double words, as signed numbers.

ghost use Rattle.std.specs.Prelude.{◌≡◌};
ghost use Rattle.rv_atomic.specs.Operations.{lesser, greater, lesser_word, greater_word};

use rv_table::{low_word, signed_word};

/// The lesser of two double words, as signed numbers.
pub(crate) fn lesser(a: u64, b: u64) -> u64
    ensures { result ≡ lesser a b }
{
    if a.cast_signed() < b.cast_signed() {
        a
    } else {
        b
    }
}

/// The greater of two double words, as signed numbers.
pub(crate) fn greater(a: u64, b: u64) -> u64
    ensures { result ≡ greater a b }
{
    if a.cast_signed() < b.cast_signed() {
        b
    } else {
        a
    }
}

/// The lesser of two words, as signed numbers.
pub(crate) fn lesser_word(a: u64, b: u64) -> u32
    ensures { result ≡ lesser_word a b }
{
    if signed_word(a) < signed_word(b) {
        low_word(a)
    } else {
        low_word(b)
    }
}

/// The greater of two words, as signed numbers.
pub(crate) fn greater_word(a: u64, b: u64) -> u32
    ensures { result ≡ greater_word a b }
{
    if signed_word(a) < signed_word(b) {
        low_word(b)
    } else {
        low_word(a)
    }
}
