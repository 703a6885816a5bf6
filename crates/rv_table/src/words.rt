//! The low 32 bits of a register, as they are and as a signed number.

ghost use Rattle.std.specs.Prelude.{◌≡◌};
ghost use Rattle.rv_table.specs.Words.{low_word, signed_word};

/// The low 32 bits of a register.
#[inline]
pub fn low_word(n: u64) -> u32
    ensures { result ≡ low_word n }
{
    (n % 0x1_0000_0000) as u32
}

/// The low 32 bits of a register, as a signed number.
#[inline]
pub fn signed_word(n: u64) -> i32
    ensures { result ≡ signed_word n }
{
    low_word(n).cast_signed()
}
