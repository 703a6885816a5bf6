//! What loads take, and what a register gets of it.

ghost use Rattle.std.specs.Prelude.{◌≡◌, ◌%◌, ◌==◌};
ghost use Rattle.rv_table.specs.Words.{IsWidth};
ghost use Rattle.rv_exec.specs.Execution.{extended};
ghost use Rattle.rv_exec.specs.Loads.{width_of, extend_of, refused_by};

use crate::Step;
use rv_table::MemErr;

/// A kind of load, by the manual's names: bytes, half-words, words and double words, with their sign or without.
#[derive(Clone, Copy, Debug, PartialEq, Eq)]
pub(crate) enum Load {
    Byte,
    Half,
    Word,
    Double,
    UnsignedByte,
    UnsignedHalf,
    UnsignedWord,
}

impl Load {
    /// How many bytes it takes.
    #[inline(always)]
    pub(crate) fn width(self) -> u8
        ensures width { result ≡ width_of self }
        ensures is_width { IsWidth result }
    {
        match self {
            Load::Byte => 1,
            Load::Half => 2,
            Load::Word => 4,
            Load::Double => 8,
            Load::UnsignedByte => 1,
            Load::UnsignedHalf => 2,
            Load::UnsignedWord => 4,
        }
    }

    /// Whether an address is a multiple of its width: the remainder by a width that isn't known takes long.
    #[inline(always)]
    pub(crate) fn is_aligned(self, at: u64) -> bool
        ensures { result ≡ (at % width_of self == 0) }
    {
        match self {
            Load::Byte => true,
            Load::Half => at % 2 == 0,
            Load::Word => at % 4 == 0,
            Load::Double => at % 8 == 0,
            Load::UnsignedByte => true,
            Load::UnsignedHalf => at % 2 == 0,
            Load::UnsignedWord => at % 4 == 0,
        }
    }

    /// What a register gets of its number.
    #[inline(always)]
    pub(crate) fn extend(self, value: u64) -> u64
        ensures { result ≡ extend_of self value }
    {
        match self {
            Load::Byte => extended_byte(value),
            Load::Half => extended_half(value),
            Load::Word => extended_word(value),
            Load::Double => value,
            Load::UnsignedByte => value,
            Load::UnsignedHalf => value,
            Load::UnsignedWord => value,
        }
    }
}

/// What a refused access ends a step with.
pub(crate) fn refused(refusal: MemErr) -> Step
    ensures { result ≡ refused_by refusal }
{
    match refusal {
        MemErr::Fault { .. } => Step::Trap(11),
        MemErr::Shared(area) => Step::Shared(area),
        MemErr::Memory => Step::Memory,
    }
}

#[inline(always)]
fn extended_byte(value: u64) -> u64
    ensures { result ≡ extended 7 value }
{
    let low = value % 256;
    if low < 128 {
        low
    } else {
        low + (u64::MAX - 255)
    }
}

#[inline(always)]
fn extended_half(value: u64) -> u64
    ensures { result ≡ extended 15 value }
{
    let low = value % 65_536;
    if low < 32_768 {
        low
    } else {
        low + (u64::MAX - 65_535)
    }
}

#[inline(always)]
fn extended_word(value: u64) -> u64
    ensures { result ≡ extended 31 value }
{
    let low = value % 4_294_967_296;
    if low < 2_147_483_648 {
        low
    } else {
        low + (u64::MAX - 4_294_967_295)
    }
}
