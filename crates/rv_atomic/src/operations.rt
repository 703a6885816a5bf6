//! What an atomic memory operation stores.

ghost use Rattle.std.specs.Prelude.{◌≡◌};
ghost use Rattle.rv_atomic.specs.Operations.{stored_by};

use crate::words::{greater, greater_word, lesser, lesser_word};
use rv_table::{Instr, low_word};

/// The value that an atomic memory operation stores: `old` is what memory held, as the instruction loads it, and `b`
/// what rs2 holds. A W instruction reads the low 32 bits of both alone, and its value is the number that the word's
/// bits are. An instruction that is no atomic memory operation has 0.
#[tactic(auto, unfolding(crate::specs::Operations::stored_by))]
pub fn amo(instr: &Instr, old: u64, b: u64) -> u64
    ensures { result ≡ stored_by instr.now old b }
{
    match *instr {
        Instr::AmoswapW { .. } => u64::from(low_word(b)),
        Instr::AmoaddW { .. } => u64::from(low_word(old.wrapping_add(b))),
        Instr::AmoxorW { .. } => u64::from(low_word(old) ^ low_word(b)),
        Instr::AmoandW { .. } => u64::from(low_word(old) & low_word(b)),
        Instr::AmoorW { .. } => u64::from(low_word(old) | low_word(b)),
        Instr::AmominW { .. } => u64::from(lesser_word(old, b)),
        Instr::AmomaxW { .. } => u64::from(greater_word(old, b)),
        Instr::AmominuW { .. } => u64::from(low_word(old).min(low_word(b))),
        Instr::AmomaxuW { .. } => u64::from(low_word(old).max(low_word(b))),
        Instr::AmoswapD { .. } => b,
        Instr::AmoaddD { .. } => old.wrapping_add(b),
        Instr::AmoxorD { .. } => old ^ b,
        Instr::AmoandD { .. } => old & b,
        Instr::AmoorD { .. } => old | b,
        Instr::AmominD { .. } => lesser(old, b),
        Instr::AmomaxD { .. } => greater(old, b),
        Instr::AmominuD { .. } => old.min(b),
        Instr::AmomaxuD { .. } => old.max(b),
        _ => 0,
    }
}
