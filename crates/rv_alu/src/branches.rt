//! Which branches are taken.

ghost use Rattle.std.specs.Prelude.{◌≡◌};
ghost use Rattle.rv_alu.specs.Branches.{is_taken};

use rv_table::Instr;

/// Whether a branch is taken: `a` is what rs1 holds, and `b` what rs2 holds. An instruction that is no branch is not.
#[tactic(auto, unfolding(crate::specs::Branches::is_taken))]
#[inline(always)]
pub fn is_taken(instr: &Instr, a: u64, b: u64) -> bool
    ensures { result ≡ is_taken instr.now a b }
{
    match *instr {
        Instr::Beq { .. } => a == b,
        Instr::Bne { .. } => a != b,
        Instr::Blt { .. } => a.cast_signed() < b.cast_signed(),
        Instr::Bge { .. } => a.cast_signed() >= b.cast_signed(),
        Instr::Bltu { .. } => a < b,
        Instr::Bgeu { .. } => a >= b,
        _ => false,
    }
}
