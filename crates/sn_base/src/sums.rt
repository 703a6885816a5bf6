//! Sums of counts that stop at the greatest one.

ghost use Rattle.std.specs.Prelude.{◌≡◌, ◌+◌};
ghost use Rattle.sn_base.specs.Sums.{capped};

/// The sum of two counts, which stops at the greatest count that there is, 2 ^ 64 - 1.
pub fn capped_add(a: u64, b: u64) -> u64
    ensures { result ≡ capped (a + b) }
{
    a.saturating_add(b)
}
