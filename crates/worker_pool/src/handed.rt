//! What was handed to a pool.

ghost use Rattle.std.specs.Prelude.{ℕ, List, []};

use std::marker::Brand;

/// Names the tasks of one call: their numbers, and the numbers of the children that they had forked before.
pub trait Handed {
    ghost handed: { List ℕ };

    ghost before: { List ℕ };
}

impl Handed for Brand {
    ghost handed = { [] };

    ghost before = { [] };
}
