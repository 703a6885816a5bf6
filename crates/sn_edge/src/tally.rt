//! Counts that only proofs read, of the reads of a source in memory and of the bytes that they took.

ghost use Rattle.std.specs.Prelude.{◌≡◌, ℕ, ◌+◌};
ghost use Rattle.std.specs.Borrow.{ftrue};

use std::marker::Model;

/// A count that only proofs read. It has no greatest value, takes no memory, and its methods do nothing
/// at run time.
#[derive(Drop)]
pub(crate) struct Tally {
    pub ghost count: { ℕ },
}

impl Model for Tally {
    ghost also_owns = { λ _. ftrue };
}

impl Tally {
    pub(crate) fn new() -> Tally
        ensures { result.count ≡ 0 }
    {
        Tally {}
    }

    pub(crate) fn more(&self, _by: &usize) -> Tally
        ensures { result.count ≡ self.now.count + _by.now }
    {
        Tally {}
    }
}
