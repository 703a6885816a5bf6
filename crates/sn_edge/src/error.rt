//! Why a call on the outside gives no answer: it failed, or there was no memory.

ghost use Rattle.std.specs.Prelude.{◌≡◌};
ghost use Rattle.sn_edge.specs.declared.error.EdgeErr.TheVariants.{Memory};

use sn_base::Memory as WantOfMemory;
use std::alloc::{AllocError, AllocFailed};

/// Why a call on the outside gave no answer.
#[derive(Clone, Copy, Debug, PartialEq, Eq)]
pub enum EdgeErr {
    /// The outside failed. The count of faults has risen.
    Failed,
    /// An allocation was refused.
    Memory,
}

impl From<AllocError> for EdgeErr {
    ghost from_gives = { λ _ e. e ≡ Memory };

    fn from(_: AllocError) -> Self {
        EdgeErr::Memory
    }
}

impl<T: Drop> From<AllocFailed<T>> for EdgeErr {
    ghost from_gives = { λ _ e. e ≡ Memory };

    fn from(_: AllocFailed<T>) -> Self {
        EdgeErr::Memory
    }
}

impl From<WantOfMemory> for EdgeErr {
    ghost from_gives = { λ _ e. e ≡ Memory };

    fn from(_: WantOfMemory) -> Self {
        EdgeErr::Memory
    }
}
