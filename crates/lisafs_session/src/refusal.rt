//! Why an answer has no value.

ghost use Rattle.std.specs.Prelude.{◌≡◌};
ghost use Rattle.lisafs_session.specs.declared.refusal.ListError.TheVariants as errors;

use sn_base::Memory;

/// Why an answer has no value: the server refused by an errno, or the bytes are no answer of what was asked.
#[derive(Clone, Copy, Debug, PartialEq, Eq)]
pub enum Refusal {
    Errno(u32),
    Mismatch,
}

/// Why a list wasn't read: it was refused, or memory for it was.
#[derive(Clone, Copy, Debug, PartialEq, Eq)]
pub enum ListError {
    Refused(Refusal),
    Memory,
}

impl From<Refusal> for ListError {
    ghost from_gives = { λ refusal e. e ≡ errors.Refused refusal };

    fn from(refusal: Refusal) -> ListError {
        ListError::Refused(refusal)
    }
}

impl From<Memory> for ListError {
    ghost from_gives = { λ _ e. e ≡ errors.Memory };

    fn from(_e: Memory) -> ListError {
        ListError::Memory
    }
}
