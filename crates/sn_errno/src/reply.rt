//! What a system call leaves in a0.

ghost use Rattle.std.specs.Prelude.{◌≡◌};
ghost use Rattle.sn_errno.specs.Errors.{reply_of};

use crate::errno::Errno;
use std::marker::Model;

/// What a system call leaves in a0, as a signed number: a count, a descriptor or the like, or an error's
/// number, negative. Contracts see it as that integer.
///
/// syscall(2), Architecture calling conventions; intro(2), RETURN VALUE.
#[derive(Clone, Copy, Debug, PartialEq, Eq)]
pub struct Reply {
    value: i64,
}

impl Model for Reply {
    ghost use Rattle.std.specs.Prelude.{ℤ};

    ghost Value = { ℤ };

    ghost view = { λ a. a.value };

    ghost inverse = { λ n. record { value = n } };
}

impl Reply {
    /// The reply with this number.
    pub fn new(value: i64) -> Reply
        ensures { result ≡ value }
    {
        Reply { value }
    }

    /// The reply of a call that fails with this error.
    pub fn of(error: Errno) -> Reply
        ensures { result ≡ reply_of error }
    {
        Reply {
            value: -i64::from(error.number()),
        }
    }

    /// The reply's number.
    pub fn number(self) -> i64
        ensures { result ≡ self }
    {
        self.value
    }
}
