//! File descriptors, and why a call on them is refused.

ghost use Rattle.std.specs.Prelude.{◌≡◌};

use sn_base::Made;

/// What a number of a descriptor table stands for.
#[derive(Clone, Copy, Debug, PartialEq, Eq)]
pub struct Descriptor {
    /// The open file description, by its name. Several descriptors may have one.
    pub description: Made,
    /// Whether execve(2) closes it: FD_CLOEXEC.
    pub cloexec: bool,
}

impl Descriptor {
    ghost use Rattle.fd_table.specs.Tables.{with_mark};

    /// The same description, closed by execve(2) or not.
    pub fn with_cloexec(self, cloexec: bool) -> Descriptor
        ensures { result ≡ with_mark self cloexec }
    {
        Descriptor { cloexec, ..self }
    }
}

/// Why a call on a descriptor table was refused.
#[derive(Clone, Copy, Debug, PartialEq, Eq)]
pub enum FdErr {
    /// No number is free at or above the lowest that is asked for: EMFILE.
    Full,
    /// A number isn't open, or can't be: EBADF.
    BadFd,
    /// The two numbers are one: EINVAL of dup3(2).
    Same,
}
