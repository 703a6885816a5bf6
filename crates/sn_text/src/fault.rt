//! Why bytes are no name, and which of their faults is told.

ghost use Rattle.std.specs.Prelude.{◌≡◌};
ghost use Rattle.sn_text.specs.Names.{name_fault_of};
ghost use Rattle.sn_text.specs.declared.fault.NameFault.TheVariants.{Memory as WantOfMemory};

use sn_base::Memory;
use std::alloc::AllocError;

/// The longest name, in bytes (NAME_MAX of Linux's limits.h).
pub const NAME_MAX: usize = 255;

/// Why bytes are no name. Where several fit, the first in this order is told.
#[derive(Clone, Copy, Debug, PartialEq, Eq)]
pub enum NameFault {
    /// There are no bytes.
    Empty,
    /// There are more than `NAME_MAX` bytes.
    Long,
    /// A byte is `/`.
    Slash,
    /// A byte is 0.
    Nul,
    /// The bytes are `.` or `..`.
    Dot,
    /// The bytes are a name, and there was no memory to keep it in.
    Memory,
}

impl From<Memory> for NameFault {
    ghost from_gives = { λ _ e. e ≡ WantOfMemory };

    fn from(_e: Memory) -> NameFault {
        NameFault::Memory
    }
}

impl From<AllocError> for NameFault {
    ghost from_gives = { λ _ e. e ≡ WantOfMemory };

    fn from(_e: AllocError) -> NameFault {
        NameFault::Memory
    }
}

/// The first fault, in the order of `NameFault`, of bytes that are no name, or `None` for a name. It takes no memory.
#[tactic(auto, unfolding(crate::specs::Names::name_fault_of))]
pub fn name_fault(bytes: &[u8]) -> Option<NameFault>
    ensures { result ≡ name_fault_of bytes.now }
{
    if bytes.is_empty() {
        Some(NameFault::Empty)
    } else if bytes.len() > NAME_MAX {
        Some(NameFault::Long)
    } else if bytes.contains(&b'/') {
        Some(NameFault::Slash)
    } else if bytes.contains(&0) {
        Some(NameFault::Nul)
    } else if bytes == b".".as_slice() || bytes == b"..".as_slice() {
        Some(NameFault::Dot)
    } else {
        None
    }
}
