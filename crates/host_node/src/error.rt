//! Why a call of a host is refused: it failed, or there was no memory on this side.

ghost use Rattle.std.specs.Prelude.{◌≡◌};
ghost use Rattle.host_node.specs.declared.error.HostErr.TheVariants.{Memory as WantOfMemory};

use std::alloc::{AllocError, AllocFailed};

/// Why a call of a host was refused.
#[derive(Clone, Copy, Debug, PartialEq, Eq)]
pub enum HostErr {
    /// The host failed. The object's count of failed calls rose in this call.
    Failed,
    /// An allocation on this side was refused. No count rose.
    Memory,
}

impl From<sn_base::Memory> for HostErr {
    ghost from_gives = { λ _ e. e ≡ WantOfMemory };

    fn from(_e: sn_base::Memory) -> HostErr {
        HostErr::Memory
    }
}

impl From<AllocError> for HostErr {
    ghost from_gives = { λ _ e. e ≡ WantOfMemory };

    fn from(_e: AllocError) -> HostErr {
        HostErr::Memory
    }
}

impl<T: Drop> From<AllocFailed<T>> for HostErr {
    ghost from_gives = { λ _ e. e ≡ WantOfMemory };

    fn from(_e: AllocFailed<T>) -> HostErr {
        HostErr::Memory
    }
}
