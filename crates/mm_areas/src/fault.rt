//! Why a change of what is mapped is refused, or was not made.

ghost use Rattle.std.specs.Prelude.{◌≡◌};
ghost use Rattle.mm_areas.specs.declared.fault.AreaErr.TheVariants.{Fault as Refused, Memory as WantOfMemory};

use sn_base::Memory;

/// Why a change of what is mapped is refused.
///
/// - `Invalid`: an address or a length that the call doesn't take (EINVAL of the manual pages).
/// - `Hole`: a page that is not mapped (ENOMEM of mprotect(2)).
/// - `Limit`: more pages would be mapped than one address space may have (ENOMEM of mmap(2)).
/// - `NoRange`: no free range is long enough (ENOMEM of mmap(2)).
#[derive(Clone, Copy, Debug, PartialEq, Eq)]
pub enum AreaFault {
    Invalid,
    Hole,
    Limit,
    NoRange,
}

/// Why a change of what is mapped was not made: it is refused, or memory is wanting.
#[derive(Clone, Copy, Debug, PartialEq, Eq)]
pub enum AreaErr {
    Fault(AreaFault),
    Memory,
}

impl From<AreaFault> for AreaErr {
    ghost from_gives = { λ fault e. e ≡ Refused fault };

    fn from(fault: AreaFault) -> AreaErr {
        AreaErr::Fault(fault)
    }
}

impl From<Memory> for AreaErr {
    ghost from_gives = { λ _ e. e ≡ WantOfMemory };

    fn from(_e: Memory) -> AreaErr {
        AreaErr::Memory
    }
}
