//! Errors of the system: which are want of memory, and which are faults and count.

ghost use Rattle.std.specs.Prelude.{◌≡◌, ◌↔◌};
ghost use Rattle.std.specs.IoError.{error_kind};
ghost use Rattle.sn_base.specs.Faults.{HasCause};
ghost use Rattle.sn_edge.specs.Errors.{is_failure};

use crate::EdgeErr;
use sn_base::capped_add;
use std::io;
use std::io::ErrorKind;

/// What an error of the system is here. One that isn't want of memory is a fault, and counts.
pub(crate) fn failure(faults: &mut u64, error: &io::Error) -> EdgeErr
    ensures memory { (result ≡ EdgeErr.Memory) ↔ (error_kind error.now ≡ ErrorKind.OutOfMemory) }
    ensures cause { HasCause (is_failure result) faults.old faults.new }
{
    if error.kind() == ErrorKind::OutOfMemory {
        return EdgeErr::Memory;
    }
    *faults = capped_add(*faults, 1);
    EdgeErr::Failed
}
