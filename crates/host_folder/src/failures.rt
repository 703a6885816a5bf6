//! What errors of the system are for us, and how failures are counted.

ghost use Rattle.std.specs.Prelude.{◌≡◌, IfOk, IfErr, IsErrAnd};
ghost use Rattle.host_node.specs.Faults.{host_failed};
ghost use Rattle.sn_base.specs.Faults.{HasCause};
ghost use Rattle.host_folder.specs.Failures.{IsRefusalOf};

use host_node::HostErr;
use sn_base::capped_add;
use std::io;
use std::io::ErrorKind;

/// What an error of the system is here: of the kind `OutOfMemory` it is want of memory, else a failure.
pub(crate) fn refusal(error: io::Error) -> HostErr
    ensures { IsRefusalOf error result }
{
    if error.kind() == ErrorKind::OutOfMemory {
        HostErr::Memory
    } else {
        HostErr::Failed
    }
}

/// What an answer of the system is here: what it gave, or what its error is.
pub(crate) fn answer_from<T>(found: io::Result<T>) -> Result<T, HostErr>
    ensures ok { IfOk found (λ given. result ≡ Ok given) }
    ensures refused { IfErr found (λ error. IsErrAnd result (IsRefusalOf error)) }
{
    found.map_err(refusal)
}

/// Hands an answer on, and counts it where it is a failure. The count stays at the greatest one.
pub(crate) fn counted<T>(faults: &mut u64, answer: Result<T, HostErr>) -> Result<T, HostErr>
    ensures answer { result ≡ answer }
    ensures faults { HasCause (host_failed result) faults.old faults.new }
{
    if let Err(HostErr::Failed) = answer {
        *faults = capped_add(*faults, 1);
    }
    answer
}
