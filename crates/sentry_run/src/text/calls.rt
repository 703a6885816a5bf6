//! The names of the system calls.

ghost use Rattle.std.specs.Prelude.{◌≡◌, ◌++◌, OnOk};
ghost use Rattle.sn_errno.specs.Calls.{call_name};

use super::written;
use sn_base::Memory;
use sn_errno::CallNo;
use std::io::Write;

/// Adds what a system call is printed as: its name, or else `call` and its number.
#[tactic(auto, using(sn_errno::proofs::CallLaws::printed_known, sn_errno::proofs::CallLaws::printed_unknown))]
pub fn push_name(out: &mut Vec<u8>, number: u64) -> Result<(), Memory>
    ensures { OnOk result (out.new.items ≡ out.old.items ++ call_name number) }
{
    match CallNo::of(number) {
        Some(call) => {
            let name = call.name();
            written(write!(out, "{name}"))
        }
        None => written(write!(out, "call{number}")),
    }
}
