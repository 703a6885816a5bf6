//! What a call on descriptors comes to, before it is done.

ghost use Rattle.std.specs.Prelude.{pos, []};
ghost use Rattle.kernel_model.specs.declared.caller.Caller.{Caller as ACaller};
ghost use Rattle.kernel_model.specs.declared.kernel.Kernel.{Kernel as AKernel};
ghost use Rattle.kernel_model.specs.calls.Answers.{refuses, replies};
ghost use Rattle.kernel_model.specs.entries.Parts.{done};
ghost use Rattle.call_fs.specs.Prepared.{AnswersFiles};

use file_changes::FileChange;
use sn_errno::{Errno, Reply};

/// What a call comes to: its reply (a negative one is an error's number), and what it changes.
#[derive(Clone, Copy, Debug, Drop, PartialEq, Eq)]
pub struct FilePrepared {
    pub reply: i64,
    pub change: FileChange,
}

/// A call that replies a value, and changes nothing.
pub(crate) fn replied(value: u32) -> FilePrepared
    ensures row { (c : ACaller) (k : AKernel) → AnswersFiles (done (replies (pos value) [])) result c k }
{
    FilePrepared {
        reply: i64::from(value),
        change: FileChange::Nothing,
    }
}

/// A call that is refused with an error.
pub(crate) fn refused(errno: Errno) -> FilePrepared
    ensures row { (c : ACaller) (k : AKernel) → AnswersFiles (done (refuses errno)) result c k }
{
    FilePrepared {
        reply: Reply::of(errno).number(),
        change: FileChange::Nothing,
    }
}
