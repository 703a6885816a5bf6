//! How a run came out: its answer, its exit status, and what it tells of the opening, the trace and the mount file.

ghost use Rattle.std.specs.Prelude.{◌≡◌};
ghost use Rattle.sentry_run.specs.Causes.{status_of};

use kernel_model::{Left, Opening, Trace};
use mount_file::{MountFault, Mounts};
use sn_errno::Errno;

/// How a run came out.
///
/// - `Done`: no live task is left, and all of the text was taken.
/// - `Usage`: the words are no command.
/// - `Mounts`: the mount file breaks that rule.
/// - `Image`: the opening execve of that task answers that error.
/// - `SourceFault`: the source failed.
/// - `SinkFault`: the sink failed.
/// - `Stuck`: a task is live, the trace is not full, and no task's next step is ready.
/// - `Full`: the trace has as many entries as the mount file allows, and a task is live.
/// - `Memory`: memory ran out.
/// - `HostFault`: the host failed in a grant.
/// - `Grant`: the host has no such folder; mounts count from 1.
#[derive(Clone, Copy, Debug, PartialEq, Eq)]
pub enum Fault {
    Done,
    Usage,
    Mounts(MountFault),
    Image { task: u32, errno: Errno },
    SourceFault,
    SinkFault,
    Stuck,
    Full,
    Memory,
    HostFault,
    Grant { mount: u32 },
}

impl Fault {
    /// The exit status of the program.
    pub fn status(self) -> u8
        ensures { result ≡ status_of self }
    {
        match self {
            Fault::Done => 0,
            Fault::Usage => 2,
            Fault::Mounts(_) => 3,
            Fault::Image { .. } => 4,
            Fault::SourceFault => 5,
            Fault::SinkFault => 6,
            Fault::Stuck => 7,
            Fault::Full => 8,
            Fault::Memory => 9,
            Fault::HostFault => 10,
            Fault::Grant { .. } => 11,
        }
    }
}

/// What a run gives: its exit status and how it came out, the record of its opening, its trace and what it left beside
/// that, and the mount file as it was read, where it was accepted.
pub struct Outcome {
    pub status: u8,
    pub fault: Fault,
    pub opening: Opening,
    pub trace: Trace,
    pub left: Left,
    pub mounts: Option<Mounts>,
}

/// Lets all of it go. Who owns an outcome lets go of it by this one call, at each exit.
impl Drop for Outcome {
    fn drop(self) {
        let Outcome {
            status: _,
            fault: _,
            opening: _,
            trace: _,
            left: _,
            mounts: _,
        } = self;
    }
}
