//! Why a question about a node has no answer, and why a walk is refused.

ghost use Rattle.std.specs.Prelude.{◌≡◌};
ghost use Rattle.path_walk.specs.Faults.{passed_on};

use sn_errno::Errno;

/// Why a question about a node has no answer.
#[derive(Clone, Copy, Debug, PartialEq, Eq)]
pub enum DirErr {
    /// The host failed. The count of failed calls rose in this call.
    Host,
    /// A child drew this inode number, which is above the last that a node may have.
    Numbers { ino: u64 },
    /// An allocation was refused.
    Memory,
}

/// Why a walk is refused.
#[derive(Clone, Copy, Debug, PartialEq, Eq)]
pub enum WalkErr {
    /// The path leads to nothing, for this cause.
    Errno(Errno),
    /// The host failed at a question. The count of failed calls rose in the walk.
    Host,
    /// A child drew this inode number, which is above the last that a node may have.
    Numbers { ino: u64 },
    /// An allocation was refused.
    Memory,
}

impl From<DirErr> for WalkErr {
    ghost from_gives = { λ e w. w ≡ passed_on e };

    fn from(e: DirErr) -> WalkErr {
        match e {
            DirErr::Host => WalkErr::Host,
            DirErr::Numbers { ino } => WalkErr::Numbers { ino },
            DirErr::Memory => WalkErr::Memory,
        }
    }
}
