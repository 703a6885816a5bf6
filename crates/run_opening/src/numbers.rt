//! The inode numbers of the mount at `/`.

ghost use Rattle.std.specs.Prelude.{◌≡◌};
ghost use Rattle.run_opening.specs.Openings.{numbering_of};

use image_walk::Numbering;
use kernel_calls::root_of;
use mount_file::Mount;

/// The inode numbers of the folder that is mounted at `/`: roots are numbered 1 up in order of the mounts, and children
/// behind them.
///
/// inode(7), st_ino.
pub fn numbering(mounts: &[Mount]) -> Numbering
    ensures { result ≡ numbering_of mounts.now }
{
    Numbering {
        root: root_of(mounts),
        first: mounts.len() as u64 + 1,
    }
}
