//! A path divided at its slashes.

ghost use Rattle.std.specs.Prelude.{◌≡◌, ◌^◌, ◌<◌, length};
ghost use Rattle.sn_text.specs.Paths.{parts_of};

use crate::pieces::PartsOfPath;

/// The parts of a path, in order: the pieces between its slashes, but for the empty ones, so that
/// several slashes stand for one, and one at an end for none (path_resolution(7)). It takes no memory.
pub fn parts(path: &[u8]) -> PartsOfPath<'_>
    ensures parts { result ≡ parts_of path.now }
    ensures fits { length result < 2 ^ 64 }
{
    PartsOfPath::new(path)
}
