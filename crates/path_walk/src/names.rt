//! The name that a part of a path is.

ghost use Rattle.std.specs.Prelude.{◌≡◌, IfOk, IfErr, None};
ghost use Rattle.path_walk.specs.Moves.{IsPartError};
ghost use Rattle.path_walk.specs.Parts.{part_error};

use crate::error::WalkErr;
use sn_errno::Errno;
use sn_text::{Name, NameFault, name_of};
use std::alloc::Global;

/// The name that a part of a path is. The fault of the part comes before want of memory.
pub(crate) fn name_or_error(alloc: Global, part: &[u8]) -> Result<Name, WalkErr>
    ensures name { IfOk result (λ name. name ≡ part.now) }
    ensures fits { IfOk result (λ name. part_error part.now ≡ None) }
    ensures error { IfErr result (IsPartError part.now) }
{
    match name_of(alloc, part) {
        Ok(name) => Ok(name),
        Err(NameFault::Long) => Err(WalkErr::Errno(Errno::ENAMETOOLONG)),
        Err(NameFault::Memory) => Err(WalkErr::Memory),
        Err(_) => Err(WalkErr::Errno(Errno::ENOENT)),
    }
}
