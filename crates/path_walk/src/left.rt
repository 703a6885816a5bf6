//! What is left of a path: its parts, the next one last, so that the text of a link comes in front without a move.

ghost use Rattle.std.specs.Prelude.{◌≡◌, ◌++◌, reverse, IfOk, OnOk};
ghost use Rattle.sn_text.specs.Paths.{parts_of};
ghost use Rattle.path_walk.specs.Parts.{ends_in_slash};

use sn_base::Memory;
use sn_text::{Text, parts};
use std::alloc::Global;

/// Whether a path ends with a slash.
pub(crate) fn ends_in_slash(path: &[u8]) -> bool
    ensures { result ≡ ends_in_slash path.now }
{
    match path {
        [] => false,
        [.., byte] => *byte == b'/',
    }
}

/// The parts of a path, each in memory of its own.
fn own_parts(alloc: Global, path: &[u8]) -> Result<Vec<Text>, Memory>
    ensures { IfOk result (λ own. own.items ≡ parts_of path.now) }
{
    let mut own = Vec::new(alloc);
    for part in parts(path) {
        own.push(Text::from_slice(alloc, part)?)?;
    }
    Ok(own)
}

/// Puts the parts of a path in front of those that are left.
pub(crate) fn put_in_front(alloc: Global, path: &[u8], left: &mut Vec<Text>) -> Result<(), Memory>
    ensures { OnOk result (reverse left.new.items ≡ parts_of path.now ++ reverse left.old.items) }
{
    let mut own = own_parts(alloc, path)?;
    own.reverse();
    left.append(&mut own)?;
    Ok(())
}
