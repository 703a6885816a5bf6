//! What a case makes: a directory, a file or a link.

ghost use Rattle.std.specs.Prelude.{◌≡◌, ◌≤◌, true, IfOk};
ghost use Rattle.host_node.specs.Tree.{none_lent};

use crate::names::bytes_of;
use host_node::{LONGEST_LINK, Tree};
use read_cases::{Bad, parted};
use sn_base::List;
use sn_text::Text;
use std::alloc::Global;

/// A directory, a file or a link: permission bits, and what it holds or its text, in which `\xNN` stands for a byte.
#[derive(Clone, Copy)]
pub enum Made<'a> {
    Directory(u32),
    File(u32, &'a str),
    Link(&'a str),
}

fn mode_of(text: &str) -> Option<u32> {
    u32::from_str_radix(text, 8).ok()
}

/// The path and what is made there: `dir PATH MODE`, `file PATH MODE TEXT`, `link PATH TEXT`.
pub fn made_of<'a>(verb: &str, words: &'a str) -> Option<(&'a str, Made<'a>)> {
    let (path, rest) = parted(words);
    let (mode, text) = parted(rest);
    match verb {
        "dir" => Some((path, Made::Directory(mode_of(mode)?))),
        "file" => Some((path, Made::File(mode_of(mode)?, text))),
        "link" => Some((path, Made::Link(rest))),
        _ => None,
    }
}

fn link_of(alloc: Global, text: &str) -> Result<Tree, Bad>
    ensures { IfOk result (λ tree. none_lent tree ≡ true) }
{
    let bytes = bytes_of(alloc, text)?;
    if bytes.len() > LONGEST_LINK {
        return Err(Bad::Setup);
    }
    Ok(Tree::link(Text::from_slice(alloc, bytes.as_slice())?))
}

fn file_of(alloc: Global, mode: u32, text: &str) -> Result<Tree, Bad>
    ensures { IfOk result (λ tree. none_lent tree ≡ true) }
{
    let bytes = bytes_of(alloc, text)?;
    Ok(Tree::file(mode.min(0o777), List::from_vec(bytes)))
}

/// The same as a tree in memory.
pub fn tree_of(alloc: Global, made: Made<'_>) -> Result<Tree, Bad>
    ensures { IfOk result (λ tree. none_lent tree ≡ true) }
{
    match made {
        Made::Directory(mode) => Ok(Tree::directory(alloc, mode.min(0o777))),
        Made::File(mode, text) => file_of(alloc, mode, text),
        Made::Link(text) => link_of(alloc, text),
    }
}
