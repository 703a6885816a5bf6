//! What the bytes of a path tell: why it leads nowhere, where it starts, and what its parts stand for.

ghost use Rattle.std.specs.Prelude.{◌≡◌};
ghost use Rattle.path_walk.specs.Parts.{path_error, is_dot, is_dot_dot, is_absolute, ends_in_slash};
ghost use Rattle.path_walk.specs.Parts.{root_of_mount, is_mount_root, root_directory, above_root, start_of};

use crate::node::NodeId;
use crate::path::PATH_MAX;
use mount_tree::MountTree;
use sn_errno::Errno;

/// Why a path, or the text of a link, leads nowhere.
pub(crate) fn path_error(path: &[u8]) -> Option<Errno>
    ensures { result ≡ path_error path.now }
{
    if path.len() == 0 {
        Some(Errno::ENOENT)
    } else if path.len() < PATH_MAX {
        None
    } else {
        Some(Errno::ENAMETOOLONG)
    }
}

/// Whether a part stands for the directory itself.
pub(crate) fn is_dot(part: &[u8]) -> bool
    ensures { result ≡ is_dot part.now }
{
    part == b".".as_slice()
}

/// Whether a part stands for the parent of the directory.
pub(crate) fn is_dot_dot(part: &[u8]) -> bool
    ensures { result ≡ is_dot_dot part.now }
{
    part == b"..".as_slice()
}

/// Whether a path begins with a slash.
fn is_absolute(path: &[u8]) -> bool
    ensures { result ≡ is_absolute path.now }
{
    match path {
        [] => false,
        [byte, ..] => *byte == b'/',
    }
}

/// The root directory of a mount.
pub(crate) fn root_of_mount(mount: u32) -> NodeId
    ensures { result ≡ root_of_mount mount }
{
    NodeId {
        mount,
        ino: mount as u64,
    }
}

/// Whether a node is the root directory of its mount.
pub(crate) fn is_mount_root(node: NodeId) -> bool
    ensures { result ≡ is_mount_root node }
{
    node.ino == node.mount as u64
}

/// Where `..` leads from the root directory of a mount.
pub(crate) fn above_root(tree: &MountTree, dir: NodeId) -> NodeId
    ensures { result ≡ above_root tree.now dir }
{
    root_of_mount(tree.up(dir.mount))
}

/// Where a path starts that is read in a directory.
pub(crate) fn start_of(tree: &MountTree, dir: NodeId, path: &[u8]) -> NodeId
    ensures { result ≡ start_of tree.now dir path.now }
{
    if is_absolute(path) {
        above_root(tree, dir)
    } else {
        dir
    }
}
