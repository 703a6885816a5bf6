//! A host's tree of files in memory: its nodes, and what each tells of itself.

ghost use Rattle.std.specs.Prelude.{◌≡◌, ◌+◌, ◌≤◌, length};
ghost use Rattle.sn_base.specs.Sums.{capped};
ghost use Rattle.host_node.specs.Tree.{directory as dir, file as regular, link as symlink, lent as away, no_children};
ghost use Rattle.host_node.specs.Tree.{kind_of, permissions_of, size_of, attr_of, faults_of, with_faults, file_bytes};
ghost use Rattle.host_node.specs.Tree.{is_directory};

mod children;
mod copies;
mod entries;
mod listings;

use crate::kind::{Attr, Kind};
use sn_base::{List, capped_add};
use sn_text::{Name, Text};
use std::alloc::Global;
use std::marker::Model;

/// The most bytes of a link's text.
pub const LONGEST_LINK: usize = 65_536;

/// A host's tree of files, in memory. Contracts see it as a `Shape`: a directory with its entries in the
/// order of their names, a file, a link, or a node that stands with a borrower.
#[cycle(tree)]
#[derive(Drop)]
pub struct Tree {
    node: Node,
}

#[cycle(tree)]
#[derive(Drop)]
enum Node {
    Directory {
        mode: u32,
        faults: u64,
        entries: Vec<TreeEntry>,
    },
    File {
        bytes: List<u8>,
        mode: u32,
        faults: u64,
    },
    Link {
        text: Text,
        faults: u64,
    },
    Lent(Kind),
}

#[cycle(tree)]
#[derive(Drop)]
struct TreeEntry {
    name: Name,
    tree: Tree,
}

impl Model for Tree {
    ghost use Rattle.host_node.specs.Tree.{Shape};
    ghost use Rattle.host_node.specs.laws.TreeCode.{coded_shape};

    ghost Value = { Shape };

    ghost coded = { coded_shape };

    ghost use Rattle.host_node.specs.Levels.{shape_of, IsSound};
    ghost use Rattle.host_node.specs.laws.TreeSize.{weight};

    ghost view = { λ a. shape_of a.node };

    ghost invariant = { λ a. IsSound a.node };

    ghost size = { weight };

    ghost use Rattle.host_node.specs.laws.TreeFalls.{deep_le-weight};

    ghost size_decreases = { λ a h. deep_le-weight a.node };
}

impl Tree {
    /// A directory with no entries. It takes no memory.
    pub fn directory(alloc: Global, mode: u32) -> Tree
        requires { mode ≤ 511 }
        ensures { result ≡ dir mode 0 no_children }
    {
        Tree {
            node: Node::Directory {
                mode,
                faults: 0,
                entries: Vec::new(alloc),
            },
        }
    }

    /// A file. It takes no memory.
    pub fn file(mode: u32, bytes: List<u8>) -> Tree
        requires { mode ≤ 511 }
        ensures { result ≡ regular bytes mode 0 }
    {
        Tree {
            node: Node::File {
                bytes,
                mode,
                faults: 0,
            },
        }
    }

    /// A symbolic link with a text of at most `LONGEST_LINK` bytes. It takes no memory.
    pub fn link(text: Text) -> Tree
        requires { length text ≤ LONGEST_LINK }
        ensures { result ≡ symlink text 0 }
    {
        Tree {
            node: Node::Link { text, faults: 0 },
        }
    }

    /// The place of a node that stands with a borrower. It takes no memory.
    pub fn lent(kind: Kind) -> Tree
        ensures { result ≡ away kind }
    {
        Tree {
            node: Node::Lent(kind),
        }
    }

    /// What the node is.
    pub fn kind(&self) -> Kind
        ensures { result ≡ kind_of self.now }
    {
        match &self.node {
            Node::Directory { .. } => Kind::Dir,
            Node::File { .. } => Kind::File,
            Node::Link { .. } => Kind::Link,
            Node::Lent(kind) => *kind,
        }
    }

    /// Whether the node is a directory and stands here, not with a borrower.
    pub fn is_directory(&self) -> bool
        ensures { result ≡ is_directory self.now }
    {
        matches!(&self.node, Node::Directory { .. })
    }

    /// What stat(2) tells of the node.
    pub fn attr(&self) -> Attr
        ensures value { result ≡ attr_of self.now }
        ensures mode { result.mode ≤ 511 }
    {
        Attr {
            kind: self.kind(),
            mode: self.mode(),
            size: self.size(),
        }
    }

    /// The permission bits of the node.
    fn mode(&self) -> u32
        ensures value { result ≡ permissions_of self.now }
        ensures most { result ≤ 511 }
    {
        match &self.node {
            Node::Directory { mode, .. } => *mode,
            Node::File { mode, .. } => *mode,
            Node::Link { .. } => 0o777,
            Node::Lent(_) => 0,
        }
    }

    /// How many bytes the node holds.
    fn size(&self) -> u64
        ensures { result ≡ size_of self.now }
    {
        match &self.node {
            Node::Directory { .. } => 0,
            Node::File { bytes, .. } => bytes.len() as u64,
            Node::Link { text, .. } => text.as_bytes().len() as u64,
            Node::Lent(_) => 0,
        }
    }

    /// How many calls of the node failed; 0 of one that stands with a borrower.
    pub fn faults(&self) -> u64
        ensures { result ≡ faults_of self.now }
    {
        match &self.node {
            Node::Directory { faults, .. } => *faults,
            Node::File { faults, .. } => *faults,
            Node::Link { faults, .. } => *faults,
            Node::Lent(_) => 0,
        }
    }

    /// Counts one failed call more. The count stays at the greatest one.
    pub fn count_fault(&mut self)
        ensures { self.new ≡ with_faults (capped (faults_of self.old + 1)) self.old }
    {
        match &mut self.node {
            Node::Directory { faults, .. } => *faults = capped_add(*faults, 1),
            Node::File { faults, .. } => *faults = capped_add(*faults, 1),
            Node::Link { faults, .. } => *faults = capped_add(*faults, 1),
            Node::Lent(_) => {}
        }
    }

    /// What a file holds; of another node, nothing.
    pub fn bytes(&self) -> &[u8]
        ensures { result.now ≡ file_bytes self.now }
    {
        match &self.node {
            Node::File { bytes, .. } => bytes.as_slice(),
            _ => &[],
        }
    }
}
