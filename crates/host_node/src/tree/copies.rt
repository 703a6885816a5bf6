//! Copies of a tree, in memory of their own.

ghost use Rattle.std.specs.Prelude.{◌≡◌, ◌<◌, length, IfOk, OnErr};
ghost use Rattle.host_node.specs.Tree.{HoldsSome};

use super::{Node, Tree, TreeEntry};
use sn_base::{List, Memory};
use std::alloc::Global;

impl Tree {
    /// The same tree, in memory of its own. A node that holds nothing takes none.
    #[cycle(copies)]
    #[tactic(auto, using(crate::proofs::Listings::has_entries))]
    pub fn copy(&self, alloc: Global) -> Result<Tree, Memory>
        ensures ok { IfOk result (λ tree. tree ≡ self.now) }
        ensures some { OnErr result (HoldsSome self.now) }
    {
        let node = match &self.node {
            Node::Directory {
                mode,
                faults,
                entries,
            } => Node::Directory {
                mode: *mode,
                faults: *faults,
                entries: copy_entries(alloc, entries)?,
            },
            Node::File {
                bytes,
                mode,
                faults,
            } => Node::File {
                bytes: List::from_slice(alloc, bytes.as_slice())?,
                mode: *mode,
                faults: *faults,
            },
            Node::Link { text, faults } => Node::Link {
                text: text.copy(alloc)?,
                faults: *faults,
            },
            Node::Lent(kind) => Node::Lent(*kind),
        };
        Ok(Tree { node })
    }
}

/// The same entries, in memory of their own.
#[cycle(copies)]
fn copy_entries(alloc: Global, entries: &[TreeEntry]) -> Result<Vec<TreeEntry>, Memory>
    ensures ok { IfOk result (λ copies. copies.items ≡ entries.now) }
    ensures some { OnErr result (0 < length entries.now) }
{
    let mut copies = Vec::new(alloc);
    for entry in entries {
        let name = entry.name.copy(alloc)?;
        let tree = entry.tree.copy(alloc)?;
        copies.push(TreeEntry { name, tree })?;
    }
    Ok(copies)
}
