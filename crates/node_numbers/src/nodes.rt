//! Nodes and the numbers of their children.

ghost use Rattle.std.specs.Prelude.{◌≡◌, ℕ, Some, IsSome, IfOk, OnOk, OnErr};
ghost use Rattle.host_node.specs.Tree.{child_of};
ghost use Rattle.kernel_model.specs.files.FileTree.{number_in, root_node, child_node, numbered_in};
ghost use Rattle.kernel_model.specs.declared.kernel.Node.{Node as ANode};

use host_node::Tree;
use kernel_model::{Node, Numbered};
use sn_base::{List, Memory};
use sn_text::Name;
use std::alloc::Global;

/// The root of a mount, which is its own parent. It takes no memory.
pub fn root_node(alloc: Global, ino: u64, tree: Tree) -> Node
    ensures { result ≡ root_node ino tree }
{
    Node {
        parent: ino,
        linked: true,
        tree,
        numbers: List::new(alloc),
    }
}

/// A node in a directory. It takes no memory.
pub(crate) fn child_node(alloc: Global, dir: u64, tree: Tree) -> Node
    ensures { result ≡ child_node dir tree }
{
    Node {
        parent: dir,
        linked: true,
        tree,
        numbers: List::new(alloc),
    }
}

/// The number that a directory has for a name.
pub fn number_of(node: &Node, name: &[u8]) -> Option<u64>
    ensures { result ≡ number_in name.now node.now.numbers }
{
    for entry in node.numbers.as_slice() {
        if entry.name.is(name) {
            return Some(entry.ino);
        }
    }
    None
}

/// Notes the number of a child, and takes the child out. An `Err` leaves the directory as it was.
pub(crate) fn number_child(
    alloc: Global,
    node: &mut Node,
    name: &Name,
    ino: u64,
) -> Result<Tree, Memory>
    requires { IsSome (child_of name.now node.old.tree) }
    ensures tree { IfOk result (λ tree. child_of name.now node.old.tree ≡ Some tree) }
    ensures after { OnOk result (node.new ≡ numbered_in node.old name.now ino) }
    ensures err { OnErr result (node.new ≡ node.old) }
{
    let name_kept = name.copy(alloc)?;
    node.numbers.push(Numbered {
        name: name_kept,
        ino,
    })?;
    match node.tree.take(name) {
        Some(tree) => Ok(tree),
        None => unreachable!(),
    }
}

/// Takes a child back whose number was the last to be noted.
pub(crate) fn take_back(node: &mut Node, name: &Name, tree: Tree)
    requires { IsSome (child_of name.now node.old.tree) }
    ensures { (dir : ANode) (ino : ℕ) → node.old ≡ numbered_in dir name.now ino →
        child_of name.now dir.tree ≡ Some tree → node.new ≡ dir }
{
    let _number = node.numbers.pop();
    node.tree.give(name, tree);
}
