//! What stands under a name of a directory in memory: found, put there, taken out and given back.

ghost use Rattle.std.specs.Prelude.{◌≡◌, None, IsSome, IsTrue, OnOk, OnErr, option_copied};
ghost use Rattle.host_node.specs.Tree.{is_directory, child_of, with_child, lend_child};

use super::entries::{find_in, give_in, insert_in, take_in};
use super::{Node, Tree};
use sn_base::Memory;
use sn_text::Name;

impl Tree {
    /// What stands under a name of a directory; under one of another node, nothing.
    pub fn find(&self, name: &Name) -> Option<&Tree>
        ensures { option_copied result ≡ child_of name.now self.now }
    {
        match &self.node {
            Node::Directory { entries, .. } => find_in(entries, name.as_bytes()),
            _ => None,
        }
    }

    /// What stands under the name with these bytes; under bytes that are no name, nothing.
    pub fn find_bytes(&self, name: &[u8]) -> Option<&Tree>
        ensures { option_copied result ≡ child_of name.now self.now }
    {
        match &self.node {
            Node::Directory { entries, .. } => find_in(entries, name),
            _ => None,
        }
    }

    /// Puts a tree into a directory, under a name that is free. An `Err` leaves the directory as it was.
    pub fn put(&mut self, name: Name, tree: Tree) -> Result<(), Memory>
        requires directory { IsTrue (is_directory self.old) }
        requires free { child_of name self.old ≡ None }
        ensures ok { OnOk result (self.new ≡ with_child name tree self.old) }
        ensures err { OnErr result (self.new ≡ self.old) }
    {
        match &mut self.node {
            Node::Directory { entries, .. } => insert_in(entries, name, tree),
            _ => unreachable!(),
        }
    }

    /// Takes out what stands under a name of a directory, or answers `None` where nothing does. The
    /// place of a node that stands with a borrower stays behind. It takes no memory.
    pub fn take(&mut self, name: &Name) -> Option<Tree>
        ensures tree { result ≡ child_of name.now self.old }
        ensures after { self.new ≡ lend_child name.now self.old }
    {
        match &mut self.node {
            Node::Directory { entries, .. } => take_in(entries, name.as_bytes()),
            _ => None,
        }
    }

    /// Puts a tree in the place of what stands under a name of a directory. It takes no memory.
    pub fn give(&mut self, name: &Name, tree: Tree)
        requires { IsSome (child_of name.now self.old) }
        ensures { self.new ≡ with_child name.now tree self.old }
    {
        if let Node::Directory { entries, .. } = &mut self.node {
            give_in(entries, name.as_bytes(), tree);
        }
    }
}
