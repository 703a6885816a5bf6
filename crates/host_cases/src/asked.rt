//! What may be asked of a node: of one that tells its files, what these allow, and of one that tells nothing, all.

ghost use Rattle.std.specs.Prelude.{◌≡◌, ◌≢◌, true, IsTrue};
ghost use Rattle.host_node.specs.Told.{CanLend, CanList, CanOpen, CanRead, Closed};
ghost use Rattle.host_cases.specs.Whole.{IsWhole};

use host_folder::FolderNode;
use host_memory::MemoryNode;
use host_node::{HostNode, Kind};
use sn_text::Name;
use std::fs::Files;

/// A node that answers whether a call may be made of it, while nothing of it stands with a borrower.
pub trait Asked: HostNode {
    /// Whether it may be listed.
    fn may_list(&self) -> bool
        requires { IsWhole (Self.told self.now) }
        ensures { IsTrue result → CanList (Self.told self.now) };

    /// Whether it may be asked to lend what stands under a name.
    fn may_lend(&self, name: &Name) -> bool
        requires { IsWhole (Self.told self.now) }
        ensures { IsTrue result → CanLend name.now (Self.told self.now) };

    /// Whether it may be opened for reading, or for writing too.
    fn may_open(&self, write: bool) -> bool
        requires { IsWhole (Self.told self.now) }
        ensures { IsTrue result → CanOpen write (Self.told self.now) };

    /// Whether it may be read, where it is open or not.
    fn may_read(&self, is_open: bool) -> bool
        requires whole { IsWhole (Self.told self.now) }
        requires opened { is_open ≡ true → Self.opened self.now ≢ Closed }
        ensures { IsTrue result → CanRead (Self.told self.now) (Self.opened self.now) };
}

impl Asked for MemoryNode {
    #[tactic(auto, using(crate::proofs::Wholes::can_list))]
    fn may_list(&self) -> bool {
        self.kind() == Kind::Dir
    }

    #[tactic(auto, using(crate::proofs::Wholes::can_lend_any))]
    fn may_lend(&self, _name: &Name) -> bool {
        self.kind() == Kind::Dir
    }

    #[tactic(auto, using(crate::proofs::Wholes::can_open_file, crate::proofs::Wholes::can_open_directory))]
    fn may_open(&self, write: bool) -> bool {
        match self.kind() {
            Kind::Dir => !write,
            Kind::File => true,
            Kind::Link => false,
        }
    }

    #[tactic(auto, using(crate::proofs::Wholes::can_read))]
    fn may_read(&self, is_open: bool) -> bool {
        is_open && self.kind() == Kind::File
    }
}

impl<R: Files + AllocGlobal + Clone + Drop + Send> Asked for FolderNode<R>
where
    R::File: Send,
{
    fn may_list(&self) -> bool {
        true
    }

    fn may_lend(&self, _name: &Name) -> bool {
        true
    }

    fn may_open(&self, _write: bool) -> bool {
        true
    }

    fn may_read(&self, _is_open: bool) -> bool {
        true
    }
}
