//! The trusted world of files: folders that are granted and settled, and nodes that are buried.

ghost use Rattle.std.specs.Prelude.{◌≡◌, [], ◌∷◌, ◌++◌, ℕ, List, Option, IfOk, IfSome, IfNone, OnOk, OnErr};
ghost use Rattle.host_node.specs.declared.kind.Kind.TheVariants.{Dir as Directory};
ghost use Rattle.host_node.specs.Tree.{Shape};
ghost use Rattle.host_node.specs.Faults.{host_failed};
ghost use Rattle.sn_base.specs.Faults.{HasCause};
ghost use Rattle.host_node.specs.Told.{Closed, CanGrant, LacksFolder, TellsGranted, after_grant, CanSettle, Settles};

use crate::error::HostErr;
use crate::node::HostNode;
use sn_base::Memory;
use sn_text::Folder;

/// A host: the trusted world of files, from which folders are granted.
///
/// A folder is found by its names alone, from what the host tells; `rooted` isn't looked at.
pub trait HostWorld {
    /// What the host's nodes are.
    type Node: HostNode;

    /// How many calls of the host itself failed.
    ghost count: { Self → ℕ };

    /// The tree of files that the host tells, or `None`.
    ghost told: { Self → Option Shape };

    /// The counts of the nodes that were buried, in order.
    ghost buried: { Self → List ℕ };

    /// How many calls of the host itself failed.
    fn faults(&self) -> u64
        ensures { result ≡ count self.now };

    /// The directory where a folder's names lead, or `None` where there is none. The node that comes out
    /// is its holder's, and stands as lent here until it is settled.
    fn grant(&mut self, folder: &Folder) -> Result<Option<Self::Node>, HostErr>
        requires { CanGrant folder.now.names (told self.old) }
        ensures none { IfOk result (λ granted. IfNone granted
            (LacksFolder folder.now.names (told self.old))) }
        ensures node { IfOk result (λ granted. IfSome granted (λ node.
            TellsGranted folder.now.names (told self.old)
            (Self.Node.told node) (Self.Node.count node) (Self.Node.what node))) }
        ensures directory { IfOk result (λ granted. IfSome granted (λ node.
            Self.Node.what node ≡ Directory)) }
        ensures closed { IfOk result (λ granted. IfSome granted (λ node.
            Self.Node.opened node ≡ Closed)) }
        ensures faults { HasCause (host_failed result) (count self.old) (count self.new) }
        ensures tells { told self.new ≡ after_grant result folder.now.names (told self.old) }
        ensures buried { buried self.new ≡ buried self.old };

    /// Puts a granted folder back. It takes no memory.
    fn settle(&mut self, folder: &Folder, node: Self::Node)
        requires { CanSettle folder.now.names (told self.old) }
        ensures tells { Settles folder.now.names (told self.old) (Self.Node.told node) (told self.new) }
        ensures faults { count self.new ≡ count self.old }
        ensures buried { buried self.new ≡ buried self.old };

    /// Keeps the count of a node that was removed, behind those of the nodes buried before.
    fn bury(&mut self, node: Self::Node) -> Result<(), Memory>
        ensures ok { OnOk result (buried self.new ≡ buried self.old ++ Self.Node.count node ∷ []) }
        ensures err { OnErr result (buried self.new ≡ buried self.old) }
        ensures faults { count self.new ≡ count self.old }
        ensures tells { told self.new ≡ told self.old };
}
