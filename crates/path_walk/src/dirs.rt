//! The questions of a walk, and who answers them.

ghost use Rattle.std.specs.Prelude.{◌≡◌, ℕ, IfOk, IfErr, OnOk, OnErr};
ghost use Rattle.sn_base.specs.Faults.{HasCause};
ghost use Rattle.path_walk.specs.Faults.{host_failed, HasDrawn, LacksMemory};
ghost use Rattle.path_walk.specs.Questions.{TreeAnswers};

use crate::error::DirErr;
use crate::node::NodeId;
use host_node::Kind;
use sn_text::{Name, Text};

/// Who answers what a walk asks about nodes.
///
/// Its answers stand for a tree. Which trees they can stand for it tells (`stands_for`): no answer lets in a tree that
/// was out before, so an answer that was given once holds in each tree that is left.
pub trait Dirs {
    /// The answers so far can stand for this tree.
    ghost stands_for: { Self → TreeAnswers → Type 0 };

    /// How many calls of a host failed.
    ghost count: { Self → ℕ };

    /// How many calls of a host failed.
    fn faults(&self) -> u64
        ensures { result ≡ count self.now };

    /// What a node is.
    fn kind(&self, node: NodeId) -> Kind
        ensures { (t : TreeAnswers) → stands_for self.now t → t.kind node ≡ result };

    /// Whether its owner may search a directory: whether it has the right 0100.
    fn searchable(&self, dir: NodeId) -> bool
        ensures { (t : TreeAnswers) → stands_for self.now t → t.searchable dir ≡ result };

    /// The node under a name of a directory, or `None` where nothing is. In a removed directory nothing is.
    fn child(&mut self, dir: NodeId, name: &Name) -> Result<Option<NodeId>, DirErr>
        ensures child { IfOk result (λ found. (t : TreeAnswers) → stands_for self.new t →
            t.child dir name.now ≡ found) }
        ensures stays { (t : TreeAnswers) → stands_for self.new t → stands_for self.old t }
        ensures memory { LacksMemory result → (t : TreeAnswers) → stands_for self.old t → stands_for self.new t }
        ensures faults { HasCause (host_failed result) (count self.old) (count self.new) }
        ensures numbers { IfErr result HasDrawn };

    /// The directory that `..` leads to from a directory that is no root: from a removed one that which it was in last.
    fn parent(&self, dir: NodeId) -> NodeId
        ensures { (t : TreeAnswers) → stands_for self.now t → t.parent dir ≡ result };

    /// The text of a link, which takes the place of what `out` had. `out` stays on an `Err`.
    fn text(&mut self, link: NodeId, out: &mut Text) -> Result<(), DirErr>
        ensures text { OnOk result ((t : TreeAnswers) → stands_for self.new t → t.text link ≡ out.new) }
        ensures err { OnErr result (out.new ≡ out.old) }
        ensures stays { (t : TreeAnswers) → stands_for self.new t → stands_for self.old t }
        ensures memory { LacksMemory result → (t : TreeAnswers) → stands_for self.old t → stands_for self.new t }
        ensures faults { HasCause (host_failed result) (count self.old) (count self.new) }
        ensures numbers { IfErr result HasDrawn };
}
