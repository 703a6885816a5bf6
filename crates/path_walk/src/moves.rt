//! One part of a path: the move that a walk makes by it.

ghost use Rattle.std.specs.Prelude.{◌≡◌, IfErr, Ok, false};
ghost use Rattle.sn_base.specs.Faults.{HasCause};
ghost use Rattle.path_walk.specs.Moves.{Moves, going_by, walk_met_host, HasDrawnLate};
ghost use Rattle.path_walk.specs.Parts.{part_error};
ghost use Rattle.path_walk.specs.Questions.{TreeAnswers};
ghost use Rattle.path_walk.specs.Resolve.{by_child, by_dot_dot, by_name, mount_at};

use crate::dirs::Dirs;
use crate::error::WalkErr;
use crate::node::{Found, NodeId, Want};
use crate::texts::{above_root, is_mount_root, root_of_mount};
use host_node::Kind;
use mount_tree::MountTree;
use sn_errno::Errno;
use sn_text::Name;

/// What stays through a walk: the mounts, what is wanted, and whether a link at the end is followed.
#[derive(Clone, Copy)]
pub(crate) struct Rules<'a> {
    pub(crate) tree: &'a MountTree,
    pub(crate) want: Want,
    pub(crate) follow: bool,
}

/// What stands behind a part: whether a slash ends the path, and whether no part is left.
#[derive(Clone, Copy)]
pub(crate) struct Behind {
    pub(crate) slash: bool,
    pub(crate) at_end: bool,
}

/// What a walk does by one part.
#[derive(Drop)]
pub(crate) enum Move {
    /// It goes on at a node.
    To(NodeId),
    /// It goes on by the text of a link.
    Onto(NodeId),
    /// It has found what is wanted.
    At(Found),
}

/// The move to what a directory has under a name.
fn by_child<D: Dirs>(
    dirs: &D,
    rules: Rules<'_>,
    dir: NodeId,
    name: Name,
    behind: Behind,
    found: Option<NodeId>,
) -> Result<Move, WalkErr>
    ensures moves { (t : TreeAnswers) → D.stands_for dirs.now t → Moves t (λ onto next.
        by_child (going_by rules.entry.tree.now rules.entry.want rules.entry.follow) onto dir name behind.slash behind.at_end
        found next) result }
    ensures faults { walk_met_host result ≡ false }
    ensures numbers { IfErr result HasDrawnLate }
{
    let Some(node) = found else {
        if behind.at_end && rules.want == Want::Make {
            let Behind { slash, .. } = behind;
            return Ok(Move::At(Found::Last { dir, name, slash }));
        }
        return Err(WalkErr::Errno(Errno::ENOENT));
    };
    if dirs.kind(node) == Kind::Link && (!behind.at_end || rules.follow || behind.slash) {
        return Ok(Move::Onto(node));
    }
    Ok(Move::To(node))
}

/// The mount that lies at a name of a directory.
fn mount_at(tree: &MountTree, dir: NodeId, name: &Name) -> Option<u32>
    ensures { result ≡ mount_at tree.now dir name.now }
{
    if !is_mount_root(dir) {
        return None;
    }
    tree.cross(dir.mount, name)
}

/// The move from a directory by a name.
#[tactic(auto, using(crate::proofs::Moving::by_found_child))]
pub(crate) fn by_name<D: Dirs>(
    dirs: &mut D,
    rules: Rules<'_>,
    dir: NodeId,
    name: Name,
    behind: Behind,
) -> Result<Move, WalkErr>
    ensures moves { (t : TreeAnswers) → D.stands_for dirs.new t → Moves t (λ onto next.
        by_name (going_by rules.entry.tree.now rules.entry.want rules.entry.follow) onto dir name behind.slash behind.at_end
        (mount_at rules.entry.tree.now dir name) next) result }
    ensures stays { (t : TreeAnswers) → D.stands_for dirs.new t → D.stands_for dirs.old t }
    ensures faults { HasCause (walk_met_host result) (D.count dirs.old) (D.count dirs.new) }
    ensures numbers { IfErr result HasDrawnLate }
{
    if let Some(mount) = mount_at(rules.tree, dir, &name) {
        return Ok(Move::To(root_of_mount(mount)));
    }
    let found = dirs.child(dir, &name)?;
    by_child(dirs, rules, dir, name, behind, found)
}

/// The move from a directory by `..`.
pub(crate) fn by_dot_dot<D: Dirs>(dirs: &D, rules: Rules<'_>, dir: NodeId) -> NodeId
    ensures moves { (t : TreeAnswers) → D.stands_for dirs.now t → Moves t (λ onto next.
        by_dot_dot rules.entry.tree.now dir next) (Ok (Move.To result)) }
{
    if is_mount_root(dir) {
        above_root(rules.tree, dir)
    } else {
        dirs.parent(dir)
    }
}
