//! One part of a path, from the node that a walk has come to.

ghost use Rattle.std.specs.Prelude.{◌≡◌, ◌&&◌, IfErr, false};
ghost use Rattle.sn_base.specs.Faults.{HasCause};
ghost use Rattle.path_walk.specs.Moves.{Moves, going_by, walk_met_host, HasDrawnLate};
ghost use Rattle.path_walk.specs.Questions.{TreeAnswers};
ghost use Rattle.path_walk.specs.Resolve.{arrives, by_part, directory_part, in_searched, is_dir, last_part, walk_part, wants_parent};

use crate::dirs::Dirs;
use crate::error::WalkErr;
use crate::moves::{Behind, Move, Rules, by_dot_dot, by_name};
use crate::names::name_or_error;
use crate::node::{Found, NoName, NodeId, Want};
use crate::texts::{is_dot, is_dot_dot};
use host_node::Kind;
use sn_errno::Errno;
use std::alloc::Global;

/// The move by a last part whose directory is wanted: it is found, and not walked to.
fn last_part(alloc: Global, dir: NodeId, part: &[u8], slash: bool) -> Result<Move, WalkErr>
    ensures moves { (t : TreeAnswers) → Moves t (λ onto next. last_part dir part.now slash) result }
    ensures faults { walk_met_host result ≡ false }
    ensures numbers { IfErr result HasDrawnLate }
{
    if is_dot(part) {
        return Ok(Move::At(Found::NoName(NoName::Dot)));
    }
    if is_dot_dot(part) {
        return Ok(Move::At(Found::NoName(NoName::DotDot)));
    }
    match name_or_error(alloc, part) {
        Ok(name) => Ok(Move::At(Found::Last { dir, name, slash })),
        Err(error) => Err(error),
    }
}

/// The move from a directory by a part.
fn by_part<D: Dirs>(
    alloc: Global,
    dirs: &mut D,
    rules: Rules<'_>,
    dir: NodeId,
    part: &[u8],
    behind: Behind,
) -> Result<Move, WalkErr>
    ensures moves { (t : TreeAnswers) → D.stands_for dirs.new t → Moves t (λ onto next.
        by_part (going_by rules.entry.tree.now rules.entry.want rules.entry.follow) onto dir part.now behind.slash
        behind.at_end next) result }
    ensures stays { (t : TreeAnswers) → D.stands_for dirs.new t → D.stands_for dirs.old t }
    ensures faults { HasCause (walk_met_host result) (D.count dirs.old) (D.count dirs.new) }
    ensures numbers { IfErr result HasDrawnLate }
{
    if is_dot(part) {
        return Ok(Move::To(dir));
    }
    if is_dot_dot(part) {
        return Ok(Move::To(by_dot_dot(dirs, rules, dir)));
    }
    match name_or_error(alloc, part) {
        Ok(name) => by_name(dirs, rules, dir, name, behind),
        Err(error) => Err(error),
    }
}

/// The move from a directory by a part, where its owner may search it.
#[tactic(auto, using(crate::proofs::Parting::by_searched))]
fn searched_part<D: Dirs>(
    alloc: Global,
    dirs: &mut D,
    rules: Rules<'_>,
    dir: NodeId,
    part: &[u8],
    behind: Behind,
) -> Result<Move, WalkErr>
    ensures moves { (t : TreeAnswers) → D.stands_for dirs.new t → Moves t (λ onto next. in_searched dir (
        by_part (going_by rules.entry.tree.now rules.entry.want rules.entry.follow) onto dir part.now behind.slash
        behind.at_end next)) result }
    ensures stays { (t : TreeAnswers) → D.stands_for dirs.new t → D.stands_for dirs.old t }
    ensures faults { HasCause (walk_met_host result) (D.count dirs.old) (D.count dirs.new) }
    ensures numbers { IfErr result HasDrawnLate }
{
    if !dirs.searchable(dir) {
        return Err(WalkErr::Errno(Errno::EACCES));
    }
    by_part(alloc, dirs, rules, dir, part, behind)
}

/// The move from a directory by a part, which is not walked to where it is the last one and its directory is wanted.
#[tactic(auto, using(crate::proofs::Parting::by_last, crate::proofs::Parting::by_inner))]
fn directory_part<D: Dirs>(
    alloc: Global,
    dirs: &mut D,
    rules: Rules<'_>,
    dir: NodeId,
    part: &[u8],
    behind: Behind,
) -> Result<Move, WalkErr>
    ensures moves { (t : TreeAnswers) → D.stands_for dirs.new t → Moves t (λ onto next.
        directory_part (going_by rules.entry.tree.now rules.entry.want rules.entry.follow) onto dir part.now
        behind.slash behind.at_end next) result }
    ensures stays { (t : TreeAnswers) → D.stands_for dirs.new t → D.stands_for dirs.old t }
    ensures faults { HasCause (walk_met_host result) (D.count dirs.old) (D.count dirs.new) }
    ensures numbers { IfErr result HasDrawnLate }
{
    if ends_before(rules.want, behind.at_end) {
        return last_part(alloc, dir, part, behind.slash);
    }
    searched_part(alloc, dirs, rules, dir, part, behind)
}

/// Whether a part is not walked to: the last one, where its directory is wanted.
fn ends_before(want: Want, at_end: bool) -> bool
    ensures { result ≡ (at_end && wants_parent want) }
{
    at_end && want == Want::Parent
}

/// Whether a node of that kind is a directory.
pub(crate) fn is_dir(kind: Kind) -> bool
    ensures { result ≡ is_dir kind }
{
    kind == Kind::Dir
}

/// The move from a node by a part.
#[tactic(auto, using(crate::proofs::Parting::by_directory))]
pub(crate) fn walk_part<D: Dirs>(
    alloc: Global,
    dirs: &mut D,
    rules: Rules<'_>,
    here: NodeId,
    part: &[u8],
    behind: Behind,
) -> Result<Move, WalkErr>
    ensures moves { (t : TreeAnswers) → D.stands_for dirs.new t → Moves t (λ onto next.
        walk_part (going_by rules.entry.tree.now rules.entry.want rules.entry.follow) onto here part.now behind.slash
        behind.at_end next) result }
    ensures stays { (t : TreeAnswers) → D.stands_for dirs.new t → D.stands_for dirs.old t }
    ensures faults { HasCause (walk_met_host result) (D.count dirs.old) (D.count dirs.new) }
    ensures numbers { IfErr result HasDrawnLate }
{
    if !is_dir(dirs.kind(here)) {
        return Err(WalkErr::Errno(Errno::ENOTDIR));
    }
    directory_part(alloc, dirs, rules, here, part, behind)
}

/// What a walk comes to where no part is left: the node, which is a directory where a slash ends the path; and where
/// its directory is wanted, no name.
pub(crate) fn arrives<D: Dirs>(
    dirs: &D,
    rules: Rules<'_>,
    here: NodeId,
    slash: bool,
) -> Result<Move, WalkErr>
    ensures moves { (t : TreeAnswers) → D.stands_for dirs.now t → Moves t (λ onto next.
        arrives (going_by rules.entry.tree.now rules.entry.want rules.entry.follow) here slash) result }
    ensures faults { walk_met_host result ≡ false }
    ensures numbers { IfErr result HasDrawnLate }
{
    if rules.want == Want::Parent {
        return Ok(Move::At(Found::NoName(NoName::Root)));
    }
    if slash && dirs.kind(here) != Kind::Dir {
        return Err(WalkErr::Errno(Errno::ENOTDIR));
    }
    Ok(Move::At(Found::Node(here)))
}
