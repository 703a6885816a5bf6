//! What stands in a tree where names lead: how it is looked at, exchanged and put there.

ghost use Rattle.std.specs.Prelude.{◌≡◌, ◌<◌, [], ◌∷◌, None, length, IsSome, IfErr, OnOk, OnErr, option_copied};
ghost use Rattle.host_node.specs.Routes.{subtree, put_subtree};
ghost use Rattle.host_memory.specs.Places.{put_under, put_fault, IsPutFaultOf};
ghost use Rattle.host_memory.specs.declared.places.PutErr.{PutErr as Fault};
ghost use Rattle.host_memory.specs.declared.places.PutErr.TheVariants.{Memory as WantOfMemory};

use host_node::Tree;
use sn_base::Memory;
use sn_text::Name;
use std::alloc::Global;
use std::mem;

/// Why a tree wasn't put: the first of these that holds.
#[derive(Clone, Copy, Debug, PartialEq, Eq)]
pub enum PutErr {
    /// The names but the last lead to no directory that stands here, not with a borrower.
    NoParent,
    /// Something is there already.
    Taken,
    /// An allocation was refused.
    Memory,
}

impl From<Memory> for PutErr {
    ghost from_gives = { λ _ e. e ≡ WantOfMemory };

    fn from(_e: Memory) -> PutErr {
        PutErr::Memory
    }
}

/// What stands where names lead, or `None`.
pub(crate) fn look_at<'a>(tree: &'a Tree, names: &[Name]) -> Option<&'a Tree>
    ensures { option_copied result ≡ subtree names.now tree.now }
{
    match names.split_first() {
        None => Some(tree),
        Some((name, rest)) => look_at(tree.find(name)?, rest),
    }
}

/// Puts a tree in the place of what stands where names lead, and gives that.
pub(crate) fn swap_at(tree: &mut Tree, names: &[Name], new: Tree) -> Tree
    requires { IsSome (subtree names.now tree.old) }
    ensures old { Some result ≡ subtree names.now tree.old }
    ensures new { tree.new ≡ put_subtree names.now new tree.old }
{
    match names.split_first() {
        None => mem::replace(tree, new),
        Some((name, rest)) => match tree.take(name) {
            None => unreachable!(),
            Some(child) => {
                let mut child = child;
                let old = swap_at(&mut child, rest, new);
                tree.give(name, child);
                old
            }
        },
    }
}

/// Puts a tree under a name of a directory.
fn put_child(alloc: Global, tree: &mut Tree, name: &Name, new: Tree) -> Result<(), PutErr>
    ensures ok { OnOk result (tree.new ≡ put_under (name.now ∷ []) new tree.old) }
    ensures possible { OnOk result (put_fault (name.now ∷ []) tree.old ≡ None) }
    ensures fault { IfErr result (IsPutFaultOf (name.now ∷ []) tree.old) }
    ensures faulty { (e : Fault) → put_fault (name.now ∷ []) tree.old ≡ Some e → result ≡ Err e }
    ensures err { OnErr result (tree.new ≡ tree.old) }
{
    if !tree.is_directory() {
        return Err(PutErr::NoParent);
    }
    if tree.find(name).is_some() {
        return Err(PutErr::Taken);
    }
    tree.put(name.copy(alloc)?, new)?;
    Ok(())
}

/// Puts a tree where names lead.
pub(crate) fn put_at(
    alloc: Global,
    tree: &mut Tree,
    names: &[Name],
    new: Tree,
) -> Result<(), PutErr>
    requires { 0 < length names.now }
    ensures ok { OnOk result (tree.new ≡ put_under names.now new tree.old) }
    ensures possible { OnOk result (put_fault names.now tree.old ≡ None) }
    ensures fault { IfErr result (IsPutFaultOf names.now tree.old) }
    ensures faulty { (e : Fault) → put_fault names.now tree.old ≡ Some e → result ≡ Err e }
    ensures err { OnErr result (tree.new ≡ tree.old) }
{
    match names.split_first() {
        None => unreachable!(),
        Some((name, rest)) => {
            if rest.is_empty() {
                return put_child(alloc, tree, name, new);
            }
            match tree.take(name) {
                None => Err(PutErr::NoParent),
                Some(child) => {
                    let mut child = child;
                    let put = put_at(alloc, &mut child, rest, new);
                    tree.give(name, child);
                    put
                }
            }
        }
    }
}
