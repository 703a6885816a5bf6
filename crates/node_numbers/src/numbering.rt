//! Fresh inode numbers, given in place.

ghost use Rattle.std.specs.Prelude.{◌≡◌, ◌≤◌, [], ◌∷◌, Some, None, is_some, unwrap_or, IfOk, OnOk, OnErr};
ghost use Rattle.std.specs.Bool.{OnTrue, OnFalse};
ghost use Rattle.std.specs.FinMap as map;
ghost use Rattle.kernel_model.specs.declared.kernel.Kernel.{Kernel as AKernel};
ghost use Rattle.kernel_model.specs.laws.InPlace.{numbered, Waits};

use crate::nodes::{child_node, number_child, number_of, take_back};
use host_node::{Kind, Tree};
use kernel_model::{Fresh, Kernel, LAST_NUMBER};
use sn_base::Memory;
use std::alloc::Global;

/// Gives each fresh number in turn, and answers whether each fits. A refusal or want of memory leaves the kernel as
/// it was.
pub fn number_all(alloc: Global, kernel: &mut Kernel, fresh: &[Fresh]) -> Result<bool, Memory>
    ensures fits { IfOk result (λ b. b ≡ is_some (numbered fresh.now kernel.old)) }
    ensures ok { OnOk result (kernel.new ≡ unwrap_or (numbered fresh.now kernel.old) kernel.old) }
    ensures err { OnErr result (kernel.new ≡ kernel.old) }
{
    for done in 0..fresh.len() {
        match number_one(alloc, kernel, &fresh[done]) {
            Ok(true) => {}
            Ok(false) => {
                unnumber_all(kernel, &fresh[..done]);
                return Ok(false);
            }
            Err(error) => {
                unnumber_all(kernel, &fresh[..done]);
                return Err(error);
            }
        }
    }
    Ok(true)
}

/// Takes numbers back that were the last to be given.
pub(crate) fn unnumber_all(kernel: &mut Kernel, fresh: &[Fresh])
    requires { (before : AKernel) × (numbered fresh.now before ≡ Some kernel.old) }
    ensures { (before : AKernel) → numbered fresh.now before ≡ Some kernel.old → kernel.new ≡ before }
{
    for index in (0..fresh.len()).rev() {
        unnumber(kernel, &fresh[index]);
    }
}

/// Gives a child its fresh number, and answers whether the number fits: the child is there without one, and the
/// number is free. A number above the greatest is given to no node.
fn number_one(alloc: Global, kernel: &mut Kernel, fresh: &Fresh) -> Result<bool, Memory>
    ensures fits { IfOk result (λ b. b ≡ is_some (numbered (fresh.now ∷ []) kernel.old)) }
    ensures ok { OnOk result (kernel.new ≡ unwrap_or (numbered (fresh.now ∷ []) kernel.old) kernel.old) }
    ensures err { OnErr result (kernel.new ≡ kernel.old) }
{
    if !is_waiting(kernel, fresh) {
        return Ok(false);
    }
    if fresh.ino <= LAST_NUMBER {
        place_child(alloc, kernel, fresh)?;
    }
    Ok(true)
}

fn is_waiting(kernel: &Kernel, fresh: &Fresh) -> bool
    ensures waits { OnTrue result (Waits fresh.now kernel.now) }
    ensures none { OnFalse result (numbered (fresh.now ∷ []) kernel.now ≡ None) }
{
    if kernel.nodes.contains(fresh.ino) {
        return false;
    }
    match kernel.nodes.get(fresh.dir) {
        Some(dir) => {
            number_of(dir, fresh.name.as_bytes()).is_none() && dir.tree.find(&fresh.name).is_some()
        }
        None => false,
    }
}

/// Moves a child out of its directory into a node of its own.
fn place_child(alloc: Global, kernel: &mut Kernel, fresh: &Fresh) -> Result<(), Memory>
    requires small { fresh.now.ino ≤ LAST_NUMBER }
    requires waits { Waits fresh.now kernel.old }
    ensures ok { OnOk result (numbered (fresh.now ∷ []) kernel.old ≡ Some kernel.new) }
    ensures err { OnErr result (kernel.new ≡ kernel.old) }
{
    let stand_in = child_node(alloc, fresh.dir, Tree::lent(Kind::Dir));
    kernel.nodes.insert(fresh.ino, stand_in)?;
    let Some(dir) = kernel.nodes.get_mut(fresh.dir) else {
        unreachable!()
    };
    match number_child(alloc, dir, &fresh.name, fresh.ino) {
        Ok(tree) => {
            let child = child_node(alloc, fresh.dir, tree);
            kernel.nodes.replace(fresh.ino, child);
            Ok(())
        }
        Err(error) => {
            let _ = kernel.nodes.remove(fresh.ino);
            Err(error)
        }
    }
}

/// Takes a number back that was the last to be given.
fn unnumber(kernel: &mut Kernel, fresh: &Fresh)
    requires { (before : AKernel) × (numbered (fresh.now ∷ []) before ≡ Some kernel.old) }
    ensures { (before : AKernel) → numbered (fresh.now ∷ []) before ≡ Some kernel.old → kernel.new ≡ before }
{
    if fresh.ino > LAST_NUMBER {
        return;
    }
    if let Some(child) = kernel.nodes.remove(fresh.ino) {
        if let Some(dir) = kernel.nodes.get_mut(fresh.dir) {
            take_back(dir, &fresh.name, child.tree);
        }
    }
}
