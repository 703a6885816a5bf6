//! An opening execve over a granted folder, whose nodes then are back in their places.

ghost use Rattle.std.specs.Prelude.{◌≡◌, true, OnOk};
ghost use Rattle.host_node.specs.Tree.{none_lent};
ghost use Rattle.image_walk.specs.Granted.{CanGiveBack, told_of};
ghost use Rattle.image_walk.specs.Standing.{IsNumbering};
ghost use Rattle.image_walk.specs.Walking.{IsGrant, IsRoot};

use crate::folders::{granted, root_folder};
use host_memory::World;
use host_node::{HostNode, HostWorld};
use image_walk::{Granted, MOST_ROOTS, Numbering, OpeningExecve, execve};
use mount_file::Program;
use sn_base::Memory;
use std::alloc::Global;
use std::test::Fail;

/// The execve itself. It is known of the folder then that it can be put together again.
fn executed<N: HostNode>(
    alloc: Global,
    granted: &mut Granted<N>,
    program: &Program,
) -> Result<OpeningExecve, Memory>
    requires numbers { IsNumbering granted.old.numbers }
    requires grant { IsGrant granted.old.numbers (N.told granted.old.root) (told_of N.told granted.old.lent.items) }
    ensures { OnOk result (CanGiveBack (N.told granted.new.root) (told_of N.told granted.new.lent.items)) }
{
    let executed = execve(alloc, granted, program)?;
    Ok(executed)
}

/// An opening execve over a root whose nodes have these numbers, with all nodes back then.
fn execute<N: HostNode>(
    alloc: Global,
    root: N,
    numbers: Numbering,
    program: &Program,
) -> Result<(N, OpeningExecve), Memory>
    requires numbers { IsNumbering numbers }
    requires root { IsRoot (N.told root) }
{
    let mut granted = Granted::new(alloc, root, numbers);
    let executed = executed(alloc, &mut granted, program)?;
    Ok((granted.give_back(), executed))
}

/// An opening execve over the folder of a host, with these numbers; the host has it back then.
pub fn execute_in(
    alloc: Global,
    world: &mut World,
    numbers: Numbering,
    program: &Program,
) -> Result<OpeningExecve, Fail>
    requires { none_lent world.old.tree ≡ true }
{
    if numbers.root == 0 || numbers.first <= numbers.root || numbers.first > MOST_ROOTS + 1 {
        return Err(Fail::from("no numbers of a folder"));
    }
    let folder = root_folder(alloc)?;
    let root = granted(world, &folder)?;
    let (root, executed) = execute(alloc, root, numbers, program)?;
    world.settle(&folder, root);
    Ok(executed)
}
