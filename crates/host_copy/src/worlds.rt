//! A host in memory that has trees where folders' names lead.

ghost use Rattle.std.specs.Prelude.{◌≡◌, ◌<◌, length, true, Some, IfOk, OnOk};
ghost use Rattle.host_node.specs.Routes.{subtree};
ghost use Rattle.host_node.specs.Tree.{none_lent};

use host_memory::{PutErr, World};
use host_node::Tree;
use sn_base::Memory;
use sn_text::{Folder, Name, Route};
use std::alloc::Global;

/// The folder of these names.
fn folder_of(alloc: Global, names: &[Name]) -> Result<Folder, Memory>
    requires { 0 < length names.now }
    ensures { IfOk result (λ folder. folder.names ≡ names.now) }
{
    let mut route = Route::new(alloc);
    for name in names {
        route.push(name.copy(alloc)?)?;
    }
    Ok(Folder::new(false, route))
}

/// Puts a tree where a folder's names lead, where its directory is there.
#[tactic(auto, using(host_memory::proofs::Worlds::none_lent_put, host_memory::proofs::Worlds::stands_put))]
fn put_there(alloc: Global, world: &mut World, folder: &Folder, tree: Tree) -> Result<(), PutErr>
    requires world { none_lent world.old.tree ≡ true }
    requires tree { none_lent tree ≡ true }
    ensures there { OnOk result (subtree folder.now.names world.new.tree ≡ Some tree) }
    ensures lent { none_lent world.new.tree ≡ true }
{
    // What is read here shows that the folder has a name.
    let _names = folder.route();
    world.put(alloc, folder, tree)
}

/// Puts empty directories on the way to where names lead, where there is nothing so far. They may be searched by
/// everybody.
fn put_way(alloc: Global, world: &mut World, names: &[Name]) -> Result<(), PutErr>
    requires { none_lent world.old.tree ≡ true }
    ensures { none_lent world.new.tree ≡ true }
{
    for count in 1..names.len() {
        let folder = folder_of(alloc, &names[..count])?;
        if world.look(&folder).is_none() {
            put_there(alloc, world, &folder, Tree::directory(alloc, 0o755))?;
        }
    }
    Ok(())
}

/// Puts a tree where a folder's names lead, with the directories on the way. A refusal may leave some of these.
pub fn put_folder(
    alloc: Global,
    world: &mut World,
    folder: &Folder,
    tree: Tree,
) -> Result<(), PutErr>
    requires world { none_lent world.old.tree ≡ true }
    requires tree { none_lent tree ≡ true }
    ensures there { OnOk result (subtree folder.now.names world.new.tree ≡ Some tree) }
    ensures lent { none_lent world.new.tree ≡ true }
{
    put_way(alloc, world, folder.route().names())?;
    put_there(alloc, world, folder, tree)
}
