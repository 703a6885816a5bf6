//! A host in memory with a folder of programs: what stands in it, what is to fail, and whether it is as it was.

ghost use Rattle.std.specs.Prelude.{◌≡◌, true, Some, IfOk, OnOk};
ghost use Rattle.host_node.specs.declared.kind.Kind.TheVariants.{Dir as Directory};
ghost use Rattle.host_node.specs.Routes.{subtree};
ghost use Rattle.host_node.specs.Tree.{lent as away, is_directory, none_lent};

use host_memory::{MemoryNode, Op, World};
use host_node::{HostWorld, Tree};
use sn_base::List;
use sn_text::{Folder, Route, Text, name_of};
use sn_vectors::images::GUEST;
use std::alloc::Global;
use std::process::Abort;
use std::test::Fail;

/// The names of the granted folder.
const ROOT: &[&str] = &["root"];

/// What stands under a name.
#[derive(Clone, Copy)]
enum Node {
    Folder,
    /// The file of the guest that writes nothing.
    Guest,
    Link,
}

/// The folder and what it has: each node's names from the host on.
#[rattlefmt::skip]
const NODES: &[(&[&str], Node)] = &[
    (&["root"], Node::Folder),
    (&["root", "first"], Node::Guest),
    (&["root", "link"], Node::Link),
];

/// What is to fail: no call, or the first call of a method of the node where names lead.
#[derive(Clone, Copy)]
pub enum Failing {
    Nothing,
    Call(&'static [&'static str], Op),
}

/// Goes on to these names.
fn extend(alloc: Global, route: &mut Route, names: &[&str]) -> Result<(), Fail> {
    for name in names {
        let name = name_of(alloc, name.as_bytes())?;
        route.push(name)?;
    }
    Ok(())
}

/// The folder of these names.
fn folder_of(alloc: Global, names: &[&str]) -> Result<Folder, Fail> {
    let mut route = Route::new(alloc);
    extend(alloc, &mut route, names)?;
    if route.is_empty() {
        return Err(Fail::from("a folder has a name"));
    }
    Ok(Folder::new(false, route))
}

/// The granted folder.
pub fn root_folder(alloc: Global) -> Result<Folder, Fail> {
    folder_of(alloc, ROOT)
}

/// The node itself.
fn tree_of(alloc: Global, node: Node) -> Result<Tree, Fail>
    ensures { IfOk result (λ tree. none_lent tree ≡ true) }
{
    match node {
        Node::Folder => Ok(Tree::directory(alloc, 0o755)),
        Node::Guest => Ok(Tree::file(0o755, List::from_slice(alloc, &GUEST)?)),
        Node::Link => Ok(Tree::link(Text::from_slice(alloc, b"first")?)),
    }
}

/// Puts a node where names lead.
#[tactic(auto, using(host_memory::proofs::Worlds::none_lent_put))]
fn put(alloc: Global, world: &mut World, names: &[&str], node: Node) -> Result<(), Fail>
    requires { none_lent world.old.tree ≡ true }
    ensures { OnOk result (none_lent world.new.tree ≡ true) }
{
    let folder = folder_of(alloc, names)?;
    let tree = tree_of(alloc, node)?;
    world.put(alloc, &folder, tree)?;
    Ok(())
}

/// Has that fail.
fn plan(alloc: Global, world: &mut World, failing: Failing) -> Result<(), Fail>
    requires { none_lent world.old.tree ≡ true }
    ensures { OnOk result (none_lent world.new.tree ≡ true) }
{
    match failing {
        Failing::Nothing => Ok(()),
        Failing::Call(names, op) => {
            let folder = folder_of(alloc, names)?;
            world.plan(&folder, op, 1)?;
            Ok(())
        }
    }
}

/// Puts the folder and all its nodes into a host, and has that fail.
fn prepare(alloc: Global, world: &mut World, failing: Failing) -> Result<(), Fail>
    requires { none_lent world.old.tree ≡ true }
    ensures { OnOk result (none_lent world.new.tree ≡ true) }
{
    for &(names, node) in NODES {
        put(alloc, world, names, node)?;
    }
    plan(alloc, world, failing)
}

/// A host with the folder and all its nodes, and that to fail.
pub fn world_of(alloc: Global, failing: Failing) -> Result<World, Fail>
    ensures { IfOk result (λ world. none_lent world.tree ≡ true) }
{
    let mut world = World::new(alloc);
    prepare(alloc, &mut world, failing)?;
    Ok(world)
}

/// The folder, granted.
pub fn granted(world: &mut World, folder: &Folder) -> Result<MemoryNode, Fail>
    requires { none_lent world.old.tree ≡ true }
    ensures directory { IfOk result (λ node. is_directory node.tree ≡ true) }
    ensures whole { IfOk result (λ node. none_lent node.tree ≡ true) }
    ensures place { IfOk result (λ _. subtree folder.now.names world.new.tree ≡ Some (away Directory)) }
{
    match world.grant(folder) {
        Ok(Some(node)) => Ok(node),
        Ok(None) => Err(Fail::from("nothing granted")),
        Err(e) => Err(Fail::from(e)),
    }
}

/// Whether a node is one that was put there: its attributes and its bytes.
fn is_same(node: &Tree, put: &Tree) -> bool {
    node.attr() == put.attr() && node.bytes() == put.bytes()
}

/// How many calls failed of the node that was put where a folder's names lead, or `None` where it isn't there.
fn faults_at(world: &World, folder: &Folder, put: &Tree) -> Option<u64> {
    match world.look(folder) {
        Some(node) if is_same(node, put) => Some(node.faults()),
        _ => None,
    }
}

/// The same where names lead.
fn node_faults(
    alloc: Global,
    world: &World,
    names: &[&str],
    node: Node,
) -> Result<Option<u64>, Fail> {
    let folder = folder_of(alloc, names)?;
    let put = tree_of(alloc, node)?;
    Ok(faults_at(world, &folder, &put))
}

/// How many calls failed of the folder and of all nodes that were put into it, or `None` where one isn't there.
fn faults_of(alloc: Global, world: &World) -> Result<Option<u64>, Fail> {
    let mut sum = 0;
    for &(names, node) in NODES {
        let Some(faults) = node_faults(alloc, world, names, node)? else {
            return Ok(None);
        };
        sum = sn_base::capped_add(sum, faults);
    }
    Ok(Some(sum))
}

/// That the folder is as it was, but that so many calls failed of it and its nodes.
pub fn expect_faults(
    rt: &impl Abort,
    alloc: Global,
    world: &World,
    faults: u64,
    says: &str,
) -> Result<(), Fail> {
    assert_eq!(rt; faults_of(alloc, world)?, Some(faults), "{says}");
    Ok(())
}
