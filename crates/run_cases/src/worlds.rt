//! The host of a run, in memory: the folder `root` with its nodes, and which of their calls is to fail.

ghost use Rattle.std.specs.Prelude.{◌≡◌, true, IfOk, OnOk};
ghost use Rattle.host_node.specs.Tree.{none_lent};

use crate::folder::{Node, Root, Stands};
use crate::placed::PlacedWorld;
use crate::setup::{Failing, Setup, Whose};
use host_memory::World;
use host_node::{LONGEST_LINK, Tree};
use read_cases::Bad;
use sn_base::List;
use sn_text::{Folder, Name, Route, Text, name_of};
use std::alloc::Global;

/// A name of a node.
pub fn name(alloc: Global, text: &str) -> Result<Name, Bad> {
    name_of(alloc, text.as_bytes()).map_err(|_| Bad::Setup)
}

/// Where the node of that name stands in the host; `root` is the folder itself.
pub fn place_of(alloc: Global, text: &str) -> Result<Folder, Bad> {
    let mut route = Route::new(alloc);
    route.push(name(alloc, "root")?)?;
    if text != "root" {
        route.push(name(alloc, text)?)?;
    }
    if route.is_empty() {
        return Err(Bad::Setup);
    }
    Ok(Folder::new(false, route))
}

/// A link that leads there.
fn link_of(alloc: Global, target: &[u8]) -> Result<Tree, Bad>
    ensures { IfOk result (λ tree. none_lent tree ≡ true) }
{
    if target.len() > LONGEST_LINK {
        return Err(Bad::Setup);
    }
    Ok(Tree::link(Text::from_slice(alloc, target)?))
}

/// The node itself.
fn tree_of(alloc: Global, node: &Node) -> Result<Tree, Bad>
    ensures { IfOk result (λ tree. none_lent tree ≡ true) }
{
    match node.stands {
        Stands::File => {
            let bytes = List::from_slice(alloc, node.bytes.as_slice())?;
            Ok(Tree::file(node.mode.min(0o777), bytes))
        }
        Stands::Folder => Ok(Tree::directory(alloc, 0o755)),
        Stands::Link => link_of(alloc, node.bytes.as_slice()),
    }
}

/// Puts a node under its name.
#[tactic(auto, using(host_memory::proofs::Worlds::none_lent_put))]
fn put(alloc: Global, world: &mut World, text: &str, tree: Tree) -> Result<(), Bad>
    requires world { none_lent world.old.tree ≡ true }
    requires tree { none_lent tree ≡ true }
    ensures { OnOk result (none_lent world.new.tree ≡ true) }
{
    let place = place_of(alloc, text)?;
    match world.put(alloc, &place, tree) {
        Ok(()) => Ok(()),
        Err(_) => Err(Bad::Setup),
    }
}

/// Puts nodes, each under its name.
fn put_nodes(alloc: Global, world: &mut World, nodes: &[Node]) -> Result<(), Bad>
    requires { none_lent world.old.tree ≡ true }
    ensures { OnOk result (none_lent world.new.tree ≡ true) }
{
    for node in nodes {
        let tree = tree_of(alloc, node)?;
        put(alloc, world, node.name.as_str(), tree)?;
    }
    Ok(())
}

/// A host with that folder, where it is there.
pub fn host_of(alloc: Global, root: &Root) -> Result<World, Bad>
    ensures { IfOk result (λ world. none_lent world.tree ≡ true) }
{
    let mut world = World::new(alloc);
    if let Some(mode) = root.mode {
        put(
            alloc,
            &mut world,
            "root",
            Tree::directory(alloc, mode.min(0o777)),
        )?;
        put_nodes(alloc, &mut world, root.nodes.as_slice())?;
    }
    Ok(world)
}

/// Has that call fail, where it is one of the host.
fn plan(alloc: Global, world: &mut World, failing: &Failing) -> Result<(), Bad>
    requires { none_lent world.old.tree ≡ true }
    ensures { OnOk result (none_lent world.new.tree ≡ true) }
{
    match failing.whose {
        Whose::Grants => Ok(world.plan_grant(failing.call)?),
        Whose::Node => {
            let place = place_of(alloc, failing.name.as_str())?;
            world
                .plan(&place, failing.op, failing.call)
                .map_err(|_| Bad::Setup)
        }
        _ => Ok(()),
    }
}

/// The host of a run, with the call of it that is to fail.
pub fn world_of(alloc: Global, setup: &Setup) -> Result<PlacedWorld<World>, Bad>
    ensures { IfOk result (λ world. none_lent world.inner.tree ≡ true) }
{
    let mut inner = host_of(alloc, &setup.root)?;
    plan(alloc, &mut inner, &setup.failing)?;
    Ok(PlacedWorld { alloc, inner })
}

/// The folders that a run is granted.
pub fn trees_of(alloc: Global, root: &Root) -> Result<List<Tree>, Bad> {
    let host = host_of(alloc, root)?;
    let place = place_of(alloc, "root")?;
    let mut trees = List::new(alloc);
    if let Some(tree) = host.look(&place) {
        trees.push(tree.copy(alloc)?)?;
    }
    Ok(trees)
}

/// Whether two hosts have the same at a place, by its attributes and its bytes.
fn are_same_at(world: &World, other: &World, place: &Folder) -> bool {
    match (world.look(place), other.look(place)) {
        (Some(node), Some(wanted)) => {
            node.attr() == wanted.attr() && node.bytes() == wanted.bytes()
        }
        (None, None) => true,
        _ => false,
    }
}

/// Whether they have the same under the names of nodes.
fn are_same(alloc: Global, world: &World, other: &World, nodes: &[Node]) -> Result<bool, Bad> {
    for node in nodes {
        let place = place_of(alloc, node.name.as_str())?;
        if !are_same_at(world, other, &place) {
            return Ok(false);
        }
    }
    Ok(true)
}

/// Whether the folder of a host has what it had, but for counts of calls that failed.
pub fn is_as_it_was(alloc: Global, world: &World, root: &Root) -> Result<bool, Bad> {
    let other = host_of(alloc, root)?;
    let place = place_of(alloc, "root")?;
    Ok(are_same_at(world, &other, &place) && are_same(alloc, world, &other, root.nodes.as_slice())?)
}

/// How many calls failed of the folder and of its nodes, together.
pub fn faults_of(alloc: Global, world: &World, root: &Root) -> Result<u64, Bad> {
    let mut sum = faults_at(world, &place_of(alloc, "root")?);
    for node in root.nodes.as_slice() {
        let place = place_of(alloc, node.name.as_str())?;
        sum = sum.saturating_add(faults_at(world, &place));
    }
    Ok(sum)
}

/// How many calls failed of the node at a place, if there is one.
fn faults_at(world: &World, place: &Folder) -> u64 {
    match world.look(place) {
        Some(node) => node.faults(),
        None => 0,
    }
}
