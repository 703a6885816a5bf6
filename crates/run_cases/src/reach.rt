//! What a node that knows where it is answers to calls by routes, without a run.

ghost use Rattle.std.specs.Prelude.{◌≡◌, false, IfOk};
ghost use Rattle.host_node.specs.Tree.{is_lent};

use crate::placed::PlacedNode;
use crate::prints::separate;
use crate::worlds::name;
use host_memory::{MemoryNode, Plan};
use host_node::{HostErr, HostNode, Listing, Tree};
use read_cases::{Bad, parted};
use sn_base::List;
use sn_text::Route;
use std::alloc::Global;

/// The route of one name, or of none where that is `/`.
fn route_of(alloc: Global, text: &str) -> Result<Route, Bad> {
    let mut route = Route::new(alloc);
    if text != "/" {
        route.push(name(alloc, text)?)?;
    }
    Ok(route)
}

/// A node of that tree at a place.
fn node_at(alloc: Global, tree: Tree, place: &Route) -> Result<PlacedNode<MemoryNode>, Bad>
    requires { is_lent tree ≡ false }
    ensures { IfOk result (λ node. node.inner.tree ≡ tree) }
{
    let place = place.copy(alloc)?;
    Ok(PlacedNode {
        alloc,
        inner: MemoryNode::new(alloc, tree, Route::new(alloc), Plan::new()),
        place,
    })
}

fn add_answer(text: &mut String, answer: Result<(), HostErr>) -> Result<(), Bad> {
    separate(text)?;
    match answer {
        Ok(()) => text.push_str("ok")?,
        Err(HostErr::Memory) => text.push_str("memory")?,
        Err(HostErr::Failed) => text.push_str("failed")?,
    }
    Ok(())
}

fn add_stat(alloc: Global, text: &mut String, place: &Route, route: &Route) -> Result<(), Bad> {
    let mut node = node_at(alloc, Tree::directory(alloc, 0o755), place)?;
    add_answer(text, node.stat(route).map(|_| ()))
}

fn add_list(alloc: Global, text: &mut String, place: &Route, route: &Route) -> Result<(), Bad> {
    let mut node = node_at(alloc, Tree::directory(alloc, 0o755), place)?;
    let mut listing = Listing::new(alloc);
    add_answer(text, node.list(route, &mut listing))
}

fn add_lend(alloc: Global, text: &mut String, place: &Route, route: &Route) -> Result<(), Bad> {
    let mut node = node_at(alloc, Tree::directory(alloc, 0o755), place)?;
    let child = name(alloc, "n")?;
    add_answer(text, node.lend(route, &child).map(|_| ()))
}

fn add_open(
    alloc: Global,
    text: &mut String,
    place: &Route,
    route: &Route,
    write: bool,
) -> Result<(), Bad> {
    let mut node = node_at(alloc, Tree::file(0o755, List::new(alloc)), place)?;
    add_answer(text, node.open(route, write))
}

/// What a node at a place answers by a route, `PLACE ROUTE`: an empty directory to `stat`, `list` and `lend`, and a
/// file to an open for reading and to one for writing.
pub fn print_reach(alloc: Global, text: &mut String, line: &str) -> Result<(), Bad> {
    let (place, route) = parted(line);
    let place = route_of(alloc, place)?;
    let route = route_of(alloc, route)?;
    add_stat(alloc, text, &place, &route)?;
    add_list(alloc, text, &place, &route)?;
    add_lend(alloc, text, &place, &route)?;
    add_open(alloc, text, &place, &route, false)?;
    add_open(alloc, text, &place, &route, true)
}
