//! What stands below a granted folder, read node by node.

ghost use Rattle.std.specs.Prelude.{◌≡◌, true, None, IfOk, IfSome};
ghost use Rattle.host_node.specs.Tree.{is_directory, none_lent};

use host_node::{HostErr, HostNode, HostWorld, Kind, Listing, Tree};
use sn_base::{List, Memory};
use sn_text::{Folder, Name, Route, Text};
use std::alloc::Global;

/// How deep directories may be nested. Deeper, a path of a name in each has more than 4,096 bytes (limits.h(0p),
/// PATH_MAX).
const DEEPEST: u32 = 2_048;

/// A file, with all of the bytes that its attributes told. It is opened for reading alone.
fn copied_file<N: HostNode>(alloc: Global, node: &mut N, route: &Route) -> Result<Tree, HostErr>
    requires silent { N.told node.old ≡ None }
    ensures lent { IfOk result (λ tree. none_lent tree ≡ true) }
    ensures silent { N.told node.new ≡ None }
{
    let attr = node.stat(route)?;
    let mut bytes = vec![in alloc; 0u8; attr.size as usize]?;
    node.open(route, false)?;
    let count = node.read_at(0, bytes.as_mut_slice())?;
    bytes.truncate(count);
    Ok(Tree::file(attr.mode, List::from_vec(bytes)))
}

/// A directory with no entries so far.
fn bare_directory<N: HostNode>(alloc: Global, node: &mut N, route: &Route) -> Result<Tree, HostErr>
    requires silent { N.told node.old ≡ None }
    ensures directory { IfOk result (λ tree. is_directory tree ≡ true) }
    ensures lent { IfOk result (λ tree. none_lent tree ≡ true) }
    ensures silent { N.told node.new ≡ None }
{
    let attr = node.stat(route)?;
    Ok(Tree::directory(alloc, attr.mode))
}

/// The entries of a directory.
fn entries_of<N: HostNode>(alloc: Global, node: &mut N, route: &Route) -> Result<Listing, HostErr>
    requires silent { N.told node.old ≡ None }
    ensures silent { N.told node.new ≡ None }
{
    let mut listing = Listing::new(alloc);
    node.list(route, &mut listing)?;
    Ok(listing)
}

/// The route of what stands under a name.
fn route_below(alloc: Global, route: &Route, name: &Name) -> Result<Route, Memory> {
    let mut below = route.copy(alloc)?;
    below.push(name.copy(alloc)?)?;
    Ok(below)
}

/// Puts a tree under a name of a directory. A second one of that name is a failure.
#[tactic(auto, using(crate::proofs::Copies::lent_more))]
fn put(alloc: Global, folder: &mut Tree, name: &Name, tree: Tree) -> Result<(), HostErr>
    requires directory { is_directory folder.old ≡ true }
    requires folder_lent { none_lent folder.old ≡ true }
    requires lent { none_lent tree ≡ true }
    ensures directory { is_directory folder.new ≡ true }
    ensures lent { none_lent folder.new ≡ true }
{
    if folder.find(name).is_some() {
        return Err(HostErr::Failed);
    }
    folder.put(name.copy(alloc)?, tree)?;
    Ok(())
}

/// Any node. So deep may directories be nested in it.
#[cycle(below)]
fn copied_node<N: HostNode>(
    alloc: Global,
    node: &mut N,
    route: &Route,
    deep: u32,
) -> Result<Tree, HostErr>
    requires silent { N.told node.old ≡ None }
    ensures lent { IfOk result (λ tree. none_lent tree ≡ true) }
    ensures silent { N.told node.new ≡ None }
{
    match node.kind() {
        Kind::Dir => copied_directory(alloc, node, route, deep),
        Kind::File => copied_file(alloc, node, route),
        Kind::Link => Ok(Tree::link(Text::new(alloc))),
    }
}

/// A directory, with all that is below it.
#[cycle(below)]
fn copied_directory<N: HostNode>(
    alloc: Global,
    node: &mut N,
    route: &Route,
    deep: u32,
) -> Result<Tree, HostErr>
    requires silent { N.told node.old ≡ None }
    ensures directory { IfOk result (λ tree. is_directory tree ≡ true) }
    ensures lent { IfOk result (λ tree. none_lent tree ≡ true) }
    ensures silent { N.told node.new ≡ None }
{
    if deep == 0 {
        return Err(HostErr::Failed);
    }
    let mut tree = bare_directory(alloc, node, route)?;
    let listing = entries_of(alloc, node, route)?;
    for entry in listing.entries() {
        if let Some(child) = copied_child(alloc, node, route, &entry.name, deep - 1)? {
            put(alloc, &mut tree, &entry.name, child)?;
        }
    }
    Ok(tree)
}

/// What stands under a name of a directory, or `None` where nothing does any more.
#[cycle(below)]
fn copied_child<N: HostNode>(
    alloc: Global,
    node: &mut N,
    route: &Route,
    name: &Name,
    deep: u32,
) -> Result<Option<Tree>, HostErr>
    requires silent { N.told node.old ≡ None }
    ensures lent { IfOk result (λ child. IfSome child (λ tree. none_lent tree ≡ true)) }
    ensures silent { N.told node.new ≡ None }
{
    let below = route_below(alloc, route, name)?;
    let Some(mut child) = node.lend(route, name)? else {
        return Ok(None);
    };
    let copy = copied_node(alloc, &mut child, &below, deep);
    node.take_back(name, child);
    Ok(Some(copy?))
}

/// What a host that tells nothing has in a folder, or `None` where it has no such directory. All of it is read, and
/// given back.
pub fn copied_folder<W: HostWorld>(
    alloc: Global,
    host: &mut W,
    folder: &Folder,
) -> Result<Option<Tree>, HostErr>
    requires silent { W.told host.old ≡ None }
    ensures directory { IfOk result (λ copy. IfSome copy (λ tree. is_directory tree ≡ true)) }
    ensures lent { IfOk result (λ copy. IfSome copy (λ tree. none_lent tree ≡ true)) }
    ensures silent { W.told host.new ≡ None }
{
    let Some(mut root) = host.grant(folder)? else {
        return Ok(None);
    };
    let copy = copied_directory(alloc, &mut root, &Route::new(alloc), DEEPEST);
    host.settle(folder, root);
    Ok(Some(copy?))
}
