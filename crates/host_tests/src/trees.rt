//! Trees in memory and listings: what no case of a host reaches.

ghost use Rattle.std.specs.Prelude.{◌≡◌, IsTrue};
ghost use Rattle.host_node.specs.Tree.{directory as dir, is_directory, no_children};

use host_node::{Kind, Listed, Listing, Tree};
use sn_text::{Name, Text, name_of};
use std::alloc::Global;
use std::test::Fail;

#[test]
fn a_place_that_is_lent_tells_its_kind_alone(rt: HostRuntime) -> Result<(), Fail> {
    let link = Tree::lent(Kind::Link);
    let folder = Tree::lent(Kind::Dir);
    let told = (link.kind(), folder.is_directory(), folder.faults());
    assert_eq!(rt; told, (Kind::Link, false, 0));
    Ok(())
}

/// Puts a link under a name of a directory, where nothing is.
fn put_link(alloc: Global, folder: &mut Tree, name: Name) -> Result<(), Fail>
    requires { IsTrue (is_directory folder.old) }
{
    if folder.find(&name).is_some() {
        return Err(Fail::from("something is there"));
    }
    folder.put(name, Tree::link(Text::new(alloc)))?;
    Ok(())
}

/// Puts a directory under a name of an empty directory, and then a link under another name, where nothing is.
fn put_both(alloc: Global, folder: &mut Tree, b: Name, a: Name) -> Result<(), Fail>
    requires { folder.old ≡ dir 493 0 no_children }
{
    folder.put(b, Tree::directory(alloc, 0o755))?;
    put_link(alloc, folder, a)
}

/// A directory in which `b` was put before `a`.
fn two_entries(alloc: Global) -> Result<Tree, Fail> {
    let b = name_of(alloc, b"b")?;
    let a = name_of(alloc, b"a")?;
    let mut folder = Tree::directory(alloc, 0o755);
    put_both(alloc, &mut folder, b, a)?;
    Ok(folder)
}

fn list_copy(alloc: Global, folder: &Tree, out: &mut Listing) -> Result<(), Fail> {
    let copy = folder.copy(alloc)?;
    copy.listing(out)?;
    Ok(())
}

/// What a copy of a directory lists in which `b` was put before `a`.
fn listed_of_two(alloc: Global, out: &mut Listing) -> Result<(), Fail> {
    let folder = two_entries(alloc)?;
    list_copy(alloc, &folder, out)
}

/// Whether a listing has two entries, of which the link `a` is the first.
fn has_a_first(listing: &Listing) -> bool {
    match listing.get(0) {
        Some(first) => first.name.is(b"a") && first.kind == Kind::Link && listing.len() == 2,
        None => false,
    }
}

#[test]
fn a_copy_lists_what_was_put(rt: HostRuntime) -> Result<(), Fail> {
    let mut out = Listing::new(rt.alloc());
    listed_of_two(rt.alloc(), &mut out)?;
    let is_so = has_a_first(&out);
    out.clear();
    assert_eq!(rt; (is_so, out.is_empty()), (true, true));
    Ok(())
}

fn push_directory(listing: &mut Listing) -> Result<(), Fail> {
    let name = name_of(listing.allocator(), b"x")?;
    listing.push(Listed {
        name,
        kind: Kind::Dir,
    })?;
    Ok(())
}

#[test]
fn a_listing_keeps_what_is_pushed(rt: HostRuntime) -> Result<(), Fail> {
    let mut listing = Listing::new(rt.alloc());
    push_directory(&mut listing)?;
    assert_eq!(rt; (listing.len(), listing.entries().len()), (1, 1));
    Ok(())
}
