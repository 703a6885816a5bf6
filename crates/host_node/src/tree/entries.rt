//! The entries of a directory in memory, by the order of their names' bytes.

ghost use Rattle.std.specs.Prelude.{◌≡◌, ◌≤◌, None, length, position, OnOk, OnErr, option_copied};
ghost use Rattle.std.specs.List.{position_or_len};
ghost use Rattle.host_node.specs.Tree.{find_child, replace_child, insert_child, lend_in};
ghost use Rattle.host_node.specs.Order.{IsAscending};
ghost use Rattle.host_node.specs.Levels.{has_name, comes_before, children_from, entry_names};

use super::{Tree, TreeEntry};
use sn_base::Memory;
use sn_text::Name;
use std::mem;

/// The index of the entry whose name has these bytes.
fn index_of(entries: &[TreeEntry], name: &[u8]) -> Option<usize>
    ensures { result ≡ position (has_name name.now) entries.now }
{
    entries
        .iter()
        .position(|entry| name == entry.name.as_bytes())
}

/// The index of the first entry whose name is greater than a name.
fn index_after(entries: &[TreeEntry], name: &Name) -> Option<usize>
    ensures { result ≡ position (comes_before name.now) entries.now }
{
    entries
        .iter()
        .position(|entry| name.as_bytes().cmp(entry.name.as_bytes()).is_lt())
}

/// The index at which a name goes in: that of the first entry whose name is greater, or the end.
#[tactic(auto, using(crate::proofs::Places::position_or_end, crate::proofs::Places::place_within))]
fn place_of(entries: &[TreeEntry], name: &Name) -> usize
    ensures place { result ≡ position_or_len (comes_before name.now) entries.now }
    ensures within { result ≤ length entries.now }
{
    index_after(entries, name).unwrap_or(entries.len())
}

/// What stands under the name with these bytes.
pub(super) fn find_in<'a>(entries: &'a [TreeEntry], name: &[u8]) -> Option<&'a Tree>
    ensures { option_copied result ≡ find_child name.now (children_from entries.now) }
{
    let index = index_of(entries, name)?;
    Some(&entries[index].tree)
}

/// Puts a tree under a name that is free. An `Err` leaves the entries as they were.
pub(super) fn insert_in(entries: &mut Vec<TreeEntry>, name: Name, tree: Tree) -> Result<(), Memory>
    requires ascending { IsAscending (entry_names entries.old.items) }
    requires free { find_child name (children_from entries.old.items) ≡ None }
    ensures ok { OnOk result
        (children_from entries.new.items ≡ insert_child name tree (children_from entries.old.items)) }
    ensures ascending { IsAscending (entry_names entries.new.items) }
    ensures err { OnErr result (entries.new.items ≡ entries.old.items) }
{
    let index = place_of(entries, &name);
    entries.insert(index, TreeEntry { name, tree })?;
    Ok(())
}

/// Takes out what stands under the name with these bytes, and leaves the place of a lent node there.
pub(super) fn take_in(entries: &mut [TreeEntry], name: &[u8]) -> Option<Tree>
    ensures tree { result ≡ find_child name.now (children_from entries.old) }
    ensures after { children_from entries.new ≡ lend_in name.now (children_from entries.old) }
    ensures names { entry_names entries.new ≡ entry_names entries.old }
{
    let index = index_of(entries, name)?;
    let entry = &mut entries[index];
    let away = Tree::lent(entry.tree.kind());
    Some(mem::replace(&mut entry.tree, away))
}

/// Puts a tree in the place of what stands under the name with these bytes.
pub(super) fn give_in(entries: &mut [TreeEntry], name: &[u8], tree: Tree)
    ensures after { children_from entries.new ≡ replace_child name.now tree (children_from entries.old) }
    ensures names { entry_names entries.new ≡ entry_names entries.old }
{
    if let Some(index) = index_of(entries, name) {
        entries[index].tree = tree;
    }
}
