//! The listing of a directory in memory.

ghost use Rattle.std.specs.Prelude.{◌≡◌, ◌≢◌, ◌<◌, length, IfOk, OnOk, OnErr};
ghost use Rattle.host_node.specs.Tree.{no_children, children_of, listed_from, listing_of};
ghost use Rattle.host_node.specs.Order.{IsAscending, names_of};
ghost use Rattle.host_node.specs.Levels.{children_from, entry_names};

use super::{Node, Tree, TreeEntry};
use crate::listing::{Listed, Listing};
use sn_base::Memory;
use std::alloc::Global;

impl Tree {
    /// The names and kinds of a directory's entries, by the order of the names' bytes; of another node,
    /// none. They take the place of what the listing had, which stays on an `Err`. No entries take no memory.
    #[tactic(auto, using(crate::proofs::Listings::has_entries))]
    pub fn listing(&self, out: &mut Listing) -> Result<(), Memory>
        ensures ok { OnOk result (out.new ≡ listing_of self.now) }
        ensures ordered { OnOk result (IsAscending (names_of out.new)) }
        ensures err { OnErr result (out.new ≡ out.old) }
        ensures some { OnErr result (children_of self.now ≢ no_children) }
    {
        match &self.node {
            Node::Directory { entries, .. } => {
                *out = list_entries(out.allocator(), entries)?;
            }
            _ => out.clear(),
        }
        Ok(())
    }
}

/// The names and kinds of entries, in order.
fn list_entries(alloc: Global, entries: &[TreeEntry]) -> Result<Listing, Memory>
    ensures value { IfOk result (λ listing. listing ≡ listed_from (children_from entries.now)) }
    ensures some { OnErr result (0 < length entries.now) }
    ensures names { IfOk result (λ listing. names_of listing ≡ entry_names entries.now) }
{
    let mut listing = Listing::new(alloc);
    for entry in entries {
        let name = entry.name.copy(alloc)?;
        let kind = entry.tree.kind();
        listing.push(Listed { name, kind })?;
    }
    Ok(listing)
}
