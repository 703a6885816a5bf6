//! What may be drawn and met: fresh numbers that are unused, and rises of counts of nodes that have numbers.

ghost use Rattle.std.specs.Prelude.{◌≡◌};
ghost use Rattle.std.specs.List.{list_all, list_any};
ghost use Rattle.kernel_model.specs.entries.Given.{is_unused, gives_number, is_numbered, may_meet};
ghost use Rattle.kernel_model.specs.entries.Steps.{may_enter};

use kernel_model::{Entry, Fresh, Given, LAST_NUMBER, Node, Rise};
use sn_base::Map;

/// Whether an entry may be made where these nodes have numbers. Only a call draws or meets anything.
pub fn may_enter(nodes: &Map<Node>, entry: &Entry) -> bool
    ensures { result ≡ may_enter nodes.now entry.now }
{
    match entry {
        Entry::Call { given, .. } => may_meet(nodes, given),
        Entry::Run { .. } => true,
        Entry::Sleep { .. } => true,
        Entry::End { .. } => true,
    }
}

/// Whether fresh numbers are unused, and counts rise of nodes that have numbers, or get one of the fresh ones.
pub fn may_meet(nodes: &Map<Node>, given: &Given) -> bool
    ensures { result ≡ may_meet nodes.now given.now }
{
    let fresh = given.fresh.as_slice();
    are_unused(nodes, fresh) && are_numbered(nodes, fresh, given.rises.as_slice())
}

fn are_unused(nodes: &Map<Node>, fresh: &[Fresh]) -> bool
    ensures { result ≡ list_all (is_unused nodes.now) fresh.now }
{
    fresh.iter().all(|one| is_unused(nodes, one))
}

fn is_unused(nodes: &Map<Node>, one: &Fresh) -> bool
    ensures { result ≡ is_unused nodes.now one.now }
{
    !nodes.contains(one.ino)
}

fn are_numbered(nodes: &Map<Node>, fresh: &[Fresh], rises: &[Rise]) -> bool
    ensures { result ≡ list_all (is_numbered nodes.now fresh.now) rises.now }
{
    rises.iter().all(|rise| is_numbered(nodes, fresh, rise))
}

fn is_numbered(nodes: &Map<Node>, fresh: &[Fresh], rise: &Rise) -> bool
    ensures { result ≡ is_numbered nodes.now fresh.now rise.now }
{
    nodes.contains(rise.ino) || any_gives(rise.ino, fresh)
}

/// Whether one of the fresh numbers is that one, and is given to a node.
fn any_gives(ino: u64, fresh: &[Fresh]) -> bool
    ensures { result ≡ list_any (gives_number ino) fresh.now }
{
    fresh.iter().any(|one| gives_number(ino, one))
}

fn gives_number(ino: u64, one: &Fresh) -> bool
    ensures { result ≡ gives_number ino one.now }
{
    one.ino <= LAST_NUMBER && one.ino == ino
}
