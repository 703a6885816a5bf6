//! Children: which there are, which has ended, and children that lose their parent.

ghost use Rattle.std.specs.Prelude.{◌≡◌, None, if◌then◌else◌, filter, option_copied};
ghost use Rattle.std.specs.FinMap as map;
ghost use Rattle.task_table.specs.Entries.{changed_at, each_changed, numbers_where, passes};
ghost use Rattle.task_table.specs.Reaps.{end_among, is_child, is_waited, orphaned, reap_end};
ghost use Rattle.task_table.specs.Table.{has_parent};

use crate::exits::take_out;
use crate::{Group, ReapEnd};
use sn_base::Map;

/// Whether a number is the one that is waited for.
fn is_waited(which: Option<u32>, number: u32) -> bool
    ensures { result ≡ is_waited which number }
{
    match which {
        Some(wanted) => number == wanted,
        None => true,
    }
}

/// The group of a number, where it is a child that is waited for.
fn child(groups: &Map<Group>, number: u32, parent: u32, which: Option<u32>) -> Option<&Group>
    ensures { option_copied result ≡
        (if is_child groups.now parent which number then map.get groups.now number else None) }
{
    let group = groups.get(u64::from(number))?;
    if group.parent > 0 && group.parent == parent && is_waited(which, number) {
        Some(group)
    } else {
        None
    }
}

/// What waiting comes to, of the numbers given.
fn wait_among(groups: &Map<Group>, numbers: &[u32], parent: u32, which: Option<u32>) -> ReapEnd
    ensures { result ≡ end_among groups.now (filter (is_child groups.now parent which) numbers.now) }
{
    let mut end = ReapEnd::NoChild;
    for number in numbers {
        if let Some(group) = child(groups, *number, parent, which) {
            match group.ended {
                Some(status) => {
                    return ReapEnd::Reaped {
                        child: *number,
                        status,
                    };
                }
                None => end = ReapEnd::NotYet,
            }
        }
    }
    end
}

/// What waiting for a child comes to.
#[tactic(auto, using(crate::proofs::Waiting::children_of_kept))]
pub(crate) fn end_of_wait(
    groups: &Map<Group>,
    children: &[u32],
    parent: u32,
    which: Option<u32>,
) -> ReapEnd
    requires { children.now ≡ numbers_where has_parent groups.now }
    ensures { result ≡ reap_end groups.now parent which }
{
    wait_among(groups, children, parent, which)
}

/// Takes the parent from a group.
fn orphan(groups: &mut Map<Group>, number: u32)
    ensures { groups.new ≡ changed_at (λ g. record g { parent = 0 }) groups.old number }
{
    if let Some(group) = groups.get(u64::from(number)).copied() {
        groups.replace(u64::from(number), Group { parent: 0, ..group });
    }
}

/// Takes the parent from a group, if it is the one given, and answers whether the group has a parent then.
#[tactic(auto, using(sn_base::proofs::Maps::insert_same))]
fn orphan_of(groups: &mut Map<Group>, number: u32, parent: u32) -> bool
    ensures groups { groups.new ≡ changed_at (orphaned parent) groups.old number }
    ensures stays { result ≡ passes has_parent groups.new number }
{
    let Some(group) = groups.get(u64::from(number)).copied() else {
        return false;
    };
    if group.parent != parent {
        return group.parent > 0;
    }
    orphan(groups, number);
    false
}

/// Takes the parent from each child of a group, and keeps the list of groups with a parent. It goes over that list
/// once, and takes no memory.
pub(crate) fn orphan_children(groups: &mut Map<Group>, children: &mut Vec<u32>, parent: u32)
    requires { children.old.items ≡ numbers_where has_parent groups.old }
    ensures groups { groups.new ≡ each_changed (λ _. orphaned parent) groups.old }
    ensures children { children.new.items ≡ numbers_where has_parent groups.new }
{
    let mut kept = 0;
    for place in 0..children.len() {
        let number = children[place];
        if orphan_of(groups, number, parent) {
            children[kept] = number;
            kept += 1;
        }
    }
    children.truncate(kept);
}

/// Takes the parent from a child that was answered, and keeps the list of groups with a parent.
pub(crate) fn release(groups: &mut Map<Group>, children: &mut Vec<u32>, number: u32)
    requires { children.old.items ≡ numbers_where has_parent groups.old }
    ensures groups { groups.new ≡ changed_at (λ g. record g { parent = 0 }) groups.old number }
    ensures children { children.new.items ≡ numbers_where has_parent groups.new }
{
    orphan(groups, number);
    take_out(children, number);
}
