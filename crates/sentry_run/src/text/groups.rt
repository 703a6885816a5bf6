//! The lines of the thread groups.

ghost use Rattle.std.specs.Prelude.{◌≡◌, ◌++◌, OnOk};
ghost use Rattle.std.specs.FinMap as map;
ghost use Rattle.kernel_model.specs.printed.Printed.{group_text, groups_text};

use super::written;
use sn_base::{Map, Memory};
use std::alloc::Global;
use std::io::Write;
use task_table::{Group, Status};

/// Adds a line for each group, ascending by its number.
pub fn push_groups(alloc: Global, out: &mut Vec<u8>, groups: &Map<Group>) -> Result<(), Memory>
    ensures { OnOk result (out.new.items ≡ out.old.items ++ groups_text (map.entries groups.now)) }
{
    let numbers = groups.keys(alloc)?;
    for number in numbers.as_slice() {
        if let Some(group) = groups.get(*number) {
            push_group(out, *number, group)?;
        }
    }
    Ok(())
}

/// Adds the line of a group: its number, and how it stands.
fn push_group(out: &mut Vec<u8>, number: u64, group: &Group) -> Result<(), Memory>
    ensures { OnOk result (out.new.items ≡ out.old.items ++ group_text (number, group.now)) }
{
    match group.ended {
        None => written(writeln!(out, "group {number} live")),
        Some(Status::Exited(code)) => written(writeln!(out, "group {number} exit {code}")),
        Some(Status::Killed(signal)) => written(writeln!(out, "group {number} signal {signal}")),
    }
}
