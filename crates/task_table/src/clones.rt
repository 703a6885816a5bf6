//! What a new task puts into the table.

ghost use Rattle.std.specs.Prelude.{◌≡◌, ◌<◌, [], ◌∷◌, ◌++◌, if◌then◌else◌, None, OnOk, OnErr, vec_len, vec_capacity};
ghost use Rattle.std.specs.FinMap as map;
ghost use Rattle.task_table.specs.Table.{has_parent};

use crate::{Group, Task};
use sn_base::{Map, Memory};

/// Puts a task and its group in. An `Err` leaves both maps as they were.
#[tactic(auto, using(sn_base::proofs::Maps::map_laws))]
pub(crate) fn put_both(
    tasks: &mut Map<Task>,
    groups: &mut Map<Group>,
    number: u32,
    task: Task,
    group: Group,
) -> Result<(), Memory>
    requires { map.get groups.old number ≡ None }
    ensures tasks { OnOk result (tasks.new ≡ map.insert tasks.old number task) }
    ensures groups { OnOk result (groups.new ≡ map.insert groups.old number group) }
    ensures same_tasks { OnErr result (tasks.new ≡ tasks.old) }
    ensures same_groups { OnErr result (groups.new ≡ groups.old) }
{
    groups.insert(u64::from(number), group)?;
    if let Err(e) = tasks.insert(u64::from(number), task) {
        let _ = groups.remove(u64::from(number));
        return Err(e);
    }
    Ok(())
}

/// Notes a group that has a parent, for which there is room.
pub(crate) fn note_child(children: &mut Vec<u32>, number: u32, group: &Group)
    requires { vec_len children.old < vec_capacity children.old }
    ensures { children.new.items ≡
        (if has_parent group.now then children.old.items ++ number ∷ [] else children.old.items) }
{
    if group.parent > 0 {
        children.push_reserved(number);
    }
}
