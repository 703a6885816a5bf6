//! Tasks and thread groups: which tasks there are, which live, who is whose child, and how each group ended.
//!
//! A caller sees `Tasks` as a `TaskTable`: a finite map from numbers to tasks, one from numbers to thread groups, and
//! the greatest number used. Tasks and groups share one sequence of numbers, and a group has the number of its first
//! task. What has ended stays in the maps. A memory or a descriptor table is named by a `Made`; what it has isn't here.
//!
//! Proved: `open`, `fork` and `thread` leave just one more task, live, with the next number (`ok`, `number`), are
//! refused as `Full` exactly where 256 tasks live (`full`), which `is_full` tells, and change nothing where they are
//! refused (`err`). `unmake` takes back the task that one of them made last (`made`), which leaves the table as it was,
//! for a caller that lacks memory for what goes with the task. `members` and `itself` tell which tasks an end would
//! end, in ascending order with their clear words, and `close` and `leave` end just those: these two take no memory, so
//! they can't be refused. `exit`, `end_group` and `end_others` do both in one call: they end just the tasks that they
//! name (`ok`), answer them (`ended`) and whether the group ended (`group`), and change nothing where memory is refused
//! (`err`). The children of a group that ended have no parent then. `reap` answers the ended child of lowest number,
//! that none has ended, or that there is no such child (`answer`), and a child that was answered is nobody's child any
//! more (`after`); `child_to_reap` answers the same. `task`, `group`, `live` and the three that make a task tell what
//! holds at all times (`kept`): numbers are at most the greatest used, each task's group is there, a live task's group
//! hasn't ended, and at most 256 tasks live.
//!
//! Not said: what a task runs, who wakes whom, or the order in which tasks go on.
//!
//! Standard: clone(2), wait4(2), _exit(2), exit_group(2), execve(2) and credentials(7) of the Linux manual pages.
//! No locks.
#![tactic(auto)]

mod clones;
mod ends;
mod exits;
mod reaps;
mod table;
mod task;

pub use table::{LAST_TASK, MOST_LIVE, Tasks};
pub use task::{CloneErr, Ended, EndedTask, Group, ReapEnd, Status, Task};
