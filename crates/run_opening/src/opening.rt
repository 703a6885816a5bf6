//! The tasks of a mount file, opened in order.

ghost use Rattle.std.specs.Prelude.{◌≡◌, ◌+◌, ◌<◌, ◌≤◌, [], length, None, Some, true, IfOk, IfErr, IfSome};
ghost use Rattle.std.specs.Prelude.{IsSomeAnd, OnOk, vec_capacity, vec_len};
ghost use Rattle.host_node.specs.Tree.{Shape};
ghost use Rattle.sn_errno.specs.declared.errno.Errno.TheVariants.{E2BIG};
ghost use Rattle.kernel_model.proofs.OpenedTasks.{AreOpened};
ghost use Rattle.kernel_model.specs.laws.Room.{MayOpen};
ghost use Rattle.kernel_model.specs.opening.Arguments.{is_too_long};
ghost use Rattle.kernel_model.specs.opening.Opening.{bare};
ghost use Rattle.mount_file.specs.Form.{HasForm};
ghost use Rattle.mount_file.specs.declared.rules.TheConstants.{MOST_TASKS};
ghost use Rattle.image_walk.specs.Granted.{told_of};
ghost use Rattle.image_walk.specs.Loading.{is_roomy};
ghost use Rattle.image_walk.specs.Standing.{IsNumbering, StandsLent};
ghost use Rattle.image_walk.specs.Walking.{IsGrant, IsRoot, IsSilent};
ghost use Rattle.run_opening.specs.Begun.{GoesOn, HasBegun, Stops};
ghost use Rattle.run_opening.specs.Openings.{Begins, StandsAfter, StandsStill, numbering_of};
ghost use Rattle.run_opening.specs.Records.{IsRecord, IsRecorded};
ghost use Rattle.run_opening.specs.Told.{kernel_told, trees_told};
ghost use Rattle.run_opening.specs.Trees.{AreOthers, Others, trees_with};

use crate::executing::{Done, execute};
use call_table::{Processes, TaskOpening};
use host_node::HostNode;
use image_walk::{Granted, ImageAnswer};
use kernel_model::OpenedTask;
use mount_file::Mounts;
use sn_base::Memory;
use sn_errno::Errno;
use std::alloc::Global;

/// Why the opening of the tasks ended before all had begun.
///
/// - `Image`: the opening execve of that task answers that error.
/// - `Memory`: memory ran out.
#[derive(Clone, Copy, Debug, PartialEq, Eq)]
pub enum OpenErr {
    Image { task: u32, errno: Errno },
    Memory,
}

impl From<Memory> for OpenErr {
    ghost use Rattle.run_opening.specs.declared.opening.OpenErr.TheVariants.{Memory as WantOfMemory};

    ghost from_gives = { λ _ e. e ≡ WantOfMemory };

    fn from(_e: Memory) -> OpenErr {
        OpenErr::Memory
    }
}

/// Goes on from what an opening execve of a program answers: the task begins in that directory, or why not.
fn begin(
    alloc: Global,
    opening: &TaskOpening<'_>,
    answer: ImageAnswer,
    processes: Processes,
) -> Result<Processes, OpenErr>
    requires long { is_too_long opening.now.program.now.args opening.now.program.now.env ≡ true →
        answer ≡ ImageAnswer.Refuses E2BIG }
    requires pages { is_roomy answer ≡ true }
    requires room { MayOpen processes.cells.tasks }
    ensures { Begins opening.now.seed.now opening.now.root opening.now.program.now answer processes result }
{
    match answer {
        ImageAnswer::Starts(image) => {
            let more = processes.open(alloc, opening, &image)?;
            Ok(more)
        }
        ImageAnswer::Refuses(errno) => Err(OpenErr::Image {
            task: processes.cells.tasks.last() + 1,
            errno,
        }),
        ImageAnswer::Memory => Err(OpenErr::Memory),
    }
}

/// Makes room for the record of one task more.
fn make_room(tasks: &mut Vec<OpenedTask>) -> Result<(), Memory>
    ensures same { tasks.new.items ≡ tasks.old.items }
    ensures ok { OnOk result (vec_len tasks.new < vec_capacity tasks.new) }
{
    tasks.reserve(1)?;
    Ok(())
}

/// Opens the task of an index, behind those before it, and puts it into the record.
fn open_task<N: HostNode>(
    alloc: Global,
    mounts: &Mounts,
    index: usize,
    granted: &mut Granted<N>,
    processes: Processes,
    tasks: &mut Vec<OpenedTask>,
) -> Result<Processes, OpenErr>
    requires within { index < length mounts.now.tasks }
    requires few { length mounts.now.tasks ≤ MOST_TASKS }
    requires numbers { granted.old.numbers ≡ numbering_of mounts.now.mounts }
    requires known { IsNumbering granted.old.numbers }
    requires grant { IsGrant granted.old.numbers (N.told granted.old.root) (told_of N.told granted.old.lent.items) }
    requires opened { AreOpened index processes.cells.tasks }
    requires record { IsRecord mounts.now tasks.old.items index (length granted.old.lent.items) }
    ensures same { granted.new.numbers ≡ granted.old.numbers }
    ensures opened { IfOk result (λ p. AreOpened (index + 1) p.cells.tasks) }
    ensures record { IfOk result (λ p. IsRecord mounts.now tasks.new.items (index + 1)
        (length granted.new.lent.items)) }
    ensures recorded { IsRecorded mounts.now tasks.new.items }
    ensures silent { IsSilent (N.told granted.old.root) (told_of N.told granted.old.lent.items) →
        IsSilent (N.told granted.new.root) (told_of N.told granted.new.lent.items) }
    ensures stands { IfOk result (λ p. (t : Shape) →
        StandsStill (numbering_of mounts.now.mounts) t (N.told granted.old.root)
        (told_of N.told granted.old.lent.items) →
        StandsStill (numbering_of mounts.now.mounts) t (N.told granted.new.root)
        (told_of N.told granted.new.lent.items)) }
    ensures begun { IfOk result (λ p. (others : Others) → AreOthers mounts.now.mounts others →
        GoesOn mounts.now index (index + 1) tasks.old.items tasks.new.items
        (kernel_told mounts.now (trees_told others (N.told granted.old.root) (told_of N.told granted.old.lent.items))
        processes 0)
        (kernel_told mounts.now (trees_told others (N.told granted.new.root) (told_of N.told granted.new.lent.items))
        p 0)) }
    ensures stopped { IfErr result (λ e. (others : Others) → AreOthers mounts.now.mounts others →
        IfSome (kernel_told mounts.now
        (trees_told others (N.told granted.old.root) (told_of N.told granted.old.lent.items)) processes 0)
        (Stops mounts.now index tasks.old.items tasks.new.items e
        (trees_told others (N.told granted.new.root) (told_of N.told granted.new.lent.items)))) }
    ensures standing { IfErr result (λ e. (t : Shape) →
        StandsStill (numbering_of mounts.now.mounts) t (N.told granted.old.root)
        (told_of N.told granted.old.lent.items) →
        StandsAfter e (numbering_of mounts.now.mounts) t (N.told granted.new.root)
        (told_of N.told granted.new.lent.items)) }
{
    let root = granted.numbers.root;
    let program = mounts.tasks.at(index);
    // Room for its record first, so that nothing is met that can't be told.
    make_room(tasks)?;
    let Done { opened, answer } = execute(alloc, granted, program)?;
    tasks.push_reserved(opened);
    let opening = TaskOpening {
        seed: mounts.seed.as_slice(),
        root,
        program,
    };
    begin(alloc, &opening, answer, processes)
}

/// Opens the tasks of a mount file in order, over the granted folder of the mount at `/`, and records what each execve
/// drew and met. On an `Err` no task is left, and the children that were lent can go back; where that is want of
/// memory, no call of a node has failed.
///
/// execve(2).
pub fn open_tasks<N: HostNode>(
    alloc: Global,
    mounts: &Mounts,
    granted: &mut Granted<N>,
    tasks: &mut Vec<OpenedTask>,
) -> Result<Processes, OpenErr>
    requires form { HasForm mounts.now }
    requires numbers { granted.old.numbers ≡ numbering_of mounts.now.mounts }
    requires root { IsRoot (N.told granted.old.root) }
    requires stands { (t : Shape) → N.told granted.old.root ≡ Some t →
        StandsLent granted.old.numbers t [] [] (N.told granted.old.root) (told_of N.told granted.old.lent.items) }
    requires lent { granted.old.lent.items ≡ [] }
    requires none { tasks.old.items ≡ [] }
    ensures recorded { IsRecorded mounts.now tasks.new.items }
    ensures all { IfOk result (λ p. IsRecord mounts.now tasks.new.items (length mounts.now.tasks)
        (length granted.new.lent.items)) }
    ensures silent { N.told granted.old.root ≡ None →
        IsSilent (N.told granted.new.root) (told_of N.told granted.new.lent.items) }
    ensures stands { IfOk result (λ p. (t : Shape) → N.told granted.old.root ≡ Some t →
        StandsStill (numbering_of mounts.now.mounts) t (N.told granted.new.root)
        (told_of N.told granted.new.lent.items)) }
    ensures begun { IfOk result (λ p. (others : Others) (t : Shape) → AreOthers mounts.now.mounts others →
        N.told granted.old.root ≡ Some t →
        IsSomeAnd (kernel_told mounts.now
        (trees_told others (N.told granted.new.root) (told_of N.told granted.new.lent.items)) p 0)
        (HasBegun mounts.now 0 (length mounts.now.tasks) tasks.old.items tasks.new.items
        (bare mounts.now (trees_with others t)))) }
    ensures stopped { IfErr result (λ e. (others : Others) (t : Shape) → AreOthers mounts.now.mounts others →
        N.told granted.old.root ≡ Some t →
        Stops mounts.now 0 tasks.old.items tasks.new.items e
        (trees_told others (N.told granted.new.root) (told_of N.told granted.new.lent.items))
        (bare mounts.now (trees_with others t))) }
    ensures standing { IfErr result (λ e. (t : Shape) → N.told granted.old.root ≡ Some t →
        StandsAfter e (numbering_of mounts.now.mounts) t (N.told granted.new.root)
        (told_of N.told granted.new.lent.items)) }
{
    let mut processes = Processes::new(alloc);
    for index in 0..mounts.tasks.len() {
        let more = open_task(alloc, mounts, index, granted, processes, tasks)?;
        processes = more;
    }
    Ok(processes)
}
