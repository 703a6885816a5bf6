//! The kernel before its first task, and its opening tasks in order.

ghost use Rattle.std.specs.Prelude.{◌≡◌, ◌+◌, ◌<◌, ◌≤◌, true, false, length, IfOk, OnOk, IfErr};
ghost use Rattle.task_table.specs.Clones.{opened as with_opened};
ghost use Rattle.task_table.specs.Table.{no_tasks};
ghost use Rattle.kernel_model.specs.declared.kernel.Kernel.{Kernel as AKernel};
ghost use Rattle.kernel_model.specs.opening.Opening.{Begun, Opens, rooted, bare, made_by, with_task, execve_of};
ghost use Rattle.kernel_model.specs.opening.Opening.{root_of, task_begun, tasks_begun};
ghost use Rattle.kernel_model.specs.opening.Arguments.{is_too_long};
ghost use Rattle.kernel_model.specs.entries.Given.{may_meet};
ghost use Rattle.kernel_model.specs.entries.Parts.{parts, outcome_in as outcome};
ghost use Rattle.kernel_model.specs.laws.Room.{HasRoom, MayOpen};
ghost use Rattle.plain_kernel.specs.OpeningTasks.{IsRefusedBy};

use crate::OpeningErr;
use crate::walking::{Execved, execve, root_number};
use elf_image::Image;
use file_changes::open_files;
use futex_core::Waiters;
use host_node::Tree;
use kernel_calls::{Beginning, open_task, opened};
use kernel_model::{Given, Kernel, Named, Node, OpenFiles, OpenedTask};
use mount_file::{MOST_TASKS, Mounts, Program, copied_mounts};
use node_numbers::{may_meet, root_node};
use sn_base::{List, Map, Memory};
use std::alloc::Global;
use task_table::Tasks;

/// The nodes of the roots, numbered in order of the mounts.
fn number_roots(alloc: Global, trees: &[Tree]) -> Result<Map<Node>, Memory>
    ensures { IfOk result (λ nodes. nodes ≡ rooted 1 trees.now) }
{
    let mut nodes = Map::new(alloc);
    for index in (0..trees.len()).rev() {
        let ino = index as u64 + 1;
        let tree = trees[index].copy(alloc)?;
        nodes.insert(ino, root_node(alloc, ino, tree))?;
    }
    Ok(nodes)
}

/// The kernel before its first task.
pub(crate) fn bare(alloc: Global, mounts: &Mounts, trees: &[Tree]) -> Result<Kernel, Memory>
    ensures { IfOk result (λ k. k ≡ bare mounts.now trees.now) }
{
    let nodes = number_roots(alloc, trees)?;
    let seed = List::from_slice(alloc, mounts.seed.as_slice())?;
    let mounts = copied_mounts(alloc, mounts.mounts.as_slice())?;
    Ok(Kernel {
        tasks: Tasks::new(alloc),
        registers: Map::new(alloc),
        spaces: Named::new(alloc),
        areas: Named::new(alloc),
        files: OpenFiles::new(alloc),
        nodes,
        sleepers: Waiters::new(alloc),
        console: List::new(alloc),
        failed: Map::new(alloc),
        mounts,
        seed,
        entries: 0,
    })
}

/// Begins the opening tasks in order.
pub(crate) fn begin_tasks(
    alloc: Global,
    kernel: &mut Kernel,
    programs: &[Program],
    opened: &[OpenedTask],
) -> Result<(), OpeningErr>
    requires few { length programs.now ≤ MOST_TASKS }
    requires none { kernel.old.tasks ≡ no_tasks }
    ensures ok { OnOk result (tasks_begun 1 programs.now opened.now kernel.old ≡ Opens kernel.new) }
    ensures refused { IfErr result (IsRefusedBy (tasks_begun 1 programs.now opened.now kernel.old)) }
{
    for index in 0..programs.len() {
        let number = index as u32 + 1;
        let program = &programs[index];
        let Some(one) = opened.get(index) else {
            return Err(OpeningErr::Misfit { task: number });
        };
        if !may_meet(&kernel.nodes, &one.given) {
            return Err(OpeningErr::Misfit { task: number });
        }
        begin_task(alloc, kernel, program, &one.given)?;
    }
    Ok(())
}

/// Begins the next opening task by its execve.
fn begin_task(
    alloc: Global,
    kernel: &mut Kernel,
    program: &Program,
    given: &Given,
) -> Result<(), OpeningErr>
    requires room { MayOpen kernel.old.tasks }
    requires may { may_meet kernel.old.nodes given.now ≡ true }
    ensures ok { let number = kernel.old.tasks.last + 1 in OnOk result ((rest : AKernel → Begun) →
        task_begun rest (with_task number program.now) number kernel.old
        (outcome (parts kernel.old) (execve_of (root_of kernel.old.mounts) program.now given.now)) ≡ rest kernel.new) }
    ensures tasks { let number = kernel.old.tasks.last + 1 in
        OnOk result (kernel.new.tasks ≡ with_opened kernel.old.tasks (made_by number) (made_by number)
        (root_of kernel.new.mounts)) }
    ensures refused { let number = kernel.old.tasks.last + 1 in IfErr result (λ e. (rest : AKernel → Begun) →
        IsRefusedBy (task_begun rest (with_task number program.now) number kernel.old
        (outcome (parts kernel.old) (execve_of (root_of kernel.old.mounts) program.now given.now))) e) }
{
    let number = kernel.tasks.last() + 1;
    match execve(alloc, kernel, program, given)? {
        Execved::Starts(image) => {
            add_task(alloc, kernel, program, &image)?;
            Ok(())
        }
        Execved::Fails(errno) => Err(OpeningErr::Image {
            task: number,
            errno,
        }),
        Execved::Unfit => Err(OpeningErr::Misfit { task: number }),
    }
}

/// Adds the next opening task, which is a group of its own.
fn add_task(
    alloc: Global,
    kernel: &mut Kernel,
    program: &Program,
    image: &Image,
) -> Result<(), Memory>
    requires short { is_too_long program.now.args program.now.env ≡ false }
    requires pages { HasRoom image.now }
    requires room { MayOpen kernel.old.tasks }
    ensures { let number = kernel.old.tasks.last + 1 in
        OnOk result (kernel.new ≡ with_task number program.now image.now kernel.old) }
{
    let number = kernel.tasks.last() + 1;
    let Beginning { registers, space } = opened(
        alloc,
        kernel.seed.as_slice(),
        number,
        program,
        image,
    )?;
    let root = root_number(kernel);
    open_task(&mut kernel.tasks, number, root)?;
    kernel.registers.insert(u64::from(number), registers)?;
    kernel.spaces.insert(alloc, 0, number, space)?;
    open_files(alloc, number, &mut kernel.files)
}
