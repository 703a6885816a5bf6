//! The state of a run: the cells that its tasks share, and the tasks that are opened in them.

ghost use Rattle.std.specs.Prelude.{◌≡◌, ◌<◌, ℕ, ◌+◌, [], false, IfOk, OnOk};
ghost use Rattle.std.specs.FinMap as map;
ghost use Rattle.kernel_model.specs.Names.{with_named};
ghost use Rattle.kernel_model.specs.opening.Arguments.{is_too_long};
ghost use Rattle.kernel_model.specs.laws.Room.{HasRoom, MayOpen};
ghost use Rattle.kernel_model.specs.opening.Opening.{files_opened, made_by, root_of, with_task};
ghost use Rattle.task_table.specs.Clones.{opened as opened_task};
ghost use Rattle.task_table.specs.Table.{no_tasks};
ghost use Rattle.proc_cells.specs.Beside.{Beside, kernel_with, nothing_held};
ghost use Rattle.proc_cells.specs.Cells.{held_by, kernel_of as kernel_of_cells};

use elf_image::Image;
use file_changes::open_files;
use kernel_calls::{Beginning, open_task, opened};
use mount_file::Program;
use proc_cells::{Cells, Rooms};
use sn_base::Memory;
use std::alloc::Global;

/// What a task is opened with beside its image: the mount file's seed, the node of the root of the mount at `/`, and
/// its program.
#[derive(Clone, Copy)]
pub struct TaskOpening<'a> {
    pub seed: &'a [u8],
    pub root: u64,
    pub program: &'a Program,
}

/// The parts that the tasks of a run share.
#[derive(Drop)]
pub struct Processes {
    pub cells: Cells,
}

impl Processes {
    ghost use Rattle.call_table.specs.Processes.{kernel_of_processes};

    /// No processes. It takes no memory.
    pub fn new(alloc: Global) -> Processes
        ensures none { result.cells.tasks ≡ no_tasks }
        ensures begun { (beside : Beside) (n : ℕ) →
            kernel_of_processes result beside n ≡ kernel_with nothing_held beside n }
    {
        Processes {
            cells: Cells::new(alloc),
        }
    }

    /// The processes with one opening task more, in a thread group of its own, of an image and with the strings of its
    /// program. Its number is the next, and its working directory the node of that number, the root of the mount at
    /// `/`. On want of memory they are gone.
    pub fn open(
        self,
        alloc: Global,
        opening: &TaskOpening<'_>,
        image: &Image,
    ) -> Result<Processes, Memory>
        requires short { is_too_long opening.now.program.now.args opening.now.program.now.env ≡ false }
        requires pages { HasRoom image.now }
        requires room { MayOpen self.cells.tasks }
        ensures begun { IfOk result (λ p. (beside : Beside) (n : ℕ) → beside.seed ≡ opening.now.seed.now →
            root_of beside.mounts ≡ opening.now.root → kernel_of_processes p beside n ≡
            with_task (self.cells.tasks.last + 1) opening.now.program.now image.now
            (kernel_of_processes self beside n)) }
        ensures tasks { IfOk result (λ p. p.cells.tasks ≡
            opened_task self.cells.tasks (made_by (self.cells.tasks.last + 1))
            (made_by (self.cells.tasks.last + 1)) opening.now.root) }
    {
        let Processes { cells } = self;
        let number = cells.tasks.last() + 1;
        let beginning = opened(alloc, opening.seed, number, opening.program, image)?;
        let cells = begin(alloc, cells, number, opening.root, beginning)?;
        Ok(Processes { cells })
    }
}

/// The cells with one task more, of the next number, that begins in that directory, with these registers and this
/// memory, and with the descriptors of an opening task.
fn begin(
    alloc: Global,
    cells: Cells,
    number: u32,
    root: u64,
    beginning: Beginning,
) -> Result<Cells, Memory>
    requires room { MayOpen cells.tasks }
    requires next { number ≡ cells.tasks.last + 1 }
    ensures { IfOk result (λ p. (beside : Beside) (n : ℕ) → kernel_of_cells p beside n ≡
        kernel_with (record (held_by cells) {
          tasks = opened_task cells.tasks (made_by number) (made_by number) root;
          registers = map.insert cells.registers number beginning.registers;
          spaces = with_named cells.spaces 0 number beginning.space;
          files = files_opened number cells.files;
        }) beside n) }
{
    let mut rooms = cells.into_rooms();
    place(alloc, number, root, beginning, &mut rooms)?;
    let Rooms {
        tasks,
        registers,
        spaces,
        areas,
        files,
        sleepers,
        console,
    } = rooms;
    Ok(Cells {
        tasks,
        registers,
        spaces,
        areas,
        files,
        sleepers,
        console,
    })
}

/// Puts that task into the list of tasks, and what is its own into the other rooms. Want of memory leaves some of it
/// there.
fn place(
    alloc: Global,
    number: u32,
    root: u64,
    beginning: Beginning,
    rooms: &mut Rooms,
) -> Result<(), Memory>
    requires room { MayOpen rooms.old.tasks }
    requires next { number ≡ rooms.old.tasks.last + 1 }
    ensures { OnOk result (rooms.new ≡ record rooms.old {
      tasks = opened_task rooms.old.tasks (made_by number) (made_by number) root;
      registers = map.insert rooms.old.registers number beginning.registers;
      spaces = with_named rooms.old.spaces 0 number beginning.space;
      files = files_opened number rooms.old.files;
    }) }
{
    let Beginning { registers, space } = beginning;
    open_task(&mut rooms.tasks, number, root)?;
    rooms.registers.insert(u64::from(number), registers)?;
    rooms.spaces.insert(alloc, 0, number, space)?;
    open_files(alloc, number, &mut rooms.files)
}
