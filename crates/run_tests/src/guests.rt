//! Processes that the tests begin, of opening tasks with one argument.

ghost use Rattle.std.specs.Prelude.{◌≡◌, ◌≤◌, ◌+◌, false, length, IfOk};
ghost use Rattle.kernel_model.specs.opening.Arguments.{is_too_long};
ghost use Rattle.kernel_model.specs.opening.Opening.{made_by};
ghost use Rattle.kernel_model.specs.laws.Room.{HasRoom, MayOpen};
ghost use Rattle.task_table.specs.Clones.{opened as opened_task};

use call_table::{Processes, TaskOpening};
use elf_image::Image;
use kernel_calls::{is_too_long, read_executable};
use mount_file::Program;
use sn_base::List;
use sn_text::{Text, name_of};
use sn_vectors::image_of;
use std::alloc::Global;
use std::test::Fail;

/// The seed of 32 zeros.
pub const SEED: [u8; 32] = [0; 32];

/// The image of a file.
fn image_in(alloc: Global, file: &[u8]) -> Result<Image, Fail>
    ensures { IfOk result HasRoom }
{
    match read_executable(alloc, file)? {
        Ok(image) => Ok(image),
        Err(_) => Err(Fail::new("no image")),
    }
}

/// The image of a guest of these words.
fn image_with(alloc: Global, words: &[u32]) -> Result<Image, Fail>
    ensures { IfOk result HasRoom }
{
    let file = image_of(alloc, words)?;
    image_in(alloc, file.as_slice())
}

/// A program with the argument `a`.
fn program(alloc: Global) -> Result<Program, Fail>
    ensures { IfOk result (λ p. is_too_long p.args p.env ≡ false) }
{
    let mut args = List::new(alloc);
    args.push(Text::from_slice(alloc, b"a")?)?;
    let program = Program {
        name: name_of(alloc, b"init")?,
        args,
        env: List::new(alloc),
    };
    if is_too_long(&program) {
        return Err(Fail::new("too long"));
    }
    Ok(program)
}

/// Processes with one opening task more, of a guest of these words.
fn with_guest(
    alloc: Global,
    processes: Processes,
    program: &Program,
    words: &[u32],
) -> Result<Processes, Fail>
    requires short { is_too_long program.now.args program.now.env ≡ false }
    requires room { MayOpen processes.cells.tasks }
    ensures tasks { IfOk result (λ p. p.cells.tasks ≡
        opened_task processes.cells.tasks (made_by (processes.cells.tasks.last + 1))
        (made_by (processes.cells.tasks.last + 1)) 1) }
{
    let image = image_with(alloc, words)?;
    let opening = TaskOpening {
        seed: &SEED,
        root: 1,
        program,
    };
    Ok(processes.open(alloc, &opening, &image)?)
}

/// The processes of guests of these words, each an opening task of that program, in order.
fn opened(alloc: Global, program: &Program, guests: &[&[u32]]) -> Result<Processes, Fail>
    requires short { is_too_long program.now.args program.now.env ≡ false }
    requires few { length guests.now ≤ 64 }
{
    let mut processes = Processes::new(alloc);
    for index in 0..guests.len() {
        processes = with_guest(alloc, processes, program, guests[index])?;
    }
    Ok(processes)
}

/// The processes of guests of these words, each an opening task with one argument, in order.
pub fn processes_of(alloc: Global, guests: &[&[u32]]) -> Result<Processes, Fail>
    requires { length guests.now ≤ 64 }
{
    let program = program(alloc)?;
    opened(alloc, &program, guests)
}
