//! What an opening task begins with, and its place in the task list.

ghost use Rattle.std.specs.Prelude.{◌≡◌, ◌+◌, ◌<◌, ◌^◌, false, length, IfOk, OnOk};
ghost use Rattle.task_table.specs.Clones.{opened as with_opened};
ghost use Rattle.kernel_model.specs.opening.Arguments.{is_too_long};
ghost use Rattle.kernel_model.specs.opening.Opening.{made_by, registers_opened, root_among, root_of};
ghost use Rattle.kernel_model.specs.opening.Opening.{space_opened};
ghost use Rattle.kernel_model.specs.laws.Room.{HasRoom, IsRoomFor};

use crate::opening_random;
use elf_image::Image;
use image_load::{LoadErr, load};
use kernel_model::GuestSpace;
use mount_file::{Mount, Program};
use rv_table::Regs;
use sn_base::{Made, Memory};
use std::alloc::Global;
use task_table::{CloneErr, Tasks};

/// What a task begins with: its registers and its address space.
#[derive(Drop)]
pub struct Beginning {
    pub registers: Regs,
    pub space: GuestSpace,
}

/// What the opening task of that number begins with: the memory and the registers of its image, with its strings and
/// with sixteen random bytes by the mount file's seed.
///
/// execve(2).
pub fn opened(
    alloc: Global,
    seed: &[u8],
    number: u32,
    program: &Program,
    image: &Image,
) -> Result<Beginning, Memory>
    requires short { is_too_long program.now.args program.now.env ≡ false }
    requires pages { HasRoom image.now }
    ensures registers { IfOk result (λ b. b.registers ≡ registers_opened seed.now number program.now image.now) }
    ensures space { IfOk result (λ b. b.space ≡ space_opened seed.now number program.now image.now) }
{
    let program = image_load::ProgramInput {
        args: program.args.as_slice(),
        env: program.env.as_slice(),
        random: opening_random(seed, number),
    };
    match load(alloc, image, &program) {
        Ok(loaded) => Ok(Beginning {
            registers: loaded.registers,
            space: GuestSpace {
                space: loaded.space,
            },
        }),
        Err(LoadErr::Memory) => Err(Memory),
        Err(LoadErr::TooBig) => unreachable!(),
        Err(LoadErr::Limit) => unreachable!(),
    }
}

/// Opens a task in a thread group of its own, whose memory and descriptor table are named by its number, and whose
/// working directory is the node of the number `root`.
pub fn open_task(tasks: &mut Tasks, number: u32, root: u64) -> Result<(), Memory>
    requires { IsRoomFor tasks.old }
    ensures { OnOk result (tasks.new ≡ with_opened tasks.old (made_by number) (made_by number) root) }
{
    let name = Made {
        place: 0,
        index: number,
    };
    match tasks.open(name, name, root) {
        Ok(_) => Ok(()),
        Err(CloneErr::Memory) => Err(Memory),
        Err(CloneErr::Full) => unreachable!(),
    }
}

/// The inode number of the root of the mount at `/`: roots are numbered 1 up, in order of the mounts.
pub fn root_of(mounts: &[Mount]) -> u64
    ensures { result ≡ root_of mounts.now }
{
    root_among(1, mounts)
}

/// The same, where the first of these mounts has that number.
fn root_among(first: u64, mounts: &[Mount]) -> u64
    requires { first + length mounts.now < 2 ^ 64 }
    ensures { result ≡ root_among first mounts.now }
{
    match mounts {
        [] => first,
        [mount, rest @ ..] => {
            if mount.at.is_none() {
                return first;
            }
            root_among(first + 1, rest)
        }
    }
}
