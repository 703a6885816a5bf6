//! A program's opening memory and registers.

ghost use Rattle.std.specs.Prelude.{◌≡◌, ◌+◌, ◌*◌, ◌<◌, ◌≤◌, [], ◌∷◌, All, length, replicate, IfOk, IfErr};
ghost use Rattle.std.specs.FinMap as map_of;
ghost use Rattle.mm_areas.specs.Mappings.{pages_in};
ghost use Rattle.elf_image.specs.Loadable.{IsPlaced};
ghost use Rattle.mm_space.specs.Spaces.{space_of};
ghost use Rattle.image_load.specs.Stacks.{IsTooBig, AreShort, strings_room};
ghost use Rattle.image_load.specs.Pages.{pages_mapped};
ghost use Rattle.image_load.specs.Loading.{IsLoadFaultOf, auxiliary_of, highest_end, opening_registers, opening_space};

use crate::counts::has_too_many_pages;
use crate::pages::{STACK_FIRST, laid_segments, stack_pages};
use crate::places::highest_end;
use crate::stack::{Auxiliary, LoadErr, ProgramInput, laid_out};
use crate::strings::{MOST_STRING_BYTES, MOST_STRINGS, is_too_big};
use elf_image::{Image, Segment};
use mm_areas::{MOST_PAGES, PAGE_SIZE};
use mm_space::Space;
use rv_table::Regs;
use sn_base::Memory;
use std::alloc::Global;

/// What a program begins with.
#[derive(Drop)]
pub struct Loaded {
    /// Its memory: the pages of its image and of its stack, and the break.
    pub space: Space,
    /// Its registers.
    pub registers: Regs,
}

/// Loads a program: makes the memory and the registers that it begins with.
///
/// `TooBig` comes before `Limit`, and both before anything is allocated: a segment of an image may be as long as all
/// addresses are, and is refused without being made. A page takes memory for its bytes only where a segment's part of
/// the file or the end of the stack meets it.
///
/// execve(2); ELF-64 Object File Format, Program Loading.
pub fn load(alloc: Global, image: &Image, program: &ProgramInput<'_>) -> Result<Loaded, LoadErr>
    ensures space { let start = program.now in IfOk result (λ loaded.
        space_of loaded.space ≡ opening_space image.now start.args start.env start.random) }
    ensures registers { let start = program.now in IfOk result (λ loaded.
        loaded.registers ≡ opening_registers image.now start.args start.env start.random) }
    ensures pages { IfOk result (λ loaded.
        map_of.len (space_of loaded.space).mapping.pages ≡ pages_mapped image.now) }
    ensures fault { IfErr result (IsLoadFaultOf image.now program.now.args program.now.env) }
    ensures faulty { IsTooBig program.now.args program.now.env → result ≡ Err LoadErr.TooBig }
    ensures limited { AreShort program.now.args program.now.env → MOST_PAGES < pages_mapped image.now →
        result ≡ Err LoadErr.Limit }
{
    if is_too_big(program.args, program.env) {
        return Err(LoadErr::TooBig);
    }
    if has_too_many_pages(image) {
        return Err(LoadErr::Limit);
    }
    let loaded = mapped(alloc, image, program)?;
    Ok(loaded)
}

/// The memory and the registers of a program whose strings aren't too big, and whose pages aren't too many.
fn mapped(alloc: Global, image: &Image, program: &ProgramInput<'_>) -> Result<Loaded, Memory>
    requires strings { length program.now.args + length program.now.env ≤ MOST_STRINGS }
    requires room { strings_room program.now.args + strings_room program.now.env ≤ MOST_STRING_BYTES }
    requires limit { pages_mapped image.now ≤ MOST_PAGES }
    ensures space { let start = program.now in IfOk result (λ loaded.
        space_of loaded.space ≡ opening_space image.now start.args start.env start.random) }
    ensures registers { let start = program.now in IfOk result (λ loaded.
        loaded.registers ≡ opening_registers image.now start.args start.env start.random) }
    ensures pages { IfOk result (λ loaded.
        map_of.len (space_of loaded.space).mapping.pages ≡ pages_mapped image.now) }
{
    let auxiliary = auxiliary_of(image);
    let stack = laid_out(
        alloc,
        program.args,
        program.env,
        &program.random,
        &auxiliary,
    )?;
    let segments = image.segments.as_slice();
    let mut areas = laid_segments(alloc, segments, segments, opening_break(segments))?;
    areas.lay(STACK_FIRST, stack_pages(alloc, &stack)?)?;
    Ok(Loaded {
        space: Space::of(alloc, areas),
        registers: registers_at(image.entry, stack.sp),
    })
}

/// What the auxiliary vector tells of an image.
fn auxiliary_of(image: &Image) -> Auxiliary
    ensures { result ≡ auxiliary_of image.now }
{
    Auxiliary {
        headers: image.headers,
        header_count: image.header_count,
        entry: image.entry,
    }
}

/// Where the break begins: the first page boundary at or behind the highest end of a segment.
fn opening_break(segments: &[Segment]) -> u64
    requires { All IsPlaced segments.now }
    ensures { result ≡ 4096 * pages_in (highest_end segments.now) }
{
    PAGE_SIZE * ((highest_end(segments) + PAGE_SIZE - 1) / PAGE_SIZE)
}

/// The registers with a program counter and a stack pointer, and 0 in the others.
fn registers_at(pc: u64, sp: u64) -> Regs
    ensures { result ≡ record { pc = pc; x = 0 ∷ 0 ∷ sp ∷ replicate 29 0 } }
{
    let mut x = [0; 32];
    x[2] = sp;
    Regs { pc, x }
}
