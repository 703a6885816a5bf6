//! Opening execves over a folder: what each draws, meets and answers.

ghost use Rattle.std.specs.Prelude.{◌≡◌, true};
ghost use Rattle.host_node.specs.Tree.{none_lent};

use crate::folders::{Failing, expect_faults, world_of};
use crate::visits::execute_in;
use host_memory::{Op, World};
use image_walk::{ImageAnswer, Numbering, OpeningExecve};
use kernel_model::{Fresh, Given, Rise};
use mount_file::Program;
use sn_base::List;
use sn_errno::Errno;
use sn_text::{Text, name_of};
use std::alloc::Global;
use std::process::Abort;
use std::test::Fail;

/// An execve of a name, by a sentence that says what is so of it: the numbers of the folder, how many bytes the one
/// string of its environment has, if any, and what is to fail; the number that it draws for the name, the node of which
/// a call failed, and its answer, an image that is entered at that address or an error.
#[derive(Clone, Copy)]
struct Execution {
    says: &'static str,
    name: &'static [u8],
    numbers: Numbering,
    environment: usize,
    failing: Failing,
    draws: Option<u64>,
    fails: Option<u64>,
    answer: Result<u64, Errno>,
}

/// That of the guest that writes nothing, which is entered at 0x10078.
const FIRST: Execution = Execution {
    says: "an image is entered where its header says",
    name: b"first",
    numbers: Numbering { root: 1, first: 2 },
    environment: 0,
    failing: Failing::Nothing,
    draws: Some(2),
    fails: None,
    answer: Ok(0x1_0078),
};

#[rattlefmt::skip]
const EXECUTIONS: &[Execution] = &[
    FIRST,
    Execution {
        says: "a child of a root behind which others are draws the number behind those",
        numbers: Numbering { root: 2, first: 4 },
        draws: Some(4),
        ..FIRST
    },
    Execution {
        says: "a lend of a root that fails is told of its number",
        numbers: Numbering { root: 2, first: 4 },
        failing: Failing::Call(&["root"], Op::Lend),
        draws: None,
        fails: Some(2),
        answer: Err(Errno::EIO),
        ..FIRST
    },
    // The string takes nine bytes more than it has, and there is no other.
    Execution {
        says: "strings of the greatest length are taken",
        environment: 65_527,
        ..FIRST
    },
    // The walk would have met a link.
    Execution {
        says: "strings that are too long are refused before the walk",
        name: b"link",
        environment: 65_528,
        draws: None,
        answer: Err(Errno::E2BIG),
        ..FIRST
    },
];

/// A string of so many letters.
fn letters(alloc: Global, count: usize) -> Result<Text, Fail> {
    let letters = vec![in alloc; b'a'; count]?;
    Ok(Text::from_slice(alloc, letters.as_slice())?)
}

/// An environment of one such string, if it has any letters.
fn environment(alloc: Global, count: usize) -> Result<List<Text>, Fail> {
    let mut strings = List::new(alloc);
    if count > 0 {
        strings.push(letters(alloc, count)?)?;
    }
    Ok(strings)
}

/// A program of that name without arguments, with one string of so many letters in its environment, if any.
fn program(alloc: Global, name: &[u8], count: usize) -> Result<Program, Fail> {
    let name = name_of(alloc, name)?;
    let env = environment(alloc, count)?;
    Ok(Program {
        name,
        args: List::new(alloc),
        env,
    })
}

/// Whether the execve's name drew its number in the root, or none was drawn.
fn has_drawn(fresh: &[Fresh], execution: &Execution) -> bool {
    match (fresh, execution.draws) {
        ([], None) => true,
        ([one], Some(ino)) => {
            one.dir == execution.numbers.root
                && one.name.as_bytes() == execution.name
                && one.ino == ino
        }
        _ => false,
    }
}

/// Whether one call failed, of the node of that number, or none.
fn has_failed(rises: &[Rise], fails: Option<u64>) -> bool {
    match (rises, fails) {
        ([], None) => true,
        ([one], Some(ino)) => one.ino == ino && one.count == 1,
        _ => false,
    }
}

/// Whether an execve drew and met that.
fn has_given(given: &Given, execution: &Execution) -> bool {
    has_drawn(given.fresh.as_slice(), execution)
        && has_failed(given.rises.as_slice(), execution.fails)
}

/// What it says in short, or `None` where memory ran out.
fn answered(answer: &ImageAnswer) -> Option<Result<u64, Errno>> {
    match answer {
        ImageAnswer::Starts(image) => Some(Ok(image.entry)),
        ImageAnswer::Refuses(errno) => Some(Err(*errno)),
        ImageAnswer::Memory => None,
    }
}

/// Whether an execve came to that.
fn has_come(executed: &OpeningExecve, execution: &Execution) -> bool {
    answered(&executed.answer) == Some(execution.answer) && has_given(&executed.given, execution)
}

/// How many calls failed.
fn failed(execution: &Execution) -> u64 {
    match execution.fails {
        Some(_) => 1,
        None => 0,
    }
}

/// The execve over a host.
fn executed(alloc: Global, world: &mut World, execution: &Execution) -> Result<OpeningExecve, Fail>
    requires { none_lent world.old.tree ≡ true }
{
    let program = program(alloc, execution.name, execution.environment)?;
    execute_in(alloc, world, execution.numbers, &program)
}

/// That it comes to that over a host, and leaves the folder as it was.
fn expect_over(
    rt: &impl Abort,
    alloc: Global,
    world: &mut World,
    execution: &Execution,
) -> Result<(), Fail>
    requires { none_lent world.old.tree ≡ true }
{
    let executed = executed(alloc, world, execution)?;
    assert!(rt; has_come(&executed, execution), "{}", execution.says);
    expect_faults(rt, alloc, world, failed(execution), execution.says)
}

/// That it does so where that is to fail.
fn expect_execution(rt: &impl Abort, alloc: Global, execution: &Execution) -> Result<(), Fail> {
    let mut world = world_of(alloc, execution.failing)?;
    expect_over(rt, alloc, &mut world, execution)
}

#[test]
fn an_opening_execve_tells_what_it_drew_and_met_and_leaves_the_folder_as_it_was(
    rt: HostRuntime,
) -> Result<(), Fail> {
    for execution in EXECUTIONS {
        expect_execution(&rt, rt.alloc(), execution)?;
    }
    Ok(())
}
