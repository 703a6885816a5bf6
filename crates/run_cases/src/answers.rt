//! What is asked of a run, and the answers.

use crate::causes::{print_cause, report_cause};
use crate::entries::{
    print_count, print_draws, print_entries, print_numbers, print_rises, print_turns, print_words,
};
use crate::runs::Told;
use crate::setup::Setup;
use crate::worlds::{faults_of, is_as_it_was, place_of, trees_of};
use host_memory::World;
use host_node::HostWorld;
use kernel_model::{Entry, OpenedTask};
use read_cases::{Bad, number, parted};
use run_replay::{Replayed, replay_run};
use sn_edge::Source;
use std::alloc::Global;

/// How many calls failed of the node of that name.
fn print_faults(alloc: Global, text: &mut String, world: &World, name: &str) -> Result<(), Bad> {
    let place = place_of(alloc, name)?;
    match world.look(&place) {
        Some(node) => write!(text, "{}", node.faults())?,
        None => text.push_str("none")?,
    }
    Ok(())
}

/// Whether a plain kernel does the trace too, and comes to the same text.
fn print_replayed(alloc: Global, text: &mut String, told: &Told, setup: &Setup) -> Result<(), Bad> {
    let trees = trees_of(alloc, &setup.root)?;
    let again = replay_run(alloc, &told.outcome, &trees, true, told.out.inner.bytes())?;
    match again {
        Replayed::Same { .. } => text.push_str("same")?,
        _ => write!(text, "{again:?}")?,
    }
    Ok(())
}

/// The entries from one place to another, counted from 1.
fn print_part(text: &mut String, trace: &[Entry], places: &str) -> Result<(), Bad> {
    let (from, to) = parted(places);
    let (Some(from), Some(to)) = (place_in(from), place_in(to)) else {
        text.push_str("unread")?;
        return Ok(());
    };
    match trace.get(from..to.saturating_add(1)) {
        Some(part) => print_entries(text, part)?,
        None => text.push_str("none")?,
    }
    Ok(())
}

/// The index of a place, counted from 1.
fn place_in(text: &str) -> Option<usize> {
    usize::from_str_radix(text, 10).ok()?.checked_sub(1)
}

/// What is asked of the opening of a task.
fn print_opened(text: &mut String, opened: &OpenedTask, verb: &str) -> Result<(), Bad> {
    match verb {
        "fresh" => print_count(text, opened)?,
        "draws" => print_draws(text, opened)?,
        "rises" => print_rises(text, opened)?,
        "given" => print_words(text, opened)?,
        _ => text.push_str("unread")?,
    }
    Ok(())
}

fn answer_of_task(text: &mut String, told: &Told, verb: &str, task: &str) -> Result<(), Bad> {
    let Some(place) = place_in(task) else {
        text.push_str("unread")?;
        return Ok(());
    };
    match told.outcome.opening.tasks.get(place) {
        Some(opened) => print_opened(text, opened, verb)?,
        None => text.push_str("none")?,
    }
    Ok(())
}

/// Answers with a word behind the verb.
fn answer_by(rt: &HostRuntime, told: &Told, question: &str, text: &mut String) -> Result<(), Bad> {
    let (verb, rest) = parted(question);
    match verb {
        "faults" => print_faults(rt.alloc(), text, &told.world.inner, rest),
        "trace" => print_part(text, told.outcome.trace.as_slice(), rest),
        _ => answer_of_task(text, told, verb, rest),
    }
}

/// What is asked of the source, the host and the folder.
fn answer_outside(
    rt: &HostRuntime,
    told: &Told,
    setup: &Setup,
    question: &str,
    text: &mut String,
) -> Result<(), Bad> {
    let alloc = rt.alloc();
    match question {
        "source faults" => write!(text, "{}", told.files.faults())?,
        "host faults" => write!(text, "{}", told.world.faults())?,
        "faults" => {
            let faults = faults_of(alloc, &told.world.inner, &setup.root)?;
            write!(text, "{faults}")?;
        }
        "folder is as it was" => {
            let same = is_as_it_was(alloc, &told.world.inner, &setup.root)?;
            write!(text, "{same}")?;
        }
        "replay" => print_replayed(alloc, text, told, setup)?,
        "line" => print_cause(alloc, text, told.outcome.fault)?,
        "report" => report_cause(rt, text, told.outcome.fault)?,
        _ => answer_by(rt, told, question, text)?,
    }
    Ok(())
}

/// What a run left beside its trace: how many tasks with rises, and how many numbers.
fn print_left(text: &mut String, told: &Told) -> Result<(), Bad> {
    let rises = told.outcome.left.rises.len();
    let lent = told.outcome.left.lent.len();
    write!(text, "{rises} {lent}")?;
    Ok(())
}

/// Adds the answer to a question about a run: `unread` where it is none.
///
/// - `status`, `answer`, `line`, `report`: its status, its cause, the cause's line, and that this is written.
/// - `length`, `mounts`: how many bytes its text has, and whether its mount file was accepted.
/// - `opened`, `numbers`: how many opening execves were done, and all inode numbers that these gave. `fresh TASK`,
///   `draws TASK`, `rises TASK`, `given TASK`: how many numbers one drew, which, what it met, and its words.
/// - `entries`, `turns`, `trace FROM TO`: how many entries there are, their tasks, and some of them. `left`: what has
///   none.
/// - `replay`: whether a plain kernel comes to the same.
/// - `source faults`, `host faults`, `faults`, `faults NAME`: how many calls failed of the source, of the host, of all
///   nodes and of one. `folder is as it was`: but for these.
pub fn answer(
    rt: &HostRuntime,
    told: &Told,
    setup: &Setup,
    question: &str,
    text: &mut String,
) -> Result<(), Bad> {
    let outcome = &told.outcome;
    match question {
        "status" => write!(text, "{}", outcome.status)?,
        "answer" => write!(text, "{:?}", outcome.fault)?,
        "length" => write!(text, "{}", told.out.inner.bytes().len())?,
        "mounts" => write!(text, "{}", outcome.mounts.is_some())?,
        "opened" => write!(text, "{}", outcome.opening.tasks.len())?,
        "entries" => write!(text, "{}", outcome.trace.len())?,
        "turns" => print_turns(text, outcome.trace.as_slice())?,
        "numbers" => print_numbers(text, &outcome.opening)?,
        "left" => print_left(text, told)?,
        _ => answer_outside(rt, told, setup, question, text)?,
    }
    Ok(())
}
