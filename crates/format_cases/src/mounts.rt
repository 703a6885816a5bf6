//! What is asked about a mount file.
//!
//! - `fault`: the first fault, or `none`; the other questions about a file that is refused come to the fault too.
//! - `entries`, `seed`, `mounts`, `tasks`: the longest trace, the bytes of the seed, how many mounts and tasks.
//! - `mount N`: where it is, its folder, name by name, and whether it may be written; `copy N`: the same of a copy of
//!   all mounts.
//! - `task N`: its image's name, its arguments and its environment; `arguments N`: how many arguments.

use crate::drafts::Draft;
use crate::runs::Runs;
use crate::texts::add_text;
use mount_file::{Mount, MountFault, Mounts, Program, copied_mounts, read_mounts};
use read_cases::{Bad, parted};
use sn_base::List;
use sn_text::{Folder, Text};
use std::alloc::Global;

/// A question about a mount file. Places are counted from 0 here, and from 1 in a case.
#[derive(Clone, Copy)]
enum Question {
    Fault,
    Entries,
    Seed,
    Mounts,
    Tasks,
    Mount(usize),
    Copy(usize),
    Task(usize),
    Arguments(usize),
}

/// A question about one of the mounts or tasks.
fn question_about(verb: &str, place: &str) -> Option<Question> {
    let place = usize::from_str_radix(place, 10).ok()?.checked_sub(1)?;
    match verb {
        "mount" => Some(Question::Mount(place)),
        "copy" => Some(Question::Copy(place)),
        "task" => Some(Question::Task(place)),
        "arguments" => Some(Question::Arguments(place)),
        _ => None,
    }
}

fn question_of(verb: &str, rest: &str) -> Option<Question> {
    match (verb, rest) {
        ("fault", "") => Some(Question::Fault),
        ("entries", "") => Some(Question::Entries),
        ("seed", "") => Some(Question::Seed),
        ("mounts", "") => Some(Question::Mounts),
        ("tasks", "") => Some(Question::Tasks),
        _ => question_about(verb, rest),
    }
}

/// Tells a text in quotes.
fn tell_quoted(came: &mut String, bytes: &[u8]) -> Result<(), Bad> {
    came.push_str(" \"")?;
    for byte in bytes {
        match *byte {
            b' '..=b'~' => came.push(char::from(*byte))?,
            _ => write!(came, "\\x{byte:02x}")?,
        }
    }
    came.push_str("\"")?;
    Ok(())
}

fn tell_texts(came: &mut String, texts: &List<Text>) -> Result<(), Bad> {
    for text in texts.as_slice() {
        tell_quoted(came, text.as_bytes())?;
    }
    Ok(())
}

fn tell_folder(came: &mut String, folder: &Folder) -> Result<(), Bad> {
    if folder.is_rooted() {
        came.push_str(" /")?;
    }
    for name in folder.route().names() {
        tell_quoted(came, name.as_bytes())?;
    }
    Ok(())
}

/// The mount at a place, counted from 1.
fn tell_mount(came: &mut String, mounts: &[Mount], place: usize) -> Result<(), Bad> {
    let Some(mount) = mounts.get(place) else {
        came.push_str("none")?;
        return Ok(());
    };
    came.push_str("at")?;
    match &mount.at {
        Some(name) => tell_quoted(came, name.as_bytes())?,
        None => came.push_str(" /")?,
    }
    came.push_str(" folder")?;
    tell_folder(came, &mount.folder)?;
    came.push_str(if mount.write { " written" } else { " read" })?;
    Ok(())
}

fn tell_copy(alloc: Global, came: &mut String, mounts: &[Mount], place: usize) -> Result<(), Bad> {
    let copies = copied_mounts(alloc, mounts)?;
    tell_mount(came, copies.as_slice(), place)
}

fn tell_task(came: &mut String, task: &Program) -> Result<(), Bad> {
    came.push_str("image")?;
    tell_quoted(came, task.name.as_bytes())?;
    came.push_str(" args")?;
    tell_texts(came, &task.args)?;
    came.push_str(" env")?;
    tell_texts(came, &task.env)
}

/// The task at a place.
fn tell_task_at(came: &mut String, tasks: &[Program], place: usize) -> Result<(), Bad> {
    match tasks.get(place) {
        Some(task) => tell_task(came, task),
        None => {
            came.push_str("none")?;
            Ok(())
        }
    }
}

/// How many arguments the task at a place has.
fn tell_argument_count(came: &mut String, tasks: &[Program], place: usize) -> Result<(), Bad> {
    match tasks.get(place) {
        Some(task) => write!(came, "{}", task.args.len())?,
        None => came.push_str("none")?,
    }
    Ok(())
}

fn tell_seed(came: &mut String, seed: &[u8]) -> Result<(), Bad> {
    for byte in seed {
        write!(came, "{byte:02x}")?;
    }
    Ok(())
}

/// The answer to a question about a file that is read.
fn tell(alloc: Global, came: &mut String, mounts: &Mounts, asks: Question) -> Result<(), Bad> {
    match asks {
        Question::Fault => came.push_str("none")?,
        Question::Entries => write!(came, "{}", mounts.entries)?,
        Question::Seed => tell_seed(came, mounts.seed.as_slice())?,
        Question::Mounts => write!(came, "{}", mounts.mounts.len())?,
        Question::Tasks => write!(came, "{}", mounts.tasks.len())?,
        Question::Mount(place) => tell_mount(came, mounts.mounts.as_slice(), place)?,
        Question::Copy(place) => tell_copy(alloc, came, mounts.mounts.as_slice(), place)?,
        Question::Task(place) => tell_task_at(came, mounts.tasks.as_slice(), place)?,
        Question::Arguments(place) => tell_argument_count(came, mounts.tasks.as_slice(), place)?,
    }
    Ok(())
}

fn tell_read(alloc: Global, came: &mut String, bytes: &[u8], asks: Question) -> Result<(), Bad> {
    match read_mounts(alloc, bytes) {
        Ok(mounts) => tell(alloc, came, &mounts, asks),
        Err(MountFault::Memory) => Err(Bad::Memory),
        Err(fault) => {
            write!(came, "{fault:?}")?;
            Ok(())
        }
    }
}

fn tell_draft(alloc: Global, came: &mut String, draft: &Draft, asks: Question) -> Result<(), Bad> {
    let bytes = draft.bytes(alloc)?;
    tell_read(alloc, came, bytes.as_slice(), asks)
}

/// Adds the bytes of a line one by one, and takes the fault of the file behind each of them.
fn cut_at_each(
    alloc: Global,
    came: &mut String,
    draft: &mut Draft,
    line: &[u8],
    runs: &mut Runs,
) -> Result<(), Bad> {
    let mut fault = String::new(alloc);
    for (index, byte) in line.iter().enumerate() {
        draft.add_bytes(&[*byte])?;
        fault.clear();
        tell_draft(alloc, &mut fault, draft, Question::Fault)?;
        runs.add(index.saturating_add(1), fault.as_str(), came)?;
    }
    Ok(())
}

fn cut(alloc: Global, came: &mut String, draft: &mut Draft, line: &str) -> Result<(), Bad> {
    let mut bytes = Vec::new(alloc);
    add_text(&mut bytes, line)?;
    bytes.push(b'\n')?;
    let mut runs = Runs::new(alloc);
    cut_at_each(alloc, came, draft, bytes.as_slice(), &mut runs)?;
    runs.end(came)
}

/// What a case asks about the draft as it is, a text that it puts into the gap with it. `None`: it is no question.
fn asked(draft: &mut Draft, verb: &str, rest: &str) -> Result<Option<Question>, Bad> {
    if verb != "with" {
        return Ok(question_of(verb, rest));
    }
    if draft.put(rest)? {
        Ok(Some(Question::Fault))
    } else {
        Ok(None)
    }
}

/// Adds the answer to a question about a mount file: `unread` where it is none.
pub fn ask(alloc: Global, draft: &mut Draft, case: &str, came: &mut String) -> Result<(), Bad> {
    let (verb, rest) = parted(case);
    if verb == "cut" {
        return cut(alloc, came, draft, rest);
    }
    match asked(draft, verb, rest)? {
        Some(asks) => tell_draft(alloc, came, draft, asks),
        None => {
            came.push_str("unread")?;
            Ok(())
        }
    }
}
