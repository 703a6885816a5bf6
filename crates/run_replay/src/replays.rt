//! The trace of a run, done again by the plain kernel.

ghost use Rattle.std.specs.Prelude.{◌≡◌, ◌≤◌, ◌+◌, nat_lt, length, take, Option, Some, IfOk};
ghost use Rattle.mount_file.specs.declared.mounts.Mounts.{Mounts as MountFile};
ghost use Rattle.run_replay.specs.Lines.{replay_status};
ghost use Rattle.run_replay.specs.Replays.{Fits, Says, course_of};

use host_node::Tree;
use kernel_model::{Entry, Trace};
use mount_file::{MOST_ENTRIES, MOST_TASKS};
use plain_kernel::{OpeningErr, Plain};
use sentry_run::{Outcome, printed_text};
use sn_base::{List, Memory};
use std::alloc::Global;

/// What doing a trace again came to.
///
/// - `Same`: all entries are steps, so many, and lead to the text of the run.
/// - `Unopened`: there is no kernel to begin with. It names the task that the plain kernel did not open, or 0 where
///   there is no mount file.
/// - `Step`: so many entries are steps, and the next is none.
/// - `Text`: all are steps, and lead to another text, that begins alike for so many bytes.
/// - `Beyond`: more tasks or entries than a run has.
#[derive(Clone, Copy, Debug, PartialEq, Eq)]
pub enum Replayed {
    Same { entries: usize },
    Unopened { task: u32 },
    Step { done: usize },
    Text { same: usize },
    Beyond,
}

impl Replayed {
    /// The exit status of the program: 0 where the trace leads to the same.
    pub fn status(self) -> u8
        ensures { result ≡ replay_status self }
    {
        match self {
            Replayed::Same { .. } => 0,
            Replayed::Unopened { .. } => 1,
            Replayed::Step { .. } => 1,
            Replayed::Text { .. } => 1,
            Replayed::Beyond => 1,
        }
    }
}

/// Does entries one after another until one is no step, and answers how many were.
fn fitting(alloc: Global, plain: &mut Plain, trace: &[Entry]) -> Result<usize, Memory>
    requires room { plain.old.kernel.entries + length trace.now ≤ MOST_ENTRIES }
    ensures { IfOk result (λ count. Fits plain.old.kernel trace.now count plain.new.kernel) }
{
    for (index, entry) in trace.iter().enumerate() {
        if !plain.step(alloc, entry)? {
            return Ok(index);
        }
    }
    Ok(trace.len())
}

/// How many bytes two texts begin alike with.
fn alike(one: &[u8], other: &[u8]) -> usize
    ensures { take result one.now ≡ take result other.now }
{
    for index in 0..one.len().min(other.len()) {
        if one[index] != other[index] {
            return index;
        }
    }
    one.len().min(other.len())
}

/// Whether a kernel would make more entries than one makes, with so many more.
fn is_beyond(entries: u64, more: usize) -> bool
    ensures { result ≡ nat_lt MOST_ENTRIES (entries + more) }
{
    entries > MOST_ENTRIES || more as u64 > MOST_ENTRIES - entries
}

/// Does a trace again from where a plain kernel stands, and compares its text then with another.
fn done_again(
    alloc: Global,
    plain: &mut Plain,
    trace: &Trace,
    flag: bool,
    text: &[u8],
) -> Result<Replayed, Memory>
    ensures { (mounts : Option MountFile) → IfOk result (Says mounts
        (record { start = Some plain.old.kernel; trace = trace.now; flag = flag; text = text.now })) }
{
    if is_beyond(plain.kernel.entries, trace.len()) {
        return Ok(Replayed::Beyond);
    }
    let done = fitting(alloc, plain, trace.as_slice())?;
    if done < trace.len() {
        return Ok(Replayed::Step { done });
    }
    let printed = printed_text(alloc, &plain.kernel, trace, flag)?;
    if printed.as_slice() == text {
        Ok(Replayed::Same { entries: done })
    } else {
        Ok(Replayed::Text {
            same: alike(printed.as_slice(), text),
        })
    }
}

/// Does the trace of a run again, from its opening over the trees that it was granted, and compares the text then, with
/// the trace where `flag` says so, with its own.
pub fn replay_run(
    alloc: Global,
    outcome: &Outcome,
    trees: &List<Tree>,
    flag: bool,
    text: &[u8],
) -> Result<Replayed, Memory>
    ensures { IfOk result (Says outcome.now.mounts (course_of outcome.now trees.now flag text.now)) }
{
    let Some(mounts) = &outcome.mounts else {
        return Ok(Replayed::Unopened { task: 0 });
    };
    if mounts.tasks.len() > MOST_TASKS {
        return Ok(Replayed::Beyond);
    }
    match Plain::opening(alloc, mounts, trees, &outcome.opening) {
        Ok(mut plain) => done_again(alloc, &mut plain, &outcome.trace, flag, text),
        Err(OpeningErr::Memory) => Err(Memory),
        Err(OpeningErr::Image { task, .. }) => Ok(Replayed::Unopened { task }),
        Err(OpeningErr::Misfit { task }) => Ok(Replayed::Unopened { task }),
    }
}
