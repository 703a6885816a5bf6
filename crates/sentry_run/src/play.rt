//! The opening of a run and its turns, over the granted folder of the mount at `/`.

ghost use Rattle.std.specs.Prelude.{◌≡◌, ◌≤◌, [], length, None, Some, IfOk, IfSome, IsSome};
ghost use Rattle.std.specs.List.{flat_map};
ghost use Rattle.host_node.specs.Tree.{Shape};
ghost use Rattle.mount_file.specs.Form.{HasForm};
ghost use Rattle.kernel_model.specs.files.Numbers.{IsGapless, count_up, numbers_opened, numbers_in};
ghost use Rattle.image_walk.specs.Granted.{CanGiveBack, told_of};
ghost use Rattle.image_walk.specs.Standing.{StandsLent};
ghost use Rattle.image_walk.specs.Walking.{IsRoot};
ghost use Rattle.run_opening.specs.Openings.{numbering_of};
ghost use Rattle.run_opening.specs.Told.{kernel_told, trees_told};
ghost use Rattle.run_opening.specs.Trees.{AreOthers, Others};
ghost use Rattle.sentry_run.specs.Played.{EndsOver, end_of_opening, RanFrom, TraceOf, first_of, nothing_opened};
ghost use Rattle.sentry_run.specs.Stopped.{EndsAs, FinishesAs, IsInner};

use call_table::{EndedTurns, Processes, run_turns};
use host_node::HostNode;
use image_walk::Granted;
use kernel_model::{Kernel, Opening, Trace};
use mount_file::{Mount, Mounts, copied_mounts};
use run_opening::{OpenErr, open_tasks};
use sn_base::{List, Memory};
use sn_errno::Errno;
use std::alloc::Global;

/// How the opening and the run ended: no task lives, the trace is full, no live task's next step is ready, the opening
/// execve of a task answers an error, the host failed in a grant, there is no such folder as that of the mount of that
/// number, from 1 on, or memory ran out.
#[derive(Drop)]
pub enum End {
    Done(Kernel),
    Full(Kernel),
    Stuck(Kernel),
    Image { task: u32, errno: Errno },
    HostFault,
    Grant { mount: u32 },
    Memory,
}

/// An opening and a run.
#[derive(Drop)]
pub struct Played {
    pub end: End,
    pub opening: Opening,
    pub trace: Trace,
}

/// The record of an opening that did not come to be.
pub fn no_opening(alloc: Global) -> Opening
    ensures { result ≡ nothing_opened }
{
    Opening {
        mounts: List::new(alloc),
        roots: List::new(alloc),
        tasks: List::new(alloc),
    }
}

/// An end before anything ran.
#[tactic(auto, using(crate::proofs::Records::gapless_nothing))]
pub fn stopped(alloc: Global, end: End) -> Played
    ensures numbers { IsGapless (numbers_opened result.opening) }
    ensures end { result.end ≡ end }
    ensures opening { result.opening ≡ nothing_opened }
    ensures trace { result.trace ≡ [] }
{
    Played {
        end,
        opening: no_opening(alloc),
        trace: List::new(alloc),
    }
}

/// The inode numbers of the roots of mounts: 1 up, in their order.
fn root_numbers(alloc: Global, mounts: &[Mount]) -> Result<List<u64>, Memory>
    ensures { IfOk result (λ roots. roots ≡ count_up 1 (length mounts.now)) }
{
    let mut roots = List::new(alloc);
    for index in 0..mounts.len() {
        roots.push(index as u64 + 1)?;
    }
    Ok(roots)
}

/// The record of an opening before its first task: the mounts, and the numbers of their roots.
fn first_record(alloc: Global, mounts: &Mounts) -> Result<Opening, Memory>
    ensures { IfOk result (λ o. o ≡ first_of mounts.now) }
{
    Ok(Opening {
        mounts: copied_mounts(alloc, mounts.mounts.as_slice())?,
        roots: root_numbers(alloc, mounts.mounts.as_slice())?,
        tasks: List::new(alloc),
    })
}

/// Runs processes, from their opening on, beside the granted folder of the mount at `/`, into which no turn goes.
fn run_processes<N: HostNode>(
    alloc: Global,
    mounts: &Mounts,
    granted: &Granted<N>,
    processes: Processes,
    opening: Opening,
) -> Played
    ensures ran { (others : Others) →
        IfSome (kernel_told mounts.now
        (trees_told others (N.told granted.now.root) (told_of N.told granted.now.lent.items)) processes 0)
        (λ k. RanFrom mounts.now (trees_told others (N.told granted.now.root) (told_of N.told granted.now.lent.items)) k
        result.end result.trace) }
    ensures opening { result.opening ≡ opening }
    ensures drawn { flat_map numbers_in result.trace ≡ [] }
    ensures inner { IsInner result.end }
    ensures trace { TraceOf mounts.now.entries result.end result.trace }
    ensures bound { length result.trace ≤ mounts.now.entries }
{
    let ran = run_turns(alloc, processes, mounts.seed.as_slice(), mounts.entries);
    finished(alloc, ran, opening, mounts.entries)
}

/// How a run that may make so many entries has ended.
fn finished(alloc: Global, ran: EndedTurns, opening: Opening, entries: u64) -> Played
    ensures end { FinishesAs ran.processes (length ran.trace) entries result.end }
    ensures inner { IsInner result.end }
    ensures trace { result.trace ≡ ran.trace }
    ensures opening { result.opening ≡ opening }
{
    let EndedTurns { processes, trace } = ran;
    let end = match processes {
        Some(processes) => ended(alloc, processes, trace.len() as u64, entries),
        None => End::Memory,
    };
    Played {
        end,
        opening,
        trace,
    }
}

/// How processes that stopped after so many entries of those allowed have ended. A full trace goes before tasks none
/// of which is ready.
fn ended(alloc: Global, processes: Processes, made: u64, entries: u64) -> End
    ensures as_stands { EndsAs processes made entries result }
    ensures inner { IsInner result }
{
    let Processes { cells, .. } = processes;
    let live = cells.any_live();
    let kernel = cells.into_kernel(alloc, made);
    if !live {
        End::Done(kernel)
    } else if made == entries {
        End::Full(kernel)
    } else {
        End::Stuck(kernel)
    }
}

/// An opening that ended before all its tasks had begun.
fn unbegun(alloc: Global, why: OpenErr, opening: Opening) -> Played
    ensures end { result.end ≡ end_of_opening why }
    ensures inner { IsInner result.end }
    ensures trace { result.trace ≡ [] }
    ensures opening { result.opening ≡ opening }
{
    let end = match why {
        OpenErr::Image { task, errno } => End::Image { task, errno },
        OpenErr::Memory => End::Memory,
    };
    Played {
        end,
        opening,
        trace: List::new(alloc),
    }
}

/// Opens and runs the tasks of a mount file over the granted folder of the mount at `/`, whatever the other mounts'
/// folders are. The children that were lent can then go back.
pub fn play_granted<N: HostNode>(alloc: Global, mounts: &Mounts, granted: &mut Granted<N>) -> Played
    requires form { HasForm mounts.now }
    requires root { IsRoot (N.told granted.old.root) }
    requires numbers { granted.old.numbers ≡ numbering_of mounts.now.mounts }
    requires stands { (t : Shape) → N.told granted.old.root ≡ Some t →
        StandsLent granted.old.numbers t [] [] (N.told granted.old.root) (told_of N.told granted.old.lent.items) }
    requires lent { granted.old.lent.items ≡ [] }
    ensures ended { (others : Others) (t : Shape) → AreOthers mounts.now.mounts others →
        N.told granted.old.root ≡ Some t →
        EndsOver mounts.now (trees_told others (N.told granted.new.root) (told_of N.told granted.new.lent.items)) t
        result }
    ensures silent { N.told granted.old.root ≡ None → N.told granted.new.root ≡ None }
    ensures tells { IsSome (N.told granted.old.root) → IsSome (N.told granted.new.root) }
    ensures can { CanGiveBack (N.told granted.new.root) (told_of N.told granted.new.lent.items) }
    ensures inner { IsInner result.end }
    ensures drawn { flat_map numbers_in result.trace ≡ [] }
    ensures trace { TraceOf mounts.now.entries result.end result.trace }
    ensures numbers { IsGapless (numbers_opened result.opening) }
    ensures bound { length result.trace ≤ mounts.now.entries }
{
    let mut opening = match first_record(alloc, mounts) {
        Ok(opening) => opening,
        Err(Memory) => return stopped(alloc, End::Memory),
    };
    let mut tasks = Vec::new(alloc);
    let opened = open_tasks(alloc, mounts, granted, &mut tasks);
    opening.tasks = List::from_vec(tasks);
    match opened {
        Ok(processes) => run_processes(alloc, mounts, granted, processes, opening),
        Err(why) => unbegun(alloc, why, opening),
    }
}
