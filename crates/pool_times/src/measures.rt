//! What is measured: turns that compute, turns that do nothing, and a mutex.

ghost use Rattle.std.specs.Prelude.{◌≡◌, ◌<◌, ◌≤◌, true, IfOk};
ghost use Rattle.std.specs.List.{list_all};
ghost use Rattle.worker_pool.specs.Accounts.{may_go};

use crate::failure::Failure;
use crate::tasks::{Computation, Computing};
use pool_turn::{Last, Open};
use std::alloc::Global;
use std::sync::{Mutex, Wait};
use std::thread::Threads;
use std::time::{Duration, Instant};
use worker_pool::{Pool, PoolEnd};

/// How many turns a task has, and whether times are told.
#[derive(Clone, Copy)]
pub struct Plan {
    pub rounds: u64,
    pub is_timed: bool,
}

/// How many tasks there are.
const TASKS: u32 = 8;

/// How many steps a turn computes that is to take some tenths of a millisecond.
const STEPS: u64 = 100_000;

/// The tasks, each before its first turn.
#[tactic(auto, using(crate::proofs::Lists::all_with_one))]
fn fresh(alloc: Global, turns: u64) -> Result<Vec<Computation>, Failure>
    ensures { IfOk result (λ tasks. list_all (λ t. may_go t.last) tasks.items ≡ true) }
{
    let mut tasks = Vec::new(alloc);
    for number in 0..TASKS {
        tasks.push(Computation {
            number,
            turns,
            value: u64::from(number) + 1,
            last: Last::New,
        })?;
    }
    Ok(tasks)
}

/// Runs all tasks to their end, and answers how long that took. Threads and waits are asked of `threads`.
fn run_all<R: Threads + Wait + Sync>(
    rt: &HostRuntime,
    threads: &R,
    turn: &Computing,
    turns: u64,
    workers: usize,
) -> Result<Duration, Failure>
    requires { (0 < workers) × (workers ≤ 16) }
{
    let tasks = fresh(rt.alloc(), turns)?;
    let start = Instant::now(rt)?;
    let end = Pool::run(threads, rt.alloc(), turn, &Open, tasks, workers);
    let spent = start.elapsed(rt)?;
    match end {
        PoolEnd::AllEnded { .. } => Ok(spent),
        PoolEnd::Memory => Err(Failure::Memory),
        _ => Err(Failure::Unfinished),
    }
}

/// Locks a mutex and lets it go so many times.
fn lock_all<R: Wait>(rt: &HostRuntime, threads: &R, times: u64) -> Result<Duration, Failure> {
    let mutex = Mutex::new(0_u64);
    let start = Instant::now(rt)?;
    for _ in 0..times {
        let mut guard = mutex.lock(threads);
        *guard = guard.wrapping_add(1);
    }
    Ok(start.elapsed(rt)?)
}

/// Prints a line: what was done by so many workers, and, where times are told, how many nanoseconds one of so many
/// took.
fn tell(
    rt: &HostRuntime,
    plan: Plan,
    what: &str,
    workers: usize,
    spent: Duration,
) -> Result<(), Failure> {
    let times = u128::from(plan.rounds.max(1)) * u128::from(TASKS);
    if plan.is_timed {
        let each = spent.as_nanos() / times;
        println!(rt; "{what} by {workers}: {each} ns each")?;
    } else {
        println!(rt; "{what} by {workers}: done")?;
    }
    Ok(())
}

/// Turns by so many workers.
fn measure_turns<R: Threads + Wait + Sync>(
    rt: &HostRuntime,
    threads: &R,
    plan: Plan,
    what: &str,
    turn: &Computing,
    workers: usize,
) -> Result<(), Failure>
    requires { (0 < workers) × (workers ≤ 16) }
{
    let spent = run_all(rt, threads, turn, plan.rounds, workers)?;
    tell(rt, plan, what, workers, spent)
}

/// All of it.
pub fn measure<R: Threads + Wait + Sync>(
    rt: &HostRuntime,
    threads: &R,
    plan: Plan,
) -> Result<(), Failure> {
    for workers in [1, 2, 4] {
        let spent = run_all(
            rt,
            threads,
            &Computing { steps: STEPS },
            plan.rounds,
            workers,
        )?;
        tell(rt, plan, "turns that compute,", workers, spent)?;
    }
    for workers in [1, 4] {
        let spent = run_all(rt, threads, &Computing { steps: 0 }, plan.rounds, workers)?;
        tell(rt, plan, "turns that do nothing,", workers, spent)?;
    }
    let times = plan.rounds.saturating_mul(u64::from(TASKS));
    let spent = lock_all(rt, threads, times)?;
    tell(rt, plan, "a mutex, locked and let go", 1, spent)
}
