//! A pool of workers: how it is run.

ghost use Rattle.std.specs.Prelude.{◌≡◌, ◌≢◌, ◌≤◌, ◌<◌, ◌++◌, ◌&&◌, ◌==◌, ◌↔◌, [], true, map, flat_map};
ghost use Rattle.std.specs.List.{list_all, list_any};
ghost use Rattle.pool_places.specs.Ends.{left_of, over_of, IfKept, IfStuck, OnFull, IsAllEnded};
ghost use Rattle.worker_pool.specs.Accounts.{SameNumbers, tasks, may_go, is_parked, is_over, is_full};

use crate::crew::Crew;
use crate::handed::Handed;
use pool_places::PoolEnd;
use pool_ties::{OfTies, Opened};
use pool_turn::{Gate, Turn};
use std::alloc::Global;
use std::marker::Brand;
use std::sync::Wait;
use std::thread::{Threads, for_each_mut};

/// How many workers there may be.
pub const WORKERS: usize = 16;

// The workers' numbers.
const NUMBERS: [u32; WORKERS] = [0, 1, 2, 3, 4, 5, 6, 7, 8, 9, 10, 11, 12, 13, 14, 15];

/// A pool of workers.
pub struct Pool;

impl Pool {
    /// Runs turns of these tasks, and of those that they fork, by up to so many workers at once, the caller among them,
    /// until no turn can begin, and tells how it ended. Threads and waits are asked of `rt`: a worker has a thread of
    /// its own where one is to be had. Tasks have their turns in the order in which they are handed in. `Memory`: there
    /// was none to begin with, or a turn found none; the tasks are gone.
    pub fn run<T: Turn, G: Gate, R: Threads + Wait + Sync>(
        rt: &R,
        alloc: Global,
        turn: &T,
        gate: &G,
        handed: Vec<T::Task>,
        workers: usize,
    ) -> PoolEnd<T::Task>
        requires workers { (0 < workers) × (workers ≤ 16) }
        requires going { list_all (λ t. may_go (T.last t)) handed.items ≡ true }
        ensures all_ended { IfKept result (IsAllEnded result ↔
            list_all (λ t. is_over (T.last t)) (tasks (left_of result) ++ over_of result) ≡ true) }
        ensures numbers { IfKept result (SameNumbers T.number T.forked
            (map T.number handed.items) (flat_map T.forked handed.items) (tasks (left_of result) ++ over_of result)) }
        ensures over { list_all (λ t. is_over (T.last t)) (over_of result) ≡ true }
        ensures stuck { IfStuck result (λ n. (left_of result ≢ []) ×
            (list_all (λ t. is_parked (T.last t.task) && (t.began == n)) (left_of result) ≡ true)) }
        ensures full { OnFull result (list_any (λ t. is_full (T.last t.task)) (left_of result) ≡ true) }
    {
        let Ok(opened) = Opened::new(alloc) else {
            return PoolEnd::Memory;
        };
        run_named::<T, G, R, Brand>(rt, alloc, turn, gate, handed, workers, opened)
    }
}

// The same, with ties that have a name.
fn run_named<T: Turn, G: Gate, R: Threads + Wait + Sync, J: OfTies + Handed + Send + Sync>(
    rt: &R,
    alloc: Global,
    turn: &T,
    gate: &G,
    handed: Vec<T::Task>,
    workers: usize,
    opened: Opened,
) -> PoolEnd<T::Task>
    requires workers { (0 < workers) × (workers ≤ 16) }
    requires named { opened.table.shared.table_id ≡ J.ties }
    requires handed { J.handed ≡ map T.number handed.items }
    requires before { J.before ≡ flat_map T.forked handed.items }
    requires going { list_all (λ t. may_go (T.last t)) handed.items ≡ true }
    ensures numbers { IfKept result (
        SameNumbers T.number T.forked J.handed J.before (tasks (left_of result) ++ over_of result)) }
    ensures over { list_all (λ t. is_over (T.last t)) (over_of result) ≡ true }
    ensures stuck { IfStuck result (λ n. (left_of result ≢ []) ×
        (list_all (λ t. is_parked (T.last t.task) && (t.began == n)) (left_of result) ≡ true)) }
    ensures full { OnFull result (list_any (λ t. is_full (T.last t.task)) (left_of result) ≡ true) }
{
    let Ok(crew) = Crew::<T, J>::new(alloc, opened, handed) else {
        return PoolEnd::Memory;
    };
    let mut numbers = NUMBERS;
    for_each_mut(
        rt,
        &mut numbers[..workers],
        workers,
        &|_, number| { crew.work(rt, turn, gate, *number) },
    );
    crew.close(rt, alloc)
}
