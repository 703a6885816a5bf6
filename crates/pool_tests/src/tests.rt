//! How pools end.

ghost use Rattle.std.specs.Prelude.{◌≡◌, ◌<◌, ◌≤◌, IfOk, true};
ghost use Rattle.std.specs.List.{list_all};
ghost use Rattle.worker_pool.specs.Accounts.{may_go};
ghost use Rattle.pool_turn.specs.declared.turn.Last.TheVariants.{New};

use crate::holding::Held;
use crate::job::{Job, Part};
use crate::stage::{Board, Stage};
use pool_turn::{Gate, Last, Open};
use std::alloc::{AllocError, Global};
use std::process::Abort;
use std::sync::{Mutex, Wait};
use std::test::*;
use std::thread::Threads;
use worker_pool::{Pool, PoolEnd, Tried};

/// How a pool is to end.
#[derive(Drop, Clone, Copy)]
enum Want {
    /// So many tasks are over, and none is left.
    AllEnded(usize),
    /// So many are parked, so many over, and so many turns answered anything but Parked.
    Stuck(usize, usize, u64),
    /// So many are over or left.
    Full(usize),
    Memory,
}

/// The tasks of a pool: the first, with its turns; the others, so many, with theirs; how many numbers there are in
/// all, for children too.
#[derive(Drop, Clone, Copy)]
struct Row {
    first: (Part, u32),
    others: (Part, u32),
    count: u32,
    most: u32,
    want: Want,
}

/// What came back.
#[derive(Drop)]
struct Came {
    left: usize,
    ended: usize,
    sum: u32,
}

#[rattlefmt::skip]
const ROWS: [Row; 15] = [
    Row { first: (Part::Counts, 10), others: (Part::Counts, 10), count: 0, most: 1, want: Want::AllEnded(1) },
    Row { first: (Part::Counts, 0), others: (Part::Counts, 50), count: 2, most: 3, want: Want::AllEnded(3) },
    Row { first: (Part::Counts, 20), others: (Part::Counts, 10), count: 255, most: 256, want: Want::AllEnded(256) },
    Row { first: (Part::Passes, 0), others: (Part::Passes, 0), count: 255, most: 256, want: Want::AllEnded(256) },
    Row { first: (Part::Passes, 0), others: (Part::Passes, 0), count: 2, most: 3, want: Want::AllEnded(3) },
    Row { first: (Part::Passes, 3_333), others: (Part::Passes, 3_333), count: 2, most: 3, want: Want::AllEnded(3) },
    Row { first: (Part::Forks, 0), others: (Part::Forks, 0), count: 0, most: 256, want: Want::AllEnded(256) },
    Row { first: (Part::Forks, 0), others: (Part::Counts, 100), count: 2, most: 300, want: Want::AllEnded(300) },
    Row { first: (Part::Parks, 0), others: (Part::Parks, 0), count: 0, most: 1, want: Want::Stuck(1, 0, 0) },
    Row { first: (Part::Parks, 0), others: (Part::Parks, 0), count: 255, most: 256, want: Want::Stuck(256, 0, 0) },
    Row { first: (Part::Parks, 0), others: (Part::Counts, 40), count: 2, most: 3, want: Want::Stuck(1, 2, 82) },
    Row { first: (Part::Parks, 0), others: (Part::Forks, 0), count: 1, most: 100, want: Want::Stuck(1, 99, 197) },
    Row { first: (Part::Fills, 7), others: (Part::Counts, 1_000_000), count: 255, most: 256, want: Want::Full(256) },
    Row { first: (Part::Loses, 7), others: (Part::Counts, 1_000_000), count: 255, most: 256, want: Want::Memory },
    Row { first: (Part::Loses, 0), others: (Part::Parks, 0), count: 2, most: 3, want: Want::Memory },
];

fn new_job(alloc: Global, number: u32, part: Part, left: u32) -> Job
    ensures { result.last ≡ New }
{
    Job {
        number,
        part,
        left,
        children: Vec::new(alloc),
        last: Last::New,
    }
}

/// The tasks of a row.
fn jobs(alloc: Global, row: &Row) -> Result<Vec<Job>, AllocError>
    ensures { IfOk result (λ v. list_all (λ j. may_go j.last) v.items ≡ true) }
{
    let mut jobs = Vec::new(alloc);
    jobs.push(new_job(alloc, 0, row.first.0, row.first.1))?;
    for number in 0..row.count {
        jobs.push(new_job(alloc, number.saturating_add(1), row.others.0, row.others.1))?;
    }
    Ok(jobs)
}

fn sum_left(tasks: &[Tried<Job>]) -> u32 {
    tasks
        .iter()
        .fold(0, |sum: u32, tried| sum.wrapping_add(tried.task.number))
}

fn sum_ended(tasks: &[Job]) -> u32 {
    tasks
        .iter()
        .fold(0, |sum: u32, job| sum.wrapping_add(job.number))
}

/// How many came back, and the sum of their numbers.
fn come_back(tasks: &[Tried<Job>], ended: &[Job]) -> Came {
    Came {
        left: tasks.len(),
        ended: ended.len(),
        sum: sum_left(tasks).wrapping_add(sum_ended(ended)),
    }
}

// The sum of the numbers below this.
fn sum_below(count: usize) -> u32 {
    (0..count).fold(
        0,
        |sum: u32, number| sum.wrapping_add((number % 65536) as u32),
    )
}

/// A pool of these tasks ends as it is to.
fn ends_so<G: Gate, R: Threads + Wait + Abort + Sync>(
    rt: &R,
    alloc: Global,
    gate: &G,
    row: &Row,
    workers: usize,
) -> Result<(), Fail>
    requires { (0 < workers) × (workers ≤ 16) }
{
    let stage = Stage {
        alloc,
        board: Mutex::new(Board {
            token: 0,
            next: row.count.saturating_add(1),
        }),
        ring: row.most,
        most: row.most,
    };
    let jobs = jobs(alloc, row)?;
    match (Pool::run(rt, alloc, &stage, gate, jobs, workers), row.want) {
        (PoolEnd::AllEnded { ended }, Want::AllEnded(count)) => {
            assert_eq!(rt; (ended.len(), sum_ended(&ended)), (count, sum_below(count)));
        }
        (
            PoolEnd::Stuck {
                tasks,
                ended,
                turns,
            },
            Want::Stuck(parked, over, count),
        ) => {
            let came = come_back(&tasks, &ended);
            assert_eq!(rt; (came.left, came.ended, turns), (parked, over, count));
            assert_eq!(rt; came.sum, sum_below(parked.wrapping_add(over)));
        }
        (PoolEnd::Full { tasks, ended }, Want::Full(count)) => {
            let came = come_back(&tasks, &ended);
            assert_eq!(rt; came.left.wrapping_add(came.ended), count);
            assert_eq!(rt; came.sum, sum_below(count));
        }
        (PoolEnd::Memory, Want::Memory) => {}
        _ => assert!(rt; false, "another end"),
    }
    Ok(())
}

fn each_number_of_workers<R: Threads + Wait + Abort + Sync>(
    rt: &R,
    alloc: Global,
    row: &Row,
) -> Result<(), Fail> {
    for workers in [1, 2, 4, 16] {
        ends_so(rt, alloc, &Open, row, workers)?;
    }
    Ok(())
}

/// Each row a thousand times, by each number of workers as often.
fn a_thousand_times<R: Threads + Wait + Abort + Sync>(
    rt: &R,
    alloc: Global,
    rows: &[Row],
) -> Result<(), Fail> {
    for _ in 0..250 {
        for row in rows {
            each_number_of_workers(rt, alloc, row)?;
        }
    }
    Ok(())
}

#[test]
fn tasks_that_count_or_pass_a_token_are_all_over(rt: HostRuntime) -> Result<(), Fail> {
    a_thousand_times(&rt, rt.alloc(), &ROWS[..6])
}

#[test]
fn tasks_that_fork_are_all_over_and_those_that_park_are_stuck(rt: HostRuntime) -> Result<(), Fail> {
    a_thousand_times(&rt, rt.alloc(), &ROWS[6..12])
}

#[test]
fn a_full_turn_and_one_without_memory_end_the_pool(rt: HostRuntime) -> Result<(), Fail> {
    a_thousand_times(&rt, rt.alloc(), &ROWS[12..])
}

#[test]
fn two_turns_overlap(rt: HostRuntime) -> Result<(), Fail> {
    let alloc = rt.alloc();
    for workers in [2, 4, 16] {
        let gate = Held::new();
        ends_so(&rt, alloc, &gate, &ROWS[1], workers)?;
        assert!(rt;
            gate.met(&rt),
            "another worker passed while the first was held"
        );
    }
    Ok(())
}
