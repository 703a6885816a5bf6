//! The program `pool_times`: how long a pool of workers takes for turns of tasks.
//!
//! `pool_times ROUNDS` has eight tasks compute, each for itself, with 1, 2 and 4 workers, and eight others take turns
//! that do nothing, with 1 and with 4 workers; then it locks a mutex and lets it go as often as these had turns. ROUNDS
//! says how many turns a task has. It prints a line for each. `pool_times ROUNDS times` prints too
//! how many nanoseconds of the clock a turn took. It ends with status 0 where all tasks were over, and else with 2.
//!
//! Proved: the functions here are safe.
//!
//! Not said: how long anything takes. `bench/pool` prints what was measured.
#![tactic(auto)]

mod failure;
mod measures;
mod tasks;

use failure::Failure;
use measures::{Plan, measure};
use std::env;
use std::process::ExitCode;
use std::sync::Wait;
use std::thread::Threads;

/// What the program's words ask for.
fn plan(rt: &HostRuntime) -> Result<Plan, Failure> {
    let mut words = env::args(rt)?.skip(1);
    let Some(rounds) = words.next() else {
        return Err(Failure::Words);
    };
    let Ok(rounds) = u64::from_str_radix(rounds.as_str(), 10) else {
        return Err(Failure::Words);
    };
    let is_timed = words.next().is_some_and(|word| word.as_str() == "times");
    Ok(Plan { rounds, is_timed })
}

fn run<R: Threads + Wait + Sync>(rt: &HostRuntime, threads: &R) -> Result<(), Failure> {
    measure(rt, threads, plan(rt)?)
}

fn main(rt: HostRuntime) -> ExitCode {
    match run(&rt, &rt) {
        Ok(()) => ExitCode::SUCCESS,
        Err(failure) => {
            let _ = eprintln!(rt; "{failure:?}");
            ExitCode::from(2)
        }
    }
}
