//! The program `book_times`: how long rounds take over pages that are tied to one book, beside locks alone.
//!
//! `book_times ROUNDS` makes 65,536 pages and so many rounds for each row of `rows.rt`, of one thread or of four, over
//! pages of their own or over the same: a round holds one page, or looks at three and holds two, adds 1 to what it
//! holds and appends an entry. Then it does the same over numbers behind locks, with a list of entries behind another.
//! It prints a line for each row. `book_times ROUNDS times` prints too how many nanoseconds of the clock a round of a
//! thread took, and how long it took to make the pages. It ends with status 0 where all rounds were made, and else with
//! 2.
//!
//! Proved: the functions here are safe, and what each round's change makes is what its entry says.
//!
//! Not said: how long anything takes. `bench/books` prints what was measured.
//!
//! Locks: those of `tied_cells`, and of `Locked`, which holds numbers in the order in which they stand, and the list of
//! entries last.
#![tactic(auto)]

mod failure;
mod lines;
mod locked;
mod machine;
mod measures;
mod rows;
mod tied;

use failure::Failure;
use lines::{Plan, tell_all};
use measures::{Times, measure};
use std::alloc::AllocGlobal;
use std::env;
use std::marker::Brand;
use std::process::ExitCode;
use std::sync::Wait;
use std::thread::Threads;
use std::time::Clock;

/// What the program's words ask for.
fn plan(rt: &HostRuntime) -> Result<Plan, Failure> {
    let mut words = env::args(rt)?.skip(1);
    let Some(rounds) = words.next() else {
        return Err(Failure::Words);
    };
    let Ok(rounds) = u64::from_str_radix(rounds.as_str(), 10) else {
        return Err(Failure::Words);
    };
    let is_timed = words.next().is_some_and(|word| word.as_str() == "times");
    Ok(Plan { rounds, is_timed })
}

/// Makes the tables, and measures under their name.
fn run<R: Threads + Wait + Clock + AllocGlobal + Sync>(
    rt: &R,
    plan: Plan,
) -> Result<Times, Failure> {
    let alloc = rt.alloc();
    let history = hist_count::Opened::new(alloc)?;
    let ties = sn_ties::Opened::new(alloc)?;
    measure::<Brand, R>(rt, alloc, plan.rounds, history, ties)
}

/// What the program answers by its status.
fn status(rt: &HostRuntime, plan: Plan, ran: Result<Times, Failure>) -> ExitCode {
    match ran.and_then(|times| tell_all(rt, plan, &times)) {
        Ok(()) => ExitCode::SUCCESS,
        Err(failure) => refuse(rt, failure),
    }
}

fn refuse(rt: &HostRuntime, failure: Failure) -> ExitCode {
    let _ = eprintln!(rt; "{failure:?}");
    ExitCode::from(2)
}

fn main(rt: HostRuntime) -> ExitCode {
    match plan(&rt) {
        Ok(plan) => status(&rt, plan, run(&rt, plan)),
        Err(failure) => refuse(&rt, failure),
    }
}
