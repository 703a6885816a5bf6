//! The program `message_times`: how long LISAFS messages take to be put and to be read.
//!
//! `message_times ROUNDS` puts and reads a message of each kind so many times, a PWrite and the answer to a PRead with
//! as much data as may be among them, and prints for each how many bytes it has. `message_times ROUNDS times` prints
//! too how many nanoseconds of the clock a round took, and how many a copy of that data. It ends with status 0 where
//! each message was read and put as it was, and else with 2.
//!
//! Proved: the functions here are safe, and end.
//!
//! Not said: how long anything takes. `bench/messages` prints what was measured.
#![tactic(auto)]

mod bytes;
mod failure;
mod lines;
mod measures;
mod rounds;
mod rows;

use failure::Failure;
use lines::Plan;
use measures::measure;
use std::env;
use std::process::ExitCode;

/// What the program's words ask for.
fn plan(rt: &HostRuntime) -> Result<Plan, Failure> {
    let mut words = env::args(rt)?.skip(1);
    let Some(rounds) = words.next() else {
        return Err(Failure::Words);
    };
    let Ok(rounds) = u64::from_str_radix(rounds.as_str(), 10) else {
        return Err(Failure::Words);
    };
    let is_timed = words.next().is_some_and(|word| word.as_str() == "times");
    Ok(Plan { rounds, is_timed })
}

fn run(rt: &HostRuntime) -> Result<(), Failure> {
    measure(rt, plan(rt)?)
}

fn main(rt: HostRuntime) -> ExitCode {
    match run(&rt) {
        Ok(()) => ExitCode::SUCCESS,
        Err(failure) => {
            let _ = eprintln!(rt; "{failure:?}");
            ExitCode::from(2)
        }
    }
}
