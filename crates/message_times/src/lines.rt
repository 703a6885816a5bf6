//! What was measured of a message, as a line.

use crate::failure::Failure;
use std::time::Duration;

/// How often a message is put and read, and whether its times are told.
#[derive(Clone, Copy)]
pub struct Plan {
    pub rounds: u64,
    pub is_timed: bool,
}

/// What was measured of a message: its name, how many bytes it has, and how long all rounds took.
#[derive(Clone, Copy)]
pub struct Measured<'a> {
    pub kind: &'a str,
    pub name: &'a str,
    pub size: usize,
    pub putting: Duration,
    pub reading: Duration,
}

/// Nanoseconds of one round.
fn of_one(time: Duration, rounds: u64) -> u128 {
    time.as_nanos() / u128::from(rounds.max(1))
}

/// Prints the line of a message.
pub fn tell(rt: &HostRuntime, plan: Plan, row: Measured<'_>) -> Result<(), Failure> {
    if plan.is_timed {
        let putting = of_one(row.putting, plan.rounds);
        let reading = of_one(row.reading, plan.rounds);
        println!(rt;
            "{} {}: {} bytes, put in {putting} ns, read in {reading} ns",
            row.kind, row.name, row.size
        )?;
    } else {
        println!(rt; "{} {}: {} bytes", row.kind, row.name, row.size)?;
    }
    Ok(())
}

/// Prints the line of a copy.
pub fn tell_copy(
    rt: &HostRuntime,
    plan: Plan,
    size: usize,
    copying: Duration,
) -> Result<(), Failure> {
    if plan.is_timed {
        println!(rt; "copy: {size} bytes in {} ns", of_one(copying, plan.rounds))?;
    } else {
        println!(rt; "copy: {size} bytes")?;
    }
    Ok(())
}
