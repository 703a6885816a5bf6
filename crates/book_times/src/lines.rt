//! What was measured, as lines.

use crate::failure::Failure;
use crate::measures::{PAGES, RowTimes, Times};
use crate::rows::{ROWS, Row};

/// How many rounds each thread makes in each row, and whether times are told.
#[derive(Clone, Copy)]
pub struct Plan {
    pub rounds: u64,
    pub is_timed: bool,
}

/// Prints the line of the pages, and that of each row.
pub fn tell_all(rt: &HostRuntime, plan: Plan, times: &Times) -> Result<(), Failure> {
    if plan.is_timed {
        println!(rt; "pages: {PAGES} made in {} us", times.making.as_micros())?;
    } else {
        println!(rt; "pages: {PAGES}")?;
    }
    for (row, spent) in ROWS.iter().zip(times.rows.iter()) {
        tell(rt, plan, row, *spent)?;
    }
    Ok(())
}

/// Prints the line of a row: nanoseconds of the clock for each round of a thread.
fn tell(rt: &HostRuntime, plan: Plan, row: &Row, spent: RowTimes) -> Result<(), Failure> {
    if plan.is_timed {
        let rounds = u128::from(plan.rounds.max(1));
        let tied = spent.tied.as_nanos() / rounds;
        let locked = spent.locked.as_nanos() / rounds;
        println!(rt; "{}: tied {tied} ns, locked {locked} ns", row.name)?;
    } else {
        println!(rt; "{}: done", row.name)?;
    }
    Ok(())
}
