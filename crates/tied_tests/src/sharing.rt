//! Four threads that move between two counters, and two that come to a book's limit.

ghost use Rattle.std.specs.Prelude.{◌≡◌};

use crate::kernel::Kernel;
use crate::machine::{Entry, Part, Tally};
use crate::racing::{COUNTER, PAIR, entries_of};
use hist_count::OfHistory;
use sn_ties::OfTies;
use std::alloc::Global;
use std::sync::Wait;
use std::thread::{Threads, join};
use tied_cells::{Page, Round, RoundCheck, Seat, Setup};

/// The key of the counter that has all at first.
pub const FULL: u64 = 1;

/// What the moves came to: what both counters have together, how many moves were made, and the number of entries.
#[derive(Drop)]
pub struct Moves {
    pub sum: u64,
    pub made: u64,
    pub entries: u64,
}

/// Two threads move 1 from one counter to another, and two move it back, each so many times.
pub fn move_all<J: OfHistory + OfTies + Send + Sync, R: Threads + Wait + Sync>(
    rt: &R,
    alloc: Global,
    history: hist_count::Opened<Entry>,
    ties: sn_ties::Opened<u64>,
    times: u64,
) -> Option<Moves>
    requires history { history.table.shared.table_id ≡ J.history }
    requires ties { ties.table.shared.table_id ≡ J.ties }
{
    let mut setup: Setup<Tally, J> = Setup::new(history, ties);
    let low = setup.page(FULL, Part::Counter(1000))?;
    let high = setup.page(COUNTER, Part::Counter(0))?;
    let one = setup.seat()?;
    let two = setup.seat()?;
    let three = setup.seat()?;
    let four = setup.seat()?;
    let mut last = setup.seat()?;
    let kernel = Kernel {
        book: setup.book(alloc, 1 << 20),
    };
    let ((a, b), (c, d)) = join(
        rt,
        || {
            join(
                rt,
                || shift_all(rt, alloc, &kernel, one, &low, &high, true, times),
                || shift_all(rt, alloc, &kernel, two, &low, &high, false, times),
            )
        },
        || {
            join(
                rt,
                || shift_all(rt, alloc, &kernel, three, &low, &high, true, times),
                || shift_all(rt, alloc, &kernel, four, &low, &high, false, times),
            )
        },
    );
    let made = a.saturating_add(b).saturating_add(c).saturating_add(d);
    let sum = count_of(rt, &kernel, &low)?.checked_add(count_of(rt, &kernel, &high)?)?;
    let entries = entries_of(rt, alloc, &kernel.book, &mut last)?;
    Some(Moves { sum, made, entries })
}

/// Moves so many times, and answers how often there was one to move.
fn shift_all<J: OfHistory + OfTies, R: Wait>(
    rt: &R,
    alloc: Global,
    kernel: &Kernel<J>,
    mut seat: Seat<Tally, J>,
    low: &Page<Tally, J>,
    high: &Page<Tally, J>,
    upward: bool,
    times: u64,
) -> u64 {
    let mut made = 0_u64;
    for _ in 0..times {
        if kernel
            .shift(rt, alloc, &mut seat, low, high, upward)
            .is_some()
        {
            made = made.saturating_add(1);
        }
    }
    made
}

/// What a counter has.
fn count_of<J: OfHistory + OfTies, R: Wait>(
    rt: &R,
    kernel: &Kernel<J>,
    page: &Page<Tally, J>,
) -> Option<u64> {
    let (_, count) = page.look(rt, &kernel.book.wires, |part: &Part| match part {
        Part::Counter(count) => Some(*count),
        Part::Pair(_, _) => None,
    });
    count
}

/// Two threads write a pair until the book is at its limit, each at most so many times. Answers how many entries they
/// made together, and whether each finds the book full then.
pub fn come_to_the_limit<J: OfHistory + OfTies + Send + Sync, R: Threads + Wait + Sync>(
    rt: &R,
    alloc: Global,
    history: hist_count::Opened<Entry>,
    ties: sn_ties::Opened<u64>,
    limit: u32,
) -> Option<(u64, bool)>
    requires history { history.table.shared.table_id ≡ J.history }
    requires ties { ties.table.shared.table_id ≡ J.ties }
{
    let mut setup: Setup<Tally, J> = Setup::new(history, ties);
    let pair = setup.page(PAIR, Part::Pair(1, 10))?;
    let one = setup.seat()?;
    let two = setup.seat()?;
    let kernel = Kernel {
        book: setup.book(alloc, u64::from(limit)),
    };
    let ((a, is_full), (b, is_full_too)) = join(
        rt,
        || fill(rt, alloc, &kernel, one, &pair, limit),
        || fill(rt, alloc, &kernel, two, &pair, limit),
    );
    Some((a.saturating_add(b), is_full && is_full_too))
}

/// Writes a pair so many times, and answers how often it could, and whether the book is full then.
fn fill<J: OfHistory + OfTies, R: Wait>(
    rt: &R,
    alloc: Global,
    kernel: &Kernel<J>,
    mut seat: Seat<Tally, J>,
    pair: &Page<Tally, J>,
    times: u32,
) -> (u64, bool) {
    let mut made = 0_u64;
    for k in 0..times {
        if kernel
            .put(rt, alloc, &mut seat, pair, 1, u64::from(k))
            .is_some()
        {
            made = made.saturating_add(1);
        }
    }
    let is_full = matches!(
        Round::new(alloc).check(rt, &kernel.book, &mut seat),
        RoundCheck::Full
    );
    (made, is_full)
}
