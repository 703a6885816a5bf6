//! Four threads over one book.

ghost use Rattle.std.specs.Prelude.{◌≡◌};

use crate::kernel::Kernel;
use crate::machine::{Entry, Part, Tally};
use crate::orders::counts_in;
use hist_count::OfHistory;
use sn_ties::OfTies;
use std::alloc::Global;
use std::sync::Wait;
use std::thread::{Threads, join};
use tied_cells::{Book, Page, Round, RoundCheck, Seat, Setup};

/// The key of the pair, the least that there is, and of the counter, the greatest.
pub const PAIR: u64 = 0;

pub const COUNTER: u64 = (1 << 63) - 1;

/// What a race came to: the greatest of the last replies, and the number of entries of each thread's task, which stand
/// in the order in which the thread made them.
#[derive(Drop)]
pub struct Raced {
    pub sum: u64,
    pub entries: [u64; 4],
}

/// Three threads add a pair's first, 1, to a counter, so many times each, while a fourth writes the pair as often.
pub fn race<J: OfHistory + OfTies + Send + Sync, R: Threads + Wait + Sync>(
    rt: &R,
    alloc: Global,
    history: hist_count::Opened<Entry>,
    ties: sn_ties::Opened<u64>,
    times: u64,
) -> Option<Raced>
    requires history { history.table.shared.table_id ≡ J.history }
    requires ties { ties.table.shared.table_id ≡ J.ties }
{
    let mut setup: Setup<Tally, J> = Setup::new(history, ties);
    let pair = setup.page(PAIR, Part::Pair(1, 10))?;
    let counter = setup.page(COUNTER, Part::Counter(0))?;
    let one = setup.seat()?;
    let two = setup.seat()?;
    let three = setup.seat()?;
    let four = setup.seat()?;
    let kernel = Kernel {
        book: setup.book(alloc, 1 << 20),
    };
    let ((a, b), (c, d)) = join(
        rt,
        || {
            join(
                rt,
                || add_all(rt, alloc, &kernel, one, &pair, &counter, times),
                || add_all(rt, alloc, &kernel, two, &pair, &counter, times),
            )
        },
        || {
            join(
                rt,
                || add_all(rt, alloc, &kernel, three, &pair, &counter, times),
                || put_all(rt, alloc, &kernel, four, &pair, times),
            )
        },
    );
    d?;
    let sum = a?.max(b?).max(c?);
    let entries = counts_in(rt, &kernel.book)?;
    Some(Raced { sum, entries })
}

/// How many entries the book has.
pub fn entries_of<J: OfHistory + OfTies, R: Wait>(
    rt: &R,
    alloc: Global,
    book: &Book<Tally, J>,
    seat: &mut Seat<Tally, J>,
) -> Option<u64> {
    match Round::new(alloc).check(rt, book, seat) {
        RoundCheck::Fresh(entries) => Some(entries),
        RoundCheck::Again(_) => None,
        RoundCheck::Full => None,
    }
}

/// Adds so many times, and answers the last reply. `None`: one isn't above that before it.
fn add_all<J: OfHistory + OfTies, R: Wait>(
    rt: &R,
    alloc: Global,
    kernel: &Kernel<J>,
    mut seat: Seat<Tally, J>,
    pair: &Page<Tally, J>,
    counter: &Page<Tally, J>,
    times: u64,
) -> Option<u64> {
    let mut reply = 0;
    for _ in 0..times {
        let next = kernel.add(rt, alloc, &mut seat, pair, counter)?.reply;
        if next <= reply {
            return None;
        }
        reply = next;
    }
    Some(reply)
}

/// Writes the pair so many times. Its first stays 1.
fn put_all<J: OfHistory + OfTies, R: Wait>(
    rt: &R,
    alloc: Global,
    kernel: &Kernel<J>,
    mut seat: Seat<Tally, J>,
    pair: &Page<Tally, J>,
    times: u64,
) -> Option<u64> {
    let mut place = 0;
    for k in 0..times {
        place = kernel.put(rt, alloc, &mut seat, pair, 1, k + 1)?;
    }
    Some(place)
}
