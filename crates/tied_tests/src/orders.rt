//! Whether the entries of each task stand in its own order.

ghost use Rattle.std.specs.Prelude.{◌≡◌};

use crate::machine::{Entry, Tally};
use hist_count::OfHistory;
use sn_ties::OfTies;
use std::sync::Wait;
use tied_cells::Book;

/// The task of an entry, and a number that is greater in each of its entries than in that before.
fn rank(entry: &Entry) -> (u64, u64) {
    match entry {
        Entry::Add { task, reply, .. } => (*task, *reply),
        Entry::Put { task, right, .. } => (*task, *right),
        Entry::Move { task, left, .. } => (*task, *left),
    }
}

/// How many entries tasks 0 to 3 have. `None`: one doesn't stand in its task's order, or is of another task.
fn counts_of(entries: &[Entry]) -> Option<[u64; 4]> {
    let mut counts = [0_u64; 4];
    let mut last = [0_u64; 4];
    for entry in entries {
        let (task, number) = rank(entry);
        if task >= 4 || last[task as usize] >= number {
            return None;
        }
        last[task as usize] = number;
        counts[task as usize] = counts[task as usize].saturating_add(1);
    }
    Some(counts)
}

/// How many of a book's entries are of tasks 0 to 3, where those of each stand in its own order.
pub fn counts_in<J: OfHistory + OfTies, R: Wait>(
    rt: &R,
    book: &Book<Tally, J>,
) -> Option<[u64; 4]> {
    let guard = book.log.lock(rt);
    let log = &*guard;
    counts_of(log.entries.as_slice())
}
