//! Each row, over pages that are tied to a book and over locks alone.

ghost use Rattle.std.specs.Prelude.{◌≡◌};

use crate::failure::Failure;
use crate::locked::Locked;
use crate::machine::{Mark, Marks};
use crate::rows::{ROWS, Row};
use crate::tied::Desk;
use hist_count::OfHistory;
use sn_ties::OfTies;
use std::alloc::Global;
use std::sync::Wait;
use std::thread::{Threads, join};
use std::time::{Clock, Duration, Instant};
use tied_cells::{Page, Seat, Setup};

/// How many pages are made.
pub const PAGES: u64 = 65_536;

/// How many threads there are at the most.
const THREADS: usize = 4;

fn make_pages<J: OfHistory + OfTies>(
    setup: &mut Setup<Marks, J>,
    alloc: Global,
) -> Result<Vec<Page<Marks, J>>, Failure> {
    let mut pages = Vec::new(alloc);
    for key in 0..PAGES {
        let page = setup.page(key, 0).ok_or(Failure::Lacking)?;
        pages.reserve(1)?;
        pages.push_reserved(page);
    }
    Ok(pages)
}

/// A seat for each thread of each row.
fn make_seats<J: OfHistory + OfTies>(
    setup: &mut Setup<Marks, J>,
    alloc: Global,
) -> Result<Vec<Seat<Marks, J>>, Failure> {
    let mut seats = Vec::new(alloc);
    for _ in 0..ROWS.len() * THREADS {
        let seat = setup.seat().ok_or(Failure::Lacking)?;
        seats.reserve(1)?;
        seats.push_reserved(seat);
    }
    Ok(seats)
}

/// The pages of a thread, from its first on.
fn pages_from<'a, J: OfHistory + OfTies>(
    pages: &'a [Page<Marks, J>],
    row: &Row,
    thread: usize,
) -> &'a [Page<Marks, J>] {
    match pages.split_at_checked(row.first_page(thread)) {
        Some((_, from)) => from,
        None => pages,
    }
}

impl<J: OfHistory + OfTies + Send + Sync> Desk<J> {
    /// A row's rounds, over pages.
    fn do_row<R: Threads + Wait + Sync>(
        &self,
        rt: &R,
        alloc: Global,
        pages: &[Page<Marks, J>],
        seats: &mut Vec<Seat<Marks, J>>,
        row: &Row,
        rounds: u64,
    ) -> Result<(), Failure> {
        let kind = row.kind;
        let one = seats.pop().ok_or(Failure::Lacking)?;
        let first = pages_from(pages, row, 0);
        if !row.has_four {
            return self.work(rt, alloc, one, first, kind, rounds);
        }
        let two = seats.pop().ok_or(Failure::Lacking)?;
        let three = seats.pop().ok_or(Failure::Lacking)?;
        let four = seats.pop().ok_or(Failure::Lacking)?;
        let second = pages_from(pages, row, 1);
        let third = pages_from(pages, row, 2);
        let fourth = pages_from(pages, row, 3);
        let ((a, b), (c, d)) = join(
            rt,
            || {
                join(
                    rt,
                    || self.work(rt, alloc, one, first, kind, rounds),
                    || self.work(rt, alloc, two, second, kind, rounds),
                )
            },
            || {
                join(
                    rt,
                    || self.work(rt, alloc, three, third, kind, rounds),
                    || self.work(rt, alloc, four, fourth, kind, rounds),
                )
            },
        );
        a.and(b).and(c).and(d)
    }
}

impl Locked {
    /// A row's rounds, over locks alone.
    fn do_row<R: Threads + Wait + Sync>(
        &self,
        rt: &R,
        row: &Row,
        rounds: u64,
    ) -> Result<(), Failure> {
        let kind = row.kind;
        if !row.has_four {
            return self.work(rt, 0, row.first_page(0), kind, rounds);
        }
        let ((a, b), (c, d)) = join(
            rt,
            || {
                join(
                    rt,
                    || self.work(rt, 0, row.first_page(0), kind, rounds),
                    || self.work(rt, 1, row.first_page(1), kind, rounds),
                )
            },
            || {
                join(
                    rt,
                    || self.work(rt, 2, row.first_page(2), kind, rounds),
                    || self.work(rt, 3, row.first_page(3), kind, rounds),
                )
            },
        );
        a.and(b).and(c).and(d)
    }
}

/// How long it took to make the pages, and then each row, over pages and over locks alone.
#[derive(Drop)]
pub struct Times {
    pub making: Duration,
    pub rows: Vec<RowTimes>,
}

/// How long a row took.
#[derive(Drop, Clone, Copy)]
pub struct RowTimes {
    pub tied: Duration,
    pub locked: Duration,
}

/// Makes the pages, and does each row with so many rounds a thread.
pub fn measure<J: OfHistory + OfTies + Send + Sync, R: Threads + Wait + Clock + Sync>(
    rt: &R,
    alloc: Global,
    rounds: u64,
    history: hist_count::Opened<Mark>,
    ties: sn_ties::Opened<u64>,
) -> Result<Times, Failure>
    requires history { history.table.shared.table_id ≡ J.history }
    requires ties { ties.table.shared.table_id ≡ J.ties }
{
    let mut setup: Setup<Marks, J> = Setup::new(history, ties);
    let start = Instant::now(rt)?;
    let pages = make_pages(&mut setup, alloc)?;
    let making = start.elapsed(rt)?;
    let mut seats = make_seats(&mut setup, alloc)?;
    let desk = Desk {
        book: setup.book(alloc, 1 << 40),
    };
    let rows = measure_rows(rt, alloc, rounds, &desk, pages.as_slice(), &mut seats)?;
    Ok(Times { making, rows })
}

fn measure_rows<J: OfHistory + OfTies + Send + Sync, R: Threads + Wait + Clock + Sync>(
    rt: &R,
    alloc: Global,
    rounds: u64,
    desk: &Desk<J>,
    pages: &[Page<Marks, J>],
    seats: &mut Vec<Seat<Marks, J>>,
) -> Result<Vec<RowTimes>, Failure> {
    let locked = Locked::new(alloc, pages.len())?;
    let mut rows = Vec::new(alloc);
    for row in ROWS {
        rows.reserve(1)?;
        let start = Instant::now(rt)?;
        desk.do_row(rt, alloc, pages, seats, row, rounds)?;
        let tied = start.elapsed(rt)?;
        let start = Instant::now(rt)?;
        locked.do_row(rt, row, rounds)?;
        let locked = start.elapsed(rt)?;
        rows.push_reserved(RowTimes { tied, locked });
    }
    Ok(rows)
}
