//! What the threads came to.

ghost use Rattle.std.specs.Prelude.{◌≡◌};

use crate::machine::Entry;
use crate::racing::race;
use crate::sharing::{come_to_the_limit, move_all};
use crate::turns::{pages_had, take_turns};
use hist_count::OfHistory;
use sn_ties::OfTies;
use std::alloc::Global;
use std::marker::Brand;
use std::process::Abort;
use std::sync::Wait;
use std::test::*;
use std::thread::Threads;

#[test]
fn four_threads_enter_each_call_once(rt: HostRuntime) -> Result<(), Fail> {
    let alloc = rt.alloc();
    let history = hist_count::Opened::new(alloc)?;
    let ties = sn_ties::Opened::new(alloc)?;
    race_of::<Brand, _>(&rt, alloc, history, ties)
}

fn race_of<J: OfHistory + OfTies + Send + Sync, R: Threads + Wait + Abort + Sync>(
    rt: &R,
    alloc: Global,
    history: hist_count::Opened<Entry>,
    ties: sn_ties::Opened<u64>,
) -> Result<(), Fail>
    requires history { history.table.shared.table_id ≡ J.history }
    requires ties { ties.table.shared.table_id ≡ J.ties }
{
    let raced = race::<J, R>(rt, alloc, history, ties, 10_000).ok_or("all are entered")?;
    let entries = raced.entries;
    assert_eq!(rt; (raced.sum, entries), (30_000, [10_000; 4]));
    Ok(())
}

#[test]
fn a_look_goes_stale_and_the_book_is_full(rt: HostRuntime) -> Result<(), Fail> {
    let alloc = rt.alloc();
    let history = hist_count::Opened::new(alloc)?;
    let ties = sn_ties::Opened::new(alloc)?;
    turns_of::<Brand, _>(&rt, alloc, history, ties)
}

fn turns_of<J: OfHistory + OfTies, R: Wait + Abort>(
    rt: &R,
    alloc: Global,
    history: hist_count::Opened<Entry>,
    ties: sn_ties::Opened<u64>,
) -> Result<(), Fail>
    requires history { history.table.shared.table_id ≡ J.history }
    requires ties { ties.table.shared.table_id ≡ J.ties }
{
    let turned = take_turns::<J, R>(rt, alloc, history, ties).ok_or("the turns are taken")?;
    assert_eq!(rt; (turned.key, turned.saw, turned.has), (0, 0, 1));
    let refused = turned.refused;
    assert_eq!(rt; (refused.key, refused.saw, refused.has), (0, 0, 1));
    assert_eq!(rt; (turned.written, turned.full), (3, true));
    let lacks = turned.lacks;
    assert_eq!(rt; lacks, [false, true, false]);
    Ok(())
}

#[test]
fn moves_keep_the_sum(rt: HostRuntime) -> Result<(), Fail> {
    let alloc = rt.alloc();
    let history = hist_count::Opened::new(alloc)?;
    let ties = sn_ties::Opened::new(alloc)?;
    moves_of::<Brand, _>(&rt, alloc, history, ties)
}

fn moves_of<J: OfHistory + OfTies + Send + Sync, R: Threads + Wait + Abort + Sync>(
    rt: &R,
    alloc: Global,
    history: hist_count::Opened<Entry>,
    ties: sn_ties::Opened<u64>,
) -> Result<(), Fail>
    requires history { history.table.shared.table_id ≡ J.history }
    requires ties { ties.table.shared.table_id ≡ J.ties }
{
    let moves = move_all::<J, R>(rt, alloc, history, ties, 10_000).ok_or("all move")?;
    assert_eq!(rt; (moves.sum, moves.made), (1000, moves.entries));
    assert!(rt; moves.made > 0);
    Ok(())
}

#[test]
fn two_threads_fill_a_book_to_its_limit(rt: HostRuntime) -> Result<(), Fail> {
    let alloc = rt.alloc();
    let history = hist_count::Opened::new(alloc)?;
    let ties = sn_ties::Opened::new(alloc)?;
    limit_of::<Brand, _>(&rt, alloc, history, ties)
}

fn limit_of<J: OfHistory + OfTies + Send + Sync, R: Threads + Wait + Abort + Sync>(
    rt: &R,
    alloc: Global,
    history: hist_count::Opened<Entry>,
    ties: sn_ties::Opened<u64>,
) -> Result<(), Fail>
    requires history { history.table.shared.table_id ≡ J.history }
    requires ties { ties.table.shared.table_id ≡ J.ties }
{
    let filled = come_to_the_limit::<J, R>(rt, alloc, history, ties, 1_000).ok_or("it is filled")?;
    assert_eq!(rt; filled, (1_000, true));
    Ok(())
}

#[test]
fn keys_end_below_2_to_the_63(rt: HostRuntime) -> Result<(), Fail> {
    let alloc = rt.alloc();
    let history = hist_count::Opened::new(alloc)?;
    let ties = sn_ties::Opened::new(alloc)?;
    keys_of::<Brand, _>(&rt, history, ties)
}

fn keys_of<J: OfHistory + OfTies, R: Abort>(
    rt: &R,
    history: hist_count::Opened<Entry>,
    ties: sn_ties::Opened<u64>,
) -> Result<(), Fail>
    requires history { history.table.shared.table_id ≡ J.history }
    requires ties { ties.table.shared.table_id ≡ J.ties }
{
    assert_eq!(rt; pages_had::<J>(history, ties), [true, false, true, false]);
    Ok(())
}
