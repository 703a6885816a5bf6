//! The workers: each takes a task, runs its turn with no lock held, and puts it back.

ghost use Rattle.std.specs.Prelude.{◌≡◌, ◌≢◌, ◌≤◌, ◌<◌, ◌++◌, ◌&&◌, ◌==◌, [], true, map, flat_map};
ghost use Rattle.std.specs.List.{list_all, list_any};
ghost use Rattle.pool_places.specs.Ends.{left_of, over_of, IfKept, IfStuck, OnFull};
ghost use Rattle.worker_pool.specs.Accounts.{SameNumbers, tasks, may_go, is_parked, is_over, is_full};

use crate::desk::{Desk, Out};
use crate::handed::Handed;
use pool_places::PoolEnd;
use pool_ties::{OfTies, Opened, Ties};
use pool_turn::{Gate, Point, Turn};
use std::alloc::{AllocError, Global};
use std::sync::{Condvar, Mutex, Wait};

/// The pool's lock, and where workers sleep that find no task.
#[derive(Drop)]
pub struct Crew<T: Turn, J: OfTies + Handed> {
    desk: Mutex<Desk<T, J>>,
    changed: Condvar,
    ties: Ties<J>,
}

impl<T: Turn, J: OfTies + Handed> Crew<T, J> {
    /// All tasks are ready, and no worker is at work. `Err`: no memory.
    pub fn new(
        alloc: Global,
        opened: Opened,
        handed: Vec<T::Task>,
    ) -> Result<Crew<T, J>, AllocError>
        requires named { opened.table.shared.table_id ≡ J.ties }
        requires handed { J.handed ≡ map T.number handed.items }
        requires before { J.before ≡ flat_map T.forked handed.items }
        requires going { list_all (λ t. may_go (T.last t)) handed.items ≡ true }
    {
        let (ties, knot) = opened.named::<J>();
        let desk = Desk::new(alloc, knot, handed)?;
        Ok(Crew {
            desk: Mutex::new(desk),
            changed: Condvar::new(),
            ties,
        })
    }

    // The next task that is ready, once one is; none where no turn begins any more.
    fn next<R: Wait>(&self, rt: &R) -> Option<Out<T, J>> {
        for _ in rt.forever() {
            let mut desk = self.desk.lock(rt);
            if !desk.places.must_wait() {
                return desk.take(&self.ties);
            }
            let _woken = self.changed.wait(rt, desk);
        }
        unreachable!()
    }

    /// Runs turns until none begins any more.
    pub fn work<G: Gate, R: Wait>(&self, rt: &R, turn: &T, gate: &G, worker: u32) {
        for _ in rt.forever() {
            let Some(out) = self.next(rt) else {
                break;
            };
            self.run_one(rt, turn, gate, worker, out);
        }
    }

    // One turn, with no lock held. Whoever may go on by it is woken.
    fn run_one<G: Gate, R: Wait>(&self, rt: &R, turn: &T, gate: &G, worker: u32, out: Out<T, J>) {
        let Out { tried, share } = out;
        gate.pass(rt, worker, turn.number(&tried.task), Point::Turn);
        let began = tried.began;
        let end = turn.turn(rt, worker, tried.task);
        let mut desk = self.desk.lock(rt);
        desk.give(&self.ties, end, share, began);
        if desk.places.wakes() {
            self.changed.notify_all();
        }
    }

    /// Waits until nothing more happens, and tells how the pool ended.
    pub fn close<R: Wait>(&self, rt: &R, alloc: Global) -> PoolEnd<T::Task>
        ensures numbers { IfKept result (
            SameNumbers T.number T.forked J.handed J.before (tasks (left_of result) ++ over_of result)) }
        ensures over { list_all (λ t. is_over (T.last t)) (over_of result) ≡ true }
        ensures stuck { IfStuck result (λ n. (left_of result ≢ []) ×
            (list_all (λ t. is_parked (T.last t.task) && (t.began == n)) (left_of result) ≡ true)) }
        ensures full { OnFull result (list_any (λ t. is_full (T.last t.task)) (left_of result) ≡ true) }
    {
        for _ in rt.forever() {
            let mut desk = self.desk.lock(rt);
            if desk.places.is_over() {
                return desk.close(&self.ties, alloc);
            }
            let _woken = self.changed.wait(rt, desk);
        }
        unreachable!()
    }
}
