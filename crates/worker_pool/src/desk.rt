//! What lies under the pool's lock: the places, and the knot of what is out.

ghost use Rattle.std.specs.Prelude.{map, All, ◌⊎◌, ◌≡◌, ◌≢◌, ◌+◌, ◌++◌, ◌∷◌, [], length, ℕ, true, ◌&&◌, ◌==◌, IfSome, IfNone, flat_map, if◌then◌else◌};
ghost use Rattle.std.specs.List.{list_all, list_any};
ghost use Rattle.pool_places.specs.declared.places.Halt.TheVariants.{Runs, Full, Lost};
ghost use Rattle.pool_places.specs.Ends.{left_of, over_of, IfKept, IfStuck, OnFull};
ghost use Rattle.pool_turn.specs.Ends.{task_of, children_of, last_of};
ghost use Rattle.pool_turn.specs.declared.turn.Last.TheVariants.{New};
ghost use Rattle.pool_places.specs.Turns.{born, waits, filled};
ghost use Rattle.worker_pool.specs.Given.{counted, ready_after, parked_after, over_after, turns_after, halt_after};
ghost use Rattle.worker_pool.specs.Accounts.{SameNumbers, tasks, Balanced, here, may_go, is_parked, is_over, is_full};

use crate::handed::Handed;
use pool_places::{Places, PoolEnd, Tried};
use pool_ties::{Knot, OfTies, Share, Ties};
use pool_turn::{Turn, TurnEnd};
use std::alloc::{AllocError, Global};
use std::marker::Brand;

/// What lies under the pool's lock.
#[derive(Drop)]
pub struct Desk<T: Turn, J: OfTies + Handed> {
    pub places: Places<T::Task>,
    pub knot: Knot<J>,
    ghost counted: { places.running + length knot.1 ≡ length knot.0 },
    ghost balanced: { places.halt ≢ Lost →
        Balanced T.number T.forked J.handed J.before (here places.ready.items places.parked.items places.ended.items)
        knot },
    ghost going: { list_all (λ t. may_go (T.last t.task)) places.ready.items ≡ true },
    ghost parked: { list_all (λ t. is_parked (T.last t.task) && (t.began == places.turns)) places.parked.items ≡ true },
    ghost over: { list_all (λ t. is_over (T.last t)) places.ended.items ≡ true },
    ghost full: { places.halt ≡ Full → list_any (λ t. is_full (T.last t.task)) places.ready.items ≡ true },
}

/// A task that is out for a turn, with the share of what was noted of it.
#[derive(Drop)]
pub struct Out<T: Turn, J: OfTies + Handed> {
    pub tried: Tried<T::Task>,
    pub share: Share<J>,
    ghost number: { share.number ≡ T.number tried.task },
    ghost forked: { share.forked ≡ T.forked tried.task },
    ghost began: { share.began ≡ tried.began },
    ghost going: { may_go (T.last tried.task) ≡ true },
}

impl<T: Turn, J: OfTies + Handed> Desk<T, J> {
    /// All tasks are ready, and none is out. `Err`: no memory.
    pub fn new(alloc: Global, knot: Knot<J>, handed: Vec<T::Task>) -> Result<Desk<T, J>, AllocError>
        requires knot { knot ≡ ([], []) }
        requires handed { J.handed ≡ map T.number handed.items }
        requires before { J.before ≡ flat_map T.forked handed.items }
        requires going { list_all (λ t. may_go (T.last t)) handed.items ≡ true }
    {
        let places = Places::new(alloc, handed)?;
        Ok(Desk { places, knot })
    }

    /// The first task that is ready goes out.
    pub fn take(&mut self, ties: &Ties<J>) -> Option<Out<T, J>>
        ensures going { IfSome result (λ _. self.old.places.halt ≡ Runs) }
        ensures began { IfSome result (λ o. o.tried.began ≡ self.old.places.turns) }
        ensures first { IfSome result (λ o.
            tasks self.old.places.ready.items ≡ o.tried.task ∷ tasks self.new.places.ready.items) }
        ensures share { IfSome result (λ o. self.new.knot ≡ (o.share ∷ self.old.knot.0, self.old.knot.1)) }
        ensures none { IfNone result ((self.old.places.halt ≢ Runs) ⊎ (self.old.places.ready.items ≡ [])) }
        ensures parked { self.new.places.parked.items ≡ self.old.places.parked.items }
        ensures over { self.new.places.ended.items ≡ self.old.places.ended.items }
        ensures same { (self.new.places.turns ≡ self.old.places.turns) × (self.new.places.halt ≡ self.old.places.halt) }
    {
        let tried = self.places.take()?;
        let share = ties.issue::<Tried<T::Task>, Brand>(&mut self.knot, &tried);
        Some(Out { tried, share })
    }

    // A turn ended, and its task can go on.
    fn put(&mut self, ties: &Ties<J>, tried: Tried<T::Task>, share: Share<J>)
        requires number { T.number tried.task ≡ share.number }
        requires forked { T.forked tried.task ≡ share.forked }
        requires going { may_go (T.last tried.task) ≡ true }
        ensures ready { self.new.places.ready.items ≡ self.old.places.ready.items ++ self.old.places.parked.items ++
            tried ∷ [] }
        ensures parked { self.new.places.parked.items ≡ [] }
        ensures ended { self.new.places.ended.items ≡ self.old.places.ended.items }
        ensures turns { self.new.places.turns ≡ counted self.old.places.turns }
        ensures halt { self.new.places.halt ≡ self.old.places.halt }
        ensures running { self.new.places.running + 1 ≡ self.old.places.running }
        ensures knot { self.new.knot ≡ (self.old.knot.0, share ∷ self.old.knot.1) }
    {
        ties.redeem(&mut self.knot, share);
        self.places.put(tried);
    }

    // A turn ended with a child.
    fn fork(&mut self, ties: &Ties<J>, tried: Tried<T::Task>, child: T::Task, share: Share<J>)
        requires number { T.number tried.task ≡ share.number }
        requires forked { T.forked tried.task ≡ share.forked ++ T.number child ∷ [] }
        requires child { T.forked child ≡ [] }
        requires going { may_go (T.last tried.task) ≡ true }
        requires child_going { may_go (T.last child) ≡ true }
        ensures ready { self.new.places.halt ≢ Lost → self.new.places.ready.items ≡ self.old.places.ready.items ++
            self.old.places.parked.items ++ tried ∷ [] ++ born child ∷ [] }
        ensures none_parked { self.new.places.halt ≢ Lost → self.new.places.parked.items ≡ [] }
        ensures ended { self.new.places.ended.items ≡ self.old.places.ended.items }
        ensures turns { self.new.places.halt ≢ Lost → self.new.places.turns ≡ counted self.old.places.turns }
        ensures halt { (self.new.places.halt ≡ self.old.places.halt) ⊎ (self.new.places.halt ≡ Lost) }
        ensures running { self.new.places.running + 1 ≡ self.old.places.running }
        ensures knot { self.new.knot ≡ (self.old.knot.0, share ∷ self.old.knot.1) }
    {
        ties.redeem(&mut self.knot, share);
        match self.places.fork(tried, child) {
            Ok(()) => {}
            Err(_) => self.places.lose(),
        }
    }

    // A turn ended, and its task waits.
    fn park(&mut self, ties: &Ties<J>, tried: Tried<T::Task>, share: Share<J>)
        requires number { T.number tried.task ≡ share.number }
        requires forked { T.forked tried.task ≡ share.forked }
        requires parked { is_parked (T.last tried.task) ≡ true }
        ensures ready { self.new.places.ready.items ≡
            (if waits self.old.places.turns tried.began then self.old.places.ready.items else
            self.old.places.ready.items ++ tried ∷ []) }
        ensures now_parked { self.new.places.parked.items ≡
            (if waits self.old.places.turns tried.began then self.old.places.parked.items ++
            tried ∷ [] else self.old.places.parked.items) }
        ensures ended { self.new.places.ended.items ≡ self.old.places.ended.items }
        ensures turns { self.new.places.turns ≡ self.old.places.turns }
        ensures halt { self.new.places.halt ≡ self.old.places.halt }
        ensures running { self.new.places.running + 1 ≡ self.old.places.running }
        ensures knot { self.new.knot ≡ (self.old.knot.0, share ∷ self.old.knot.1) }
    {
        ties.redeem(&mut self.knot, share);
        self.places.park(tried);
    }

    // A turn ended, and its task is over.
    fn end(&mut self, ties: &Ties<J>, task: T::Task, share: Share<J>)
        requires number { T.number task ≡ share.number }
        requires forked { T.forked task ≡ share.forked }
        requires over { is_over (T.last task) ≡ true }
        ensures ready { self.new.places.ready.items ≡ self.old.places.ready.items ++ self.old.places.parked.items }
        ensures parked { self.new.places.parked.items ≡ [] }
        ensures ended { self.new.places.ended.items ≡ self.old.places.ended.items ++ task ∷ [] }
        ensures turns { self.new.places.turns ≡ counted self.old.places.turns }
        ensures halt { self.new.places.halt ≡ self.old.places.halt }
        ensures running { self.new.places.running + 1 ≡ self.old.places.running }
        ensures knot { self.new.knot ≡ (self.old.knot.0, share ∷ self.old.knot.1) }
    {
        ties.redeem(&mut self.knot, share);
        self.places.end(task);
    }

    // A turn answered Full.
    fn fill(&mut self, ties: &Ties<J>, tried: Tried<T::Task>, share: Share<J>)
        requires number { T.number tried.task ≡ share.number }
        requires forked { T.forked tried.task ≡ share.forked }
        requires full { is_full (T.last tried.task) ≡ true }
        ensures ready { self.new.places.ready.items ≡ self.old.places.ready.items ++ self.old.places.parked.items ++
            tried ∷ [] }
        ensures parked { self.new.places.parked.items ≡ [] }
        ensures ended { self.new.places.ended.items ≡ self.old.places.ended.items }
        ensures turns { self.new.places.turns ≡ counted self.old.places.turns }
        ensures halt { self.new.places.halt ≡ filled self.old.places.halt }
        ensures running { self.new.places.running + 1 ≡ self.old.places.running }
        ensures knot { self.new.knot ≡ (self.old.knot.0, share ∷ self.old.knot.1) }
    {
        ties.redeem(&mut self.knot, share);
        self.places.fill(tried);
    }

    // Memory ran out in a turn.
    fn lose(&mut self, ties: &Ties<J>, share: Share<J>)
        ensures halt { self.new.places.halt ≡ Lost }
        ensures running { self.new.places.running + 1 ≡ self.old.places.running }
        ensures knot { self.new.knot ≡ (self.old.knot.0, share ∷ self.old.knot.1) }
    {
        ties.redeem(&mut self.knot, share);
        self.places.lose();
    }

    /// A turn that began at that count ended: its task is put back, with its child.
    pub fn give(&mut self, ties: &Ties<J>, end: TurnEnd<T::Task>, share: Share<J>, began: u64)
        requires number { IfSome (task_of end) (λ t. T.number t ≡ share.number) }
        requires forked { IfSome (task_of end) (λ t. T.forked t ≡ share.forked ++ map T.number (children_of end)) }
        requires last { IfSome (task_of end) (λ t. T.last t ≡ last_of end) }
        requires child { All (λ c. (T.forked c ≡ []) × (T.last c ≡ New)) (children_of end) }
        requires began { share.began ≡ began }
        ensures ready { self.new.places.halt ≢ Lost →
            self.new.places.ready.items ≡ ready_after end began self.old.places.turns self.old.places.ready.items
            self.old.places.parked.items }
        ensures parked { self.new.places.halt ≢ Lost →
            self.new.places.parked.items ≡ parked_after end began self.old.places.turns self.old.places.parked.items }
        ensures over { self.new.places.halt ≢ Lost →
            self.new.places.ended.items ≡ over_after end self.old.places.ended.items }
        ensures turns { self.new.places.halt ≢ Lost → self.new.places.turns ≡ turns_after end self.old.places.turns }
        ensures halt { children_of end ≡ [] → self.new.places.halt ≡ halt_after end self.old.places.halt }
        ensures forked { children_of end ≢ [] → (self.new.places.halt ≡ self.old.places.halt) ⊎
            (self.new.places.halt ≡ Lost) }
        ensures running { self.new.places.running + 1 ≡ self.old.places.running }
        ensures knot { self.new.knot ≡ (self.old.knot.0, share ∷ self.old.knot.1) }
    {
        match end {
            TurnEnd::Ready(task) => self.put(ties, Tried { task, began }, share),
            TurnEnd::Forked(task, child) => self.fork(ties, Tried { task, began }, child, share),
            TurnEnd::Parked(task) => self.park(ties, Tried { task, began }, share),
            TurnEnd::Ended(task) => self.end(ties, task, share),
            TurnEnd::Full(task) => self.fill(ties, Tried { task, began }, share),
            TurnEnd::Memory => self.lose(ties, share),
        }
    }

    /// How the pool ended, with all tasks.
    pub fn close(&mut self, ties: &Ties<J>, alloc: Global) -> PoolEnd<T::Task>
        requires idle { self.old.places.running ≡ 0 }
        requires still { (self.old.places.halt ≢ Runs) ⊎ (self.old.places.ready.items ≡ []) }
        ensures numbers { IfKept result (
            SameNumbers T.number T.forked J.handed J.before (tasks (left_of result) ++ over_of result)) }
        ensures over { list_all (λ t. is_over (T.last t)) (over_of result) ≡ true }
        ensures stuck { IfStuck result (λ n. (left_of result ≢ []) ×
            (list_all (λ t. is_parked (T.last t.task) && (t.began == n)) (left_of result) ≡ true)) }
        ensures full { OnFull result (list_any (λ t. is_full (T.last t.task)) (left_of result) ≡ true) }
    {
        ties.settle(&mut self.knot);
        self.places.close(alloc)
    }
}
