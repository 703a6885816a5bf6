//! The places, and who is taken from them.

ghost use Rattle.std.specs.Prelude.{◌≡◌, ◌≢◌, ◌⊎◌, ◌+◌, ◌<◌, ◌≤◌, ◌∷◌, ◌++◌, ◌↔◌, if◌then◌else◌, is_some, [], IfOk, IfSome, IfNone, IsTrue, map};
ghost use Rattle.std.specs.Vec.{vec_len, vec_capacity};
ghost use Rattle.std.specs.VecDeque.{deque_len, deque_capacity};

use crate::ends::Tried;
use std::alloc::{AllocError, Global};
use std::collections::VecDeque;

/// For how many tasks that are not over room is taken at once.
pub const ROOM: usize = 256;

/// Whether turns may begin.
#[derive(Drop, Clone, Copy, Debug, PartialEq, Eq)]
pub enum Halt {
    /// They may.
    Runs,
    /// A turn answered Full.
    Full,
    /// Memory ran out, or all tasks were given back.
    Lost,
}

/// The tasks of a pool, but those that are out for a turn.
#[derive(Drop)]
pub struct Places<K> {
    pub ready: VecDeque<Tried<K>>,
    pub parked: VecDeque<Tried<K>>,
    pub ended: Vec<K>,
    /// How many tasks are out for a turn.
    pub running: usize,
    /// How many turns answered anything but Parked.
    pub turns: u64,
    pub halt: Halt,
    ghost ready_room: { deque_len ready + deque_len parked + running ≤ deque_capacity ready },
    ghost parked_room: { deque_len ready + deque_len parked + running ≤ deque_capacity parked },
    ghost ended_room: { deque_len ready + deque_len parked + running + vec_len ended ≤ vec_capacity ended },
}

/// The tasks, each before its first turn.
fn fresh<K: Drop>(
    alloc: Global,
    tasks: Vec<K>,
    room: usize,
) -> Result<VecDeque<Tried<K>>, AllocError>
    requires { vec_len tasks ≤ room }
    ensures items { IfOk result (λ q. map (λ t. t.task) q.items ≡ tasks.items) }
    ensures room { IfOk result (λ q. room ≤ deque_capacity q) }
{
    let mut ready = VecDeque::with_capacity(alloc, room)?;
    let mut tasks = VecDeque::from(tasks);
    while let Some(task) = tasks.pop_front() {
        ready.push_back_reserved(Tried { task, began: 0 });
    }
    Ok(ready)
}

impl<K: Drop> Places<K> {
    /// All tasks are ready, in their order. Takes room for `ROOM` tasks, and for these.
    pub fn new(alloc: Global, tasks: Vec<K>) -> Result<Places<K>, AllocError>
        ensures ready { IfOk result (λ p. map (λ t. t.task) p.ready.items ≡ tasks.items) }
        ensures parked { IfOk result (λ p. p.parked.items ≡ []) }
        ensures ended { IfOk result (λ p. p.ended.items ≡ []) }
        ensures counts { IfOk result (λ p. (p.running ≡ 0) × (p.turns ≡ 0)) }
        ensures going { IfOk result (λ p. p.halt ≡ Halt.Runs) }
    {
        let room = tasks.len().max(ROOM);
        let ended = Vec::with_capacity(alloc, room)?;
        let parked = VecDeque::with_capacity(alloc, room)?;
        let ready = fresh(alloc, tasks, room)?;
        Ok(Places {
            ready,
            parked,
            ended,
            running: 0,
            turns: 0,
            halt: Halt::Runs,
        })
    }

    /// Whether who looks for a task has to wait: none is ready now, and one that is out may change that.
    pub fn must_wait(&self) -> bool
        ensures { IsTrue result ↔ ((self.now.halt ≡ Halt.Runs) × (self.now.ready.items ≡ []) × (0 < self.now.running)) }
    {
        self.halt == Halt::Runs && self.ready.is_empty() && self.running > 0
    }

    /// Whether who waits for a task is to look again: more than one is ready, or no turn begins any more.
    pub fn wakes(&self) -> bool
        ensures { IsTrue result ↔
            ((1 < deque_len self.now.ready) ⊎ (self.now.running ≡ 0) ⊎ (self.now.halt ≢ Halt.Runs)) }
    {
        self.ready.len() > 1 || self.running == 0 || self.halt != Halt::Runs
    }

    /// Whether nothing more happens: none is out, and no turn begins.
    pub fn is_over(&self) -> bool
        ensures { IsTrue result ↔
            ((self.now.running ≡ 0) × ((self.now.halt ≢ Halt.Runs) ⊎ (self.now.ready.items ≡ []))) }
    {
        self.running == 0 && (self.halt != Halt::Runs || self.ready.is_empty())
    }

    /// The first task that is ready goes out for a turn.
    pub fn take(&mut self) -> Option<Tried<K>>
        ensures first { IfSome result (λ t. map (λ u. u.task) self.old.ready.items ≡
            t.task ∷ map (λ u. u.task) self.new.ready.items) }
        ensures began { IfSome result (λ t. t.began ≡ self.old.turns) }
        ensures going { IfSome result (λ t. self.old.halt ≡ Halt.Runs) }
        ensures running { self.new.running ≡ (if is_some result then self.old.running + 1 else self.old.running) }
        ensures none { IfNone result (((self.old.halt ≢ Halt.Runs) ⊎ (self.old.ready.items ≡ [])) ×
            (self.new.ready.items ≡ self.old.ready.items)) }
        ensures parked { self.new.parked.items ≡ self.old.parked.items }
        ensures ended { self.new.ended.items ≡ self.old.ended.items }
        ensures same { (self.new.turns ≡ self.old.turns) × (self.new.halt ≡ self.old.halt) }
    {
        if self.halt != Halt::Runs {
            return None;
        }
        let first = self.ready.pop_front()?;
        self.running += 1;
        Some(Tried {
            task: first.task,
            began: self.turns,
        })
    }
}
