//! What the end of a turn does to the places.

ghost use Rattle.std.specs.Prelude.{◌≡◌, ◌≢◌, ◌+◌, ◌-◌, ◌^◌, ◌<◌, ◌≤◌, ◌∷◌, ◌++◌, [], OnOk, OnErr, is_ok, min, if◌then◌else◌};
ghost use Rattle.std.specs.Vec.{vec_len, vec_capacity};
ghost use Rattle.std.specs.VecDeque.{deque_len, deque_capacity};
ghost use Rattle.pool_places.specs.Turns.{born, waits, filled};

use crate::ends::Tried;
use crate::places::{Halt, Places};
use std::alloc::AllocError;

impl<K: Drop> Places<K> {
    // A turn answered anything but Parked: those that are parked are ready, in their order.
    fn wake(&mut self)
        ensures ready { self.new.ready.items ≡ self.old.ready.items ++ self.old.parked.items }
        ensures parked { self.new.parked.items ≡ [] }
        ensures ended { self.new.ended.items ≡ self.old.ended.items }
        ensures turns { self.new.turns ≡ min (self.old.turns + 1) (2 ^ 64 - 1) }
        ensures running { self.new.running ≡ self.old.running }
        ensures halt { self.new.halt ≡ self.old.halt }
        ensures long { (deque_len self.new.ready ≡ deque_len self.old.ready + deque_len self.old.parked) ×
            (deque_len self.new.parked ≡ 0) }
        ensures room { deque_capacity self.old.ready ≤ deque_capacity self.new.ready }
        ensures parked_room { deque_capacity self.old.parked ≤ deque_capacity self.new.parked }
        ensures ended_room { (vec_capacity self.old.ended ≤ vec_capacity self.new.ended) ×
            (vec_len self.new.ended ≡ vec_len self.old.ended) }
    {
        let _ = self.ready.append(&mut self.parked);
        self.turns = self.turns.saturating_add(1);
    }

    /// A turn ended, and its task can go on. It is put behind those that are parked, which are ready now.
    pub fn put(&mut self, tried: Tried<K>)
        requires { 0 < self.old.running }
        ensures queue { self.new.ready.items ≡ self.old.ready.items ++ self.old.parked.items ++ tried ∷ [] }
        ensures parked { self.new.parked.items ≡ [] }
        ensures ended { self.new.ended.items ≡ self.old.ended.items }
        ensures running { self.new.running + 1 ≡ self.old.running }
        ensures turns { self.new.turns ≡ min (self.old.turns + 1) (2 ^ 64 - 1) }
        ensures halt { self.new.halt ≡ self.old.halt }
    {
        self.wake();
        self.running -= 1;
        self.ready.push_back_reserved(tried);
    }

    /// A turn ended with a child. The child is put behind its parent. `Err`: no memory for one task more, all is as it
    /// was, and both are gone.
    pub fn fork(&mut self, tried: Tried<K>, child: K) -> Result<(), AllocError>
        requires { 0 < self.old.running }
        ensures queue { OnOk result (self.new.ready.items ≡ self.old.ready.items ++ self.old.parked.items ++
            tried ∷ [] ++ born child ∷ []) }
        ensures parked { OnOk result (self.new.parked.items ≡ []) }
        ensures running { OnOk result (self.new.running + 1 ≡ self.old.running) }
        ensures turns { OnOk result (self.new.turns ≡ min (self.old.turns + 1) (2 ^ 64 - 1)) }
        ensures err { OnErr result ((self.new.ready.items ≡ self.old.ready.items) ×
            (self.new.parked.items ≡ self.old.parked.items)) }
        ensures err_counts { OnErr result ((self.new.running ≡ self.old.running) × (self.new.turns ≡ self.old.turns)) }
        ensures ended { self.new.ended.items ≡ self.old.ended.items }
        ensures halt { self.new.halt ≡ self.old.halt }
    {
        let out = self.running + 1;
        self.ready.try_reserve(self.parked.len() + out)?;
        self.parked.try_reserve(self.ready.len() + out)?;
        self.ended
            .try_reserve(self.ready.len() + self.parked.len() + out)?;
        self.wake();
        self.running -= 1;
        self.ready.push_back_reserved(tried);
        self.ready.push_back_reserved(Tried {
            task: child,
            began: 0,
        });
        Ok(())
    }

    /// A turn ended, and its task waits: it is ready at once where a turn that ended since it began answered anything
    /// but this.
    pub fn park(&mut self, tried: Tried<K>)
        requires { 0 < self.old.running }
        ensures ready { self.new.ready.items ≡
            (if waits self.old.turns tried.began then self.old.ready.items else self.old.ready.items ++ tried ∷ []) }
        ensures parked { self.new.parked.items ≡ (if waits self.old.turns tried.began then self.old.parked.items ++
            tried ∷ [] else self.old.parked.items) }
        ensures ended { self.new.ended.items ≡ self.old.ended.items }
        ensures running { self.new.running + 1 ≡ self.old.running }
        ensures turns { self.new.turns ≡ self.old.turns }
        ensures halt { self.new.halt ≡ self.old.halt }
    {
        self.running -= 1;
        if tried.began == self.turns && self.turns < u64::MAX {
            self.parked.push_back_reserved(tried);
        } else {
            self.ready.push_back_reserved(tried);
        }
    }

    /// A turn ended, and its task is over.
    pub fn end(&mut self, task: K)
        requires { 0 < self.old.running }
        ensures ready { self.new.ready.items ≡ self.old.ready.items ++ self.old.parked.items }
        ensures parked { self.new.parked.items ≡ [] }
        ensures ended { self.new.ended.items ≡ self.old.ended.items ++ task ∷ [] }
        ensures running { self.new.running + 1 ≡ self.old.running }
        ensures turns { self.new.turns ≡ min (self.old.turns + 1) (2 ^ 64 - 1) }
        ensures halt { self.new.halt ≡ self.old.halt }
    {
        self.wake();
        self.running -= 1;
        self.ended.push_reserved(task);
    }

    /// A turn answered Full: from now on none begins.
    pub fn fill(&mut self, tried: Tried<K>)
        requires { 0 < self.old.running }
        ensures queue { self.new.ready.items ≡ self.old.ready.items ++ self.old.parked.items ++ tried ∷ [] }
        ensures parked { self.new.parked.items ≡ [] }
        ensures ended { self.new.ended.items ≡ self.old.ended.items }
        ensures running { self.new.running + 1 ≡ self.old.running }
        ensures turns { self.new.turns ≡ min (self.old.turns + 1) (2 ^ 64 - 1) }
        ensures halt { self.new.halt ≡ filled self.old.halt }
    {
        self.put(tried);
        if self.halt == Halt::Runs {
            self.halt = Halt::Full;
        }
    }

    /// Memory ran out in a turn, and its task is gone: from now on none begins.
    pub fn lose(&mut self)
        requires { 0 < self.old.running }
        ensures ready { self.new.ready.items ≡ self.old.ready.items }
        ensures parked { self.new.parked.items ≡ self.old.parked.items }
        ensures ended { self.new.ended.items ≡ self.old.ended.items }
        ensures running { self.new.running + 1 ≡ self.old.running }
        ensures turns { self.new.turns ≡ self.old.turns }
        ensures halt { self.new.halt ≡ Halt.Lost }
    {
        self.running -= 1;
        self.halt = Halt::Lost;
    }
}
