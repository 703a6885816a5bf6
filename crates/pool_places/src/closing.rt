//! The end of a pool: every task is given back.

ghost use Rattle.std.specs.Prelude.{◌≡◌, ◌≢◌, ◌⊎◌, ◌++◌, [], Contains};
ghost use Rattle.pool_places.specs.Ends.{left_of, over_of, IsAllEnded, IfStuck, OnFull, IfKept};

use crate::ends::PoolEnd;
use crate::places::{Halt, Places};
use std::alloc::Global;
use std::collections::VecDeque;
use std::mem;

impl<K: Drop> Places<K> {
    /// How the pool ended, with all tasks. None is left here, and no turn may begin.
    pub fn close(&mut self, alloc: Global) -> PoolEnd<K>
        requires idle { self.old.running ≡ 0 }
        requires still { (self.old.halt ≢ Halt.Runs) ⊎ (self.old.ready.items ≡ []) }
        ensures left { IfKept result (left_of result ≡ self.old.ready.items ++ self.old.parked.items) }
        ensures over { IfKept result (over_of result ≡ self.old.ended.items) }
        ensures kept { IfKept result (self.old.halt ≢ Halt.Lost) }
        ensures ended { IsAllEnded result → self.old.parked.items ≡ [] }
        ensures stuck { IfStuck result (λ n. (n ≡ self.old.turns) × (left_of result ≡ self.old.parked.items) ×
            (left_of result ≢ [])) }
        ensures full { OnFull result (self.old.halt ≡ Halt.Full) }
        ensures empty { (self.new.ready.items ≡ []) × (self.new.parked.items ≡ []) × (self.new.ended.items ≡ []) }
        ensures running { self.new.running ≡ 0 }
        ensures halt { self.new.halt ≡ Halt.Lost }
    {
        let halt = self.halt;
        let turns = self.turns;
        self.halt = Halt::Lost;
        let mut tasks = mem::replace(&mut self.ready, VecDeque::new(alloc));
        let mut parked = mem::replace(&mut self.parked, VecDeque::new(alloc));
        let ended = mem::replace(&mut self.ended, Vec::new(alloc));
        let _ = tasks.append(&mut parked);
        let tasks = tasks.into_vec();
        match halt {
            Halt::Lost => PoolEnd::Memory,
            Halt::Full => PoolEnd::Full { tasks, ended },
            Halt::Runs if tasks.is_empty() => PoolEnd::AllEnded { ended },
            Halt::Runs => PoolEnd::Stuck {
                tasks,
                ended,
                turns,
            },
        }
    }
}
