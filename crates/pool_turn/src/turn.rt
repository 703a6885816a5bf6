//! Tasks, their turns, and what a turn answers.

ghost use Rattle.std.specs.Prelude.{◌≡◌, ◌≢◌, ◌++◌, [], ℕ, List, All, IfSome, map};

use std::sync::Wait;

/// What a task's last turn answered.
#[derive(Drop, Clone, Copy, Debug, PartialEq, Eq)]
pub enum Last {
    /// Nothing, for it has had no turn.
    New,
    /// Ready or Forked.
    GoesOn,
    /// Parked.
    Waits,
    /// Ended.
    Over,
    /// Full.
    NoRoom,
}

/// How a turn ends.
#[derive(Drop, Debug)]
pub enum TurnEnd<K> {
    /// The task can go on.
    Ready(K),
    /// The task can go on, and so can its new child, the second.
    Forked(K, K),
    /// The task can't go on until another task's turn has answered anything but this.
    Parked(K),
    /// The task is over.
    Ended(K),
    /// There is no room for what the task was to do: no further turn is to begin.
    Full(K),
    /// Memory ran out, and the task is gone: no further turn is to begin.
    Memory,
}

/// What runs a task's turns. Many workers call it at once, each with another task.
pub trait Turn: Sync {
    ghost use Rattle.pool_turn.specs.declared.turn.Last.{Last};
    ghost use Rattle.pool_turn.specs.declared.turn.Last.TheVariants.{New, Over};
    ghost use Rattle.pool_turn.specs.Ends.{task_of, children_of, last_of};

    /// A task, with all that goes with it from turn to turn.
    type Task: Send + Drop;

    /// The task's number.
    ghost number: { Self.Task → ℕ };

    /// The numbers of the children that the task forked, in order.
    ghost forked: { Self.Task → List ℕ };

    /// What the task's last turn answered.
    ghost last: { Self.Task → Last };

    /// The task's number.
    fn number(&self, task: &Self::Task) -> u32
        ensures { result ≡ number task.now };

    /// A turn of the task, by the worker of this number. It may wait.
    fn turn<R: Wait>(&self, rt: &R, worker: u32, task: Self::Task) -> TurnEnd<Self::Task>
        requires { last task ≢ Over }
        ensures number { IfSome (task_of result) (λ t. number t ≡ number task) }
        ensures forked { IfSome (task_of result) (λ t. forked t ≡ forked task ++ map number (children_of result)) }
        ensures last { IfSome (task_of result) (λ t. last t ≡ last_of result) }
        ensures child { All (λ c. (forked c ≡ []) × (last c ≡ New)) (children_of result) };
}
