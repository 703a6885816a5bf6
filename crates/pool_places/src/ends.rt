//! A task between two turns, and how a pool ends.

/// A task, with the pool's count of turns as its last turn began: of those that answered anything but Parked. 0 before
/// its first turn.
#[derive(Drop, Debug)]
pub struct Tried<K> {
    pub task: K,
    pub began: u64,
}

/// How a pool ends.
#[derive(Drop, Debug)]
pub enum PoolEnd<K> {
    /// Each task is over.
    AllEnded {
        ended: Vec<K>,
    },
    /// The tasks that aren't over are all parked, and none was woken. `turns` is the pool's count of the turns that
    /// answered anything but Parked.
    Stuck {
        tasks: Vec<Tried<K>>,
        ended: Vec<K>,
        turns: u64,
    },
    /// A turn answered Full.
    Full {
        tasks: Vec<Tried<K>>,
        ended: Vec<K>,
    },
    /// Memory ran out. The tasks are gone.
    Memory,
}
