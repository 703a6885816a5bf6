//! A task of the tests.

ghost use Rattle.std.specs.Prelude.{◌≡◌};

use pool_turn::Last;

/// What a task does.
#[derive(Drop, Clone, Copy, Debug, PartialEq, Eq)]
pub enum Part {
    /// It takes so many turns, and is over.
    Counts,
    /// It waits for the token to come to its number, hands it on, so many times, and is over.
    Passes,
    /// It forks as long as there are numbers for children, and is over.
    Forks,
    /// It is parked for ever.
    Parks,
    /// It takes so many turns, and finds no room.
    Fills,
    /// It takes so many turns, and finds no memory.
    Loses,
}

/// A task.
#[derive(Drop)]
pub struct Job {
    pub number: u32,
    pub part: Part,
    /// How many turns are left.
    pub left: u32,
    /// The numbers of the children.
    pub children: Vec<u32>,
    /// What the last turn answered.
    pub last: Last,
}

impl Job {
    /// The same, once a turn answered so.
    pub fn told(self, last: Last) -> Job
        ensures number { result.number ≡ self.number }
        ensures children { result.children.items ≡ self.children.items }
        ensures last { result.last ≡ last }
    {
        Job {
            number: self.number,
            part: self.part,
            left: self.left,
            children: self.children,
            last,
        }
    }
}
