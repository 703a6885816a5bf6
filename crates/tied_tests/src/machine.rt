//! The machine: counters, and pairs. An entry adds a pair's first to a counter, writes a pair, or moves between two
//! counters.

ghost use Rattle.std.specs.Prelude.{◌≡◌};

use tied_cells::Machine;

/// What a part holds.
#[derive(Drop)]
pub enum Part {
    Counter(u64),
    Pair(u64, u64),
}

/// An entry: a task adds a pair's first to a counter, which is its reply; or writes a pair; or moves from one counter
/// to another, which have `left` and `right` then.
#[derive(Drop)]
pub enum Entry {
    Add {
        task: u64,
        pair: u64,
        counter: u64,
        reply: u64,
    },
    Put {
        task: u64,
        pair: u64,
        left: u64,
        right: u64,
    },
    Move {
        task: u64,
        low: u64,
        high: u64,
        left: u64,
        right: u64,
    },
}

/// The machine.
pub struct Tally;

impl Machine for Tally {
    ghost use Rattle.tied_tests.specs.Tallies.{tally, tally_stays};

    type Part = Part;

    type Entry = Entry;

    ghost rules = { tally };

    ghost stays = { tally_stays };
}
