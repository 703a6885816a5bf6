//! Tasks that compute so many steps a turn, each for itself, and are over after so many turns.

use pool_turn::{Last, Turn, TurnEnd};
use std::sync::Wait;

/// A task: its number, how many turns it has still, what it has computed, and what its last turn answered.
#[derive(Drop)]
pub struct Computation {
    pub number: u32,
    pub turns: u64,
    pub value: u64,
    pub last: Last,
}

/// Turns of so many steps.
#[derive(Drop)]
pub struct Computing {
    pub steps: u64,
}

/// A number after so many steps of a xorshift generator (Marsaglia, 2003).
fn computed(value: u64, steps: u64) -> u64 {
    let mut value = value;
    for _ in 0..steps {
        value ^= value << 13;
        value ^= value >> 7;
        value ^= value << 17;
    }
    value
}

impl Turn for Computing {
    ghost use Rattle.std.specs.Prelude.{[]};

    type Task = Computation;

    ghost number = { λ t. t.number };

    ghost forked = { λ t. [] };

    ghost last = { λ t. t.last };

    fn number(&self, task: &Computation) -> u32 {
        task.number
    }

    fn turn<R: Wait>(&self, _rt: &R, _worker: u32, task: Computation) -> TurnEnd<Computation> {
        let Computation {
            number,
            turns,
            value,
            ..
        } = task;
        let value = computed(value, self.steps);
        if turns <= 1 {
            return TurnEnd::Ended(Computation {
                number,
                turns: 0,
                value,
                last: Last::Over,
            });
        }
        TurnEnd::Ready(Computation {
            number,
            turns: turns - 1,
            value,
            last: Last::GoesOn,
        })
    }
}
