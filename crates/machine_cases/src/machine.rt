//! The state of a block of cases, and which of its parts a verb is about.

use crate::areas::SharedArea;
use crate::runs::Runner;
use crate::spaces::Space;
use crate::{steps, values};
use read_cases::{Bad, Cases, parted};
use std::alloc::Global;

/// A task, and the reservations of an address space and of a shared area.
#[derive(Drop)]
pub struct Machine {
    runner: Runner,
    space: Space,
    area: SharedArea,
}

impl Machine {
    /// What a block begins with.
    pub fn new(alloc: Global) -> Machine {
        Machine {
            runner: Runner::new(),
            space: Space::new(alloc),
            area: SharedArea::new(alloc),
        }
    }
}

impl Cases for Machine {
    fn begin(&mut self, rt: &HostRuntime) -> Result<(), Bad> {
        *self = Machine::new(rt.alloc());
        Ok(())
    }

    fn answer(&mut self, rt: &HostRuntime, case: &str, came: &mut String) -> Result<(), Bad> {
        let (verb, rest) = parted(case);
        match verb {
            "register" | "decode" | "alu" | "taken" | "amo" | "low" => values::answer(
                verb, rest, came,
            ),
            "step" | "then" | "again" => steps::answer(&mut self.runner.task, verb, rest, came),
            "page" | "fill" | "with" | "run" | "run_on" => {
                self.runner.answer(rt.alloc(), verb, rest, came)
            }
            "space" => self.space.answer(rt.alloc(), rest, came),
            "area" => self.area.answer(rt.alloc(), rest, came),
            _ => Ok(came.push_str("unread")?),
        }
    }
}
