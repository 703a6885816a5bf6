//! A turn of a run: the instructions of a page by its decoded words, or one exactly.

ghost use Rattle.std.specs.Prelude.{◌≡◌, ◌+◌, ◌-◌, ◌/◌, ◌^◌, ◌≤◌, ◌<◌, Some};
ghost use Rattle.rv_exec.specs.Courses.{EndsBy};
ghost use Rattle.quantum.specs.Instructions.{next_done, ran};
ghost use Rattle.quantum.specs.Turns.{TurnsTo, acting_of};

use crate::acting::Acting;
use rv_exec::{Flow, RowRun, Step, run_row, step};
use rv_table::{Area, Regs};

/// What stops a run.
#[derive(Clone, Copy)]
pub(crate) enum Stop {
    Call,
    Trap(u8),
    Shared(Area),
    Memory,
}

/// How many instructions were done in a turn, and what stopped it.
#[derive(Clone, Copy)]
pub(crate) struct Stretch {
    pub(crate) count: u32,
    pub(crate) stop: Option<Stop>,
}

impl Acting {
    /// Does some instructions, at most so many, and one at least where nothing stops it.
    pub(crate) fn turn(&mut self, regs: &mut Regs, most: u32) -> Stretch
        requires { 0 < most }
        ensures ran { ran result.count (record { acting = acting_of self.old; registers = regs.old })
            ≡ Some (record { acting = acting_of self.new; registers = regs.new }) }
        ensures turned { TurnsTo (record { acting = acting_of self.new; registers = regs.new })
            result.count most result.stop }
    {
        let run = self.run_near(regs, most);
        let count = run.count;
        match run.flow {
            Flow::Call => Stretch {
                count,
                stop: Some(Stop::Call),
            },
            Flow::Trap(signal) => Stretch {
                count,
                stop: Some(Stop::Trap(signal)),
            },
            Flow::Next => {
                if count == 0 {
                    self.step_after(regs, 0)
                } else {
                    Stretch { count, stop: None }
                }
            }
            Flow::Jump => unreachable!(),
            Flow::Refused => self.step_after(regs, count),
        }
    }

    /// Does instructions of the page that the task stands in by its decoded words: none where they aren't there.
    fn run_near(&mut self, regs: &mut Regs, most: u32) -> RowRun
        requires { 0 < most }
        ensures ran { ran result.count (record { acting = acting_of self.old; registers = regs.old })
            ≡ Some (record { acting = acting_of self.new; registers = regs.new }) }
        ensures few { result.count ≤ most }
        ensures ended { EndsBy (next_done (record { acting = acting_of self.new; registers = regs.new }))
            result.count most result.flow }
    {
        let page = page_of(regs.pc);
        if !self.space.decode(self.alloc, page) {
            return refused();
        }
        match self.space.take_words(page) {
            Some(row) => {
                let run = run_row(regs, self, row.as_slice(), most);
                self.space.put_words(page, row);
                run
            }
            None => refused(),
        }
    }

    /// Does the next instruction exactly, behind so many others.
    fn step_after(&mut self, regs: &mut Regs, count: u32) -> Stretch
        requires { count < 4294967295 }
        ensures ran { ran (result.count - count) (record { acting = acting_of self.old; registers = regs.old })
            ≡ Some (record { acting = acting_of self.new; registers = regs.new }) }
        ensures behind { count ≤ result.count }
        ensures turned { TurnsTo (record { acting = acting_of self.new; registers = regs.new })
            result.count (count + 1) result.stop }
    {
        match step(regs, self) {
            Step::Next => Stretch {
                count: count + 1,
                stop: None,
            },
            Step::Call => Stretch {
                count,
                stop: Some(Stop::Call),
            },
            Step::Trap(signal) => Stretch {
                count,
                stop: Some(Stop::Trap(signal)),
            },
            Step::Shared(area) => Stretch {
                count,
                stop: Some(Stop::Shared(area)),
            },
            Step::Memory => Stretch {
                count,
                stop: Some(Stop::Memory),
            },
        }
    }
}

/// Nothing was done by decoded words.
fn refused() -> RowRun
    ensures count { result.count ≡ 0 }
    ensures flow { result.flow ≡ Flow.Refused }
{
    RowRun {
        count: 0,
        flow: Flow::Refused,
    }
}

/// The page of an address.
fn page_of(address: u64) -> u64
    ensures page { result ≡ address / 4096 }
    ensures low { result < 2 ^ 52 }
{
    address / 4096
}
