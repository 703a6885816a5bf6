//! What does the cases: a block's run, and what was told of it.

use crate::answers::answer;
use crate::causes::{print_command, print_memory};
use crate::prints::print_line;
use crate::reach::print_reach;
use crate::runs::{Told, told_of};
use crate::setup::Setup;
use crate::states::State;
use read_cases::{Bad, Cases, parted};
use std::alloc::Global;

/// A run: over what it goes, what it came to once something was asked of it, and how much of its text was asked for;
/// and a state that lines made.
pub struct RunCases {
    setup: Setup,
    told: Option<Told>,
    place: usize,
    state: State,
}

/// Lets all of it go by one call.
impl Drop for RunCases {
    fn drop(self) {
        let RunCases {
            setup: _,
            told: _,
            place: _,
            state: _,
        } = self;
    }
}

impl Cases for RunCases {
    fn begin(&mut self, rt: &HostRuntime) -> Result<(), Bad> {
        self.setup = Setup::new(rt.alloc())?;
        self.state = State::new(rt.alloc());
        self.told = None;
        self.place = 0;
        Ok(())
    }

    fn answer(&mut self, rt: &HostRuntime, case: &str, came: &mut String) -> Result<(), Bad> {
        if case == "again" {
            return self.begin_again(rt);
        }
        if self.told.is_none() && self.set(rt, case)? {
            return Ok(());
        }
        let (verb, rest) = parted(case);
        match verb {
            "command" => print_command(rt.alloc(), came, rest),
            "memory" => print_memory(rt.alloc(), came),
            "reach" => print_reach(rt.alloc(), came, rest),
            "state" => self.state.print(rt.alloc(), came, rest != "untraced"),
            _ => self.ask(rt, case, came),
        }
    }
}

impl RunCases {
    pub fn new(alloc: Global) -> Result<RunCases, Bad> {
        Ok(RunCases {
            setup: Setup::new(alloc)?,
            told: None,
            place: 0,
            state: State::new(alloc),
        })
    }

    /// Begins another run over the same folder.
    fn begin_again(&mut self, rt: &HostRuntime) -> Result<(), Bad> {
        self.told = None;
        self.place = 0;
        self.setup.begin_again(rt.alloc())
    }

    /// Does a line that sets something up; whether it is one.
    fn set(&mut self, rt: &HostRuntime, line: &str) -> Result<bool, Bad> {
        if self.setup.set(rt, line)? {
            return Ok(true);
        }
        let (verb, rest) = parted(line);
        self.state.set(rt.alloc(), verb, rest)
    }

    /// Has it run, where it hasn't.
    fn run(&mut self, rt: &HostRuntime) -> Result<(), Bad> {
        if self.told.is_none() {
            self.told = Some(told_of(rt.alloc(), &self.setup)?);
        }
        Ok(())
    }

    /// Asks the run something.
    fn ask(&mut self, rt: &HostRuntime, question: &str, came: &mut String) -> Result<(), Bad> {
        self.run(rt)?;
        let Some(told) = &self.told else {
            return Ok(());
        };
        match question {
            "|" => self.place = print_line(came, told.out.inner.bytes(), self.place)?,
            "end" => write!(came, "{}", self.place == told.out.inner.bytes().len())?,
            _ => answer(rt, told, &self.setup, question, came)?,
        }
        Ok(())
    }
}
