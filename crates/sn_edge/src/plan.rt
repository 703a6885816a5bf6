//! The calls of a source or a sink in memory that are to fail, and how calls and faults are counted.

ghost use Rattle.std.specs.Prelude.{◌≡◌, ◌<◌, OnOk, OnErr, IsTrue, ◌||◌, Ok, Err, is_err, ◌==◌};
ghost use Rattle.std.specs.List.{list_any};
ghost use Rattle.sn_base.specs.Faults.{HasCause};
ghost use Rattle.sn_edge.specs.Errors.{has_failed};

use crate::EdgeErr;
use sn_base::{List, Memory, capped_add};
use std::alloc::Global;

/// Which calls of an object in memory are to fail, and how many calls and faults there were. Calls count
/// from 1, and both counts stay at `u64::MAX`.
#[derive(Drop)]
pub(crate) struct EdgePlan {
    calls: u64,
    failing: List<u64>,
    faults: u64,
}

impl EdgePlan {
    ghost use Rattle.sn_edge.specs.Plan.{no_plan, fails_next, fails_no_more, with_failing, plan_after};

    pub(crate) fn new(alloc: Global) -> Self
        ensures { result ≡ no_plan }
    {
        EdgePlan {
            calls: 0,
            failing: List::new(alloc),
            faults: 0,
        }
    }

    pub(crate) fn faults(&self) -> u64
        ensures { result ≡ self.now.faults }
    {
        self.faults
    }

    pub(crate) fn fail(&mut self, call: u64) -> Result<(), Memory>
        ensures ok { OnOk result (self.new ≡ with_failing self.old call) }
        ensures err { OnErr result (self.new ≡ self.old) }
    {
        self.failing.push(call)
    }

    /// Counts a call, which fails where it is to fail, and where the object refuses it.
    #[tactic(auto, using(crate::proofs::Plans::begin_steps))]
    pub(crate) fn begin(&mut self, is_refused: bool) -> Result<(), EdgeErr>
        ensures answer { has_failed result ≡ (fails_next self.old || is_refused) }
        ensures failed { is_err result ≡ has_failed result }
        ensures plan { self.new ≡ plan_after self.old (has_failed result) }
        ensures cause { HasCause (has_failed result) self.old.faults self.new.faults }
        ensures unfailing { IsTrue (fails_no_more self.old) → IsTrue (fails_no_more self.new) }
        ensures succeeds { IsTrue (fails_no_more self.old) → has_failed result ≡ is_refused }
    {
        self.calls = capped_add(self.calls, 1);
        let is_planned = contains(self.failing.as_slice(), self.calls);
        if is_planned || is_refused {
            self.faults = capped_add(self.faults, 1);
            return Err(EdgeErr::Failed);
        }
        Ok(())
    }
}

fn contains(calls: &[u64], call: u64) -> bool
    ensures { result ≡ list_any (λ other. other == call) calls.now }
{
    calls.iter().any(|&other| other == call)
}
