//! A sink in memory, which keeps what it takes and fails where it is told to.

ghost use Rattle.std.specs.Prelude.{◌≡◌, ◌<◌, ◌≤◌, [], length, take, IfOk, OnOk, OnErr, IsTrue, IsFalse, Some};
ghost use Rattle.sn_base.specs.Faults.{HasCause};
ghost use Rattle.sn_edge.specs.Errors.{has_failed};
ghost use Rattle.sn_edge.specs.Taken.{with_taken};
ghost use Rattle.sn_edge.specs.Plan.{no_plan, fails_next, fails_no_more, with_failing, plan_after};

use crate::plan::EdgePlan;
use crate::{EdgeErr, Sink};
use sn_base::{List, Memory};
use std::alloc::Global;
use std::marker::Model;

/// A sink in memory. It takes each piece whole, and fails where it is told to.
#[derive(Drop)]
pub struct MemSink {
    taken: List<u8>,
    plan: EdgePlan,
}

impl Model for MemSink {
    ghost use Rattle.sn_edge.specs.InMemory.{SinkInMemory};

    ghost Value = { SinkInMemory };

    ghost view = { λ a. record { taken = a.taken; plan = a.plan } };
}

impl MemSink {
    /// A sink that took nothing, and no call of which is to fail.
    pub fn new(alloc: Global) -> Self
        ensures taken { result.taken ≡ [] }
        ensures plan { result.plan ≡ no_plan }
    {
        MemSink {
            taken: List::new(alloc),
            plan: EdgePlan::new(alloc),
        }
    }

    /// From now on the call of that number is to fail. Calls of `write` count from 1, and from `u64::MAX` on
    /// all have that number.
    pub fn fail(&mut self, call: u64) -> Result<(), Memory>
        ensures ok { OnOk result (self.new ≡ record self.old { plan = with_failing self.old.plan call }) }
        ensures err { OnErr result (self.new ≡ self.old) }
    {
        self.plan.fail(call)
    }

    /// All the bytes taken so far.
    pub fn bytes(&self) -> &[u8]
        ensures { result.now ≡ self.now.taken }
    {
        self.taken.as_slice()
    }
}

impl Sink for MemSink {
    ghost use Rattle.std.specs.Prelude.{Some};
    ghost use Rattle.sn_edge.specs.Plan.{fails_no_more};

    ghost count = { λ sink. sink.plan.faults };

    ghost told = { λ sink. Some sink.taken };

    ghost unfailing = { λ sink. fails_no_more sink.plan };

    fn faults(&self) -> u64 {
        self.plan.faults()
    }

    fn write(&mut self, bytes: &[u8]) -> Result<usize, EdgeErr>
        ensures bound { IfOk result (λ n. n ≤ length bytes.now) }
        ensures some { IfOk result (λ n. 0 < length bytes.now → 0 < n) }
        ensures ok { IfOk result (λ n. Some self.new.taken ≡ with_taken (Some self.old.taken) (take n bytes.now)) }
        ensures err { OnErr result (self.new.taken ≡ self.old.taken) }
        ensures cause { HasCause (has_failed result) self.old.plan.faults self.new.plan.faults }
        ensures unfailing { IsTrue (fails_no_more self.old.plan) → IsTrue (fails_no_more self.new.plan) }
        ensures succeeds { IsTrue (fails_no_more self.old.plan) → IsFalse (has_failed result) }

        // It takes the piece whole, and fails where the plan says so.
        ensures whole { IfOk result (λ n. n ≡ length bytes.now) }
        ensures failed { has_failed result ≡ fails_next self.old.plan }
        ensures plan { self.new.plan ≡ plan_after self.old.plan (has_failed result) }
    {
        self.plan.begin(false)?;
        self.taken.extend_from_slice(bytes)?;
        Ok(bytes.len())
    }
}
