//! The calls that are to fail, and how they are counted.

ghost use Rattle.std.specs.Prelude.{◌≡◌, [], ◌∷◌, ◌++◌, ◌&&◌, ◌==◌, if◌then◌else◌, length, OnOk, OnErr};
ghost use Rattle.host_memory.specs.Plans.{is_op, is_for, is_below, fails, one_less, after_call, lines_below};
ghost use Rattle.host_memory.specs.Plans.{lines_beside};
ghost use Rattle.host_memory.specs.declared.plan.PlanErr.TheVariants.{Memory as WantOfMemory};

use sn_base::Memory;
use sn_text::{Route, same_names};
use std::alloc::Global;
use std::marker::Model;
use std::mem;

/// A method of a node whose calls may be planned to fail.
#[derive(Clone, Copy, Debug, PartialEq, Eq)]
pub enum Op {
    /// `HostNode::stat`.
    Stat,
    /// `HostNode::list`.
    List,
    /// `HostNode::lend`.
    Lend,
    /// `HostNode::open`.
    Open,
    /// `HostNode::read_at`.
    ReadAt,
}

/// Why no failing call was planned: the first of these that holds.
#[derive(Clone, Copy, Debug, PartialEq, Eq)]
pub enum PlanErr {
    /// Nothing is there.
    NoNode,
    /// An allocation was refused.
    Memory,
}

impl From<Memory> for PlanErr {
    ghost from_gives = { λ _ e. e ≡ WantOfMemory };

    fn from(_e: Memory) -> PlanErr {
        PlanErr::Memory
    }
}

/// A call that is to fail: one of a method of the node in a place.
#[derive(Drop)]
pub struct Line {
    /// The names that lead to the node from the world's tree. The world has none itself, and a grant is its lend.
    pub place: Route,
    /// The method.
    pub op: Op,
    /// Which call from now it is: 1 is the next, and 0 none.
    pub left: u64,
}

/// The calls that are to fail. Contracts see it as the list of its lines.
#[cycle(plan)]
#[derive(Drop)]
pub struct Plan {
    first: Link,
}

#[cycle(plan)]
#[derive(Drop)]
enum Link {
    End,
    More(Line, Box<Plan>),
}

impl Model for Plan {
    ghost use Rattle.std.specs.Prelude.{List, length};
    ghost use Rattle.host_memory.specs.declared.plan.Line.{Line};

    ghost Value = { List Line };

    ghost use Rattle.host_memory.specs.Lines.{lines_of};

    ghost view = { λ a. lines_of a.first };

    ghost size = { length };

    ghost use Rattle.std.proofs.Common.{arith};

    ghost size_decreases = { λ a h. Prim.grind arith };
}

impl Op {
    fn is(self, other: Op) -> bool
        ensures { result ≡ is_op self other }
    {
        self == other
    }
}

impl Line {
    /// Whether the line is for this method of the node in this place.
    fn is_for(&self, place: &Route, op: Op) -> bool
        ensures { result ≡ is_for place.now op self.now }
    {
        same_names(place.names(), self.place.names()) && op.is(self.op)
    }

    /// Whether the line is for a node in this place or below it.
    fn is_below(&self, place: &Route) -> bool
        ensures { result ≡ is_below place.now self.now }
    {
        let place = place.names();
        let names = self.place.names();
        names.len() >= place.len() && same_names(place, &names[..place.len()])
    }

    /// Counts a call of the method of the node in this place, and answers whether it is to fail.
    fn meet(&mut self, place: &Route, op: Op) -> bool
        ensures fails { result ≡ (is_for place.now op self.old && self.old.left == 1) }
        ensures after { self.new ≡ (if is_for place.now op self.old then one_less self.old else self.old) }
    {
        if !self.is_for(place, op) {
            return false;
        }
        let fails = self.left == 1;
        self.left = self.left.saturating_sub(1);
        fails
    }
}

impl Plan {
    /// No lines. It takes no memory.
    pub fn new() -> Plan
        ensures { result ≡ [] }
    {
        Plan { first: Link::End }
    }

    /// Adds a line in front. An `Err` leaves the plan as it was.
    pub fn add(&mut self, alloc: Global, line: Line) -> Result<(), Memory>
        ensures ok { OnOk result (self.new ≡ line ∷ self.old) }
        ensures err { OnErr result (self.new ≡ self.old) }
    {
        match Box::new(alloc, mem::replace(self, Plan::new())) {
            Ok(rest) => {
                self.first = Link::More(line, rest);
                Ok(())
            }
            Err(refused) => {
                *self = refused.value;
                Err(Memory)
            }
        }
    }

    /// Counts a call of the method of the node in this place, and answers whether it is to fail.
    pub(crate) fn meet(&mut self, place: &Route, op: Op) -> bool
        ensures fails { result ≡ fails place.now op self.old }
        ensures after { self.new ≡ after_call place.now op self.old }
    {
        match &mut self.first {
            Link::End => false,
            Link::More(line, rest) => {
                let here = line.meet(place, op);
                let later = rest.meet(place, op);
                here || later
            }
        }
    }

    /// Adds another plan behind. It takes no memory.
    pub(crate) fn join(&mut self, other: Plan)
        ensures { self.new ≡ self.old ++ other }
    {
        match &mut self.first {
            Link::End => *self = other,
            Link::More(_, rest) => rest.join(other),
        }
    }

    /// The lines for nodes in this place and below it, and the others. It takes no memory.
    fn parted(self, place: &Route) -> (Plan, Plan)
        ensures below { result.0 ≡ lines_below place.now self }
        ensures beside { result.1 ≡ lines_beside place.now self }
    {
        let Plan { first } = self;
        match first {
            Link::End => (Plan::new(), Plan::new()),
            Link::More(line, rest) => {
                let mut rest = rest;
                let behind = mem::replace(&mut *rest, Plan::new());
                let (below, beside) = behind.parted(place);
                if line.is_below(place) {
                    *rest = below;
                    (
                        Plan {
                            first: Link::More(line, rest),
                        },
                        beside,
                    )
                } else {
                    *rest = beside;
                    (
                        below,
                        Plan {
                            first: Link::More(line, rest),
                        },
                    )
                }
            }
        }
    }

    /// Takes the lines for nodes in this place and below it. It takes no memory.
    pub(crate) fn take_below(&mut self, place: &Route) -> Plan
        ensures below { result ≡ lines_below place.now self.old }
        ensures beside { self.new ≡ lines_beside place.now self.old }
    {
        let (below, beside) = mem::replace(self, Plan::new()).parted(place);
        *self = beside;
        below
    }
}
