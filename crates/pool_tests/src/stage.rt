//! What runs the turns of the tests' tasks.

ghost use Rattle.std.specs.Prelude.{◌≡◌, ◌++◌, [], All, IfSome, map};
ghost use Rattle.pool_turn.specs.Ends.{task_of, children_of, last_of};
ghost use Rattle.pool_turn.specs.declared.turn.Last.TheVariants.{New};

use crate::job::{Job, Part};
use pool_turn::{Last, Turn, TurnEnd};
use std::alloc::Global;
use std::sync::{Mutex, Wait};

/// What the tasks share.
#[derive(Drop)]
pub struct Board {
    /// The number to which the token has come.
    pub token: u32,
    /// The number of the next child.
    pub next: u32,
}

/// Runs the turns. The token goes round in a ring of so many numbers, and children have numbers below `most`.
#[derive(Drop)]
pub struct Stage {
    pub alloc: Global,
    pub board: Mutex<Board>,
    pub ring: u32,
    pub most: u32,
}

// How a turn ends.
enum Answer {
    GoesOn,
    Forks(u32),
    Waits,
    IsOver,
    NoRoom,
    NoMemory,
}

impl Stage {
    // A turn, which changes nothing of the task but how many are left.
    fn answer<R: Wait>(&self, rt: &R, job: &mut Job) -> Answer
        ensures number { job.new.number ≡ job.old.number }
        ensures children { job.new.children.items ≡ job.old.children.items }
    {
        match job.part {
            Part::Parks => return Answer::Waits,
            Part::Forks => return self.child(rt),
            Part::Passes if !self.passes(rt, job.number) => return Answer::Waits,
            _ => {}
        }
        if job.left > 0 {
            job.left -= 1;
            return Answer::GoesOn;
        }
        match job.part {
            Part::Fills => Answer::NoRoom,
            Part::Loses => Answer::NoMemory,
            _ => Answer::IsOver,
        }
    }

    // Whether the token was at this number, and went on.
    fn passes<R: Wait>(&self, rt: &R, number: u32) -> bool {
        let mut board = self.board.lock(rt);
        if board.token != number {
            return false;
        }
        let next = number.wrapping_add(1);
        board.token = if next < self.ring { next } else { 0 };
        true
    }

    // A number for a child, if there is one.
    fn child<R: Wait>(&self, rt: &R) -> Answer {
        let mut board = self.board.lock(rt);
        if board.next >= self.most {
            return Answer::IsOver;
        }
        let number = board.next;
        board.next += 1;
        Answer::Forks(number)
    }

    // A child of this number.
    fn forked(&self, job: Job, number: u32) -> TurnEnd<Job>
        ensures number { IfSome (task_of result) (λ t. t.number ≡ job.number) }
        ensures forked { IfSome (task_of result) (λ t. t.children.items ≡ job.children.items ++
            map (λ c. c.number) (children_of result)) }
        ensures last { IfSome (task_of result) (λ t. t.last ≡ last_of result) }
        ensures child { All (λ c. (c.children.items ≡ []) × (c.last ≡ New)) (children_of result) }
    {
        let mut job = job.told(Last::GoesOn);
        if job.children.push(number).is_err() {
            return TurnEnd::Memory;
        }
        let child = Job {
            number,
            part: job.part,
            left: job.left,
            children: Vec::new(self.alloc),
            last: Last::New,
        };
        TurnEnd::Forked(job, child)
    }
}

impl Turn for Stage {
    type Task = Job;

    ghost number = { λ j. j.number };

    ghost forked = { λ j. j.children.items };

    ghost last = { λ j. j.last };

    fn number(&self, job: &Job) -> u32 {
        job.number
    }

    fn turn<R: Wait>(&self, rt: &R, _worker: u32, job: Job) -> TurnEnd<Job> {
        let mut job = job;
        match self.answer(rt, &mut job) {
            Answer::GoesOn => TurnEnd::Ready(job.told(Last::GoesOn)),
            Answer::Forks(number) => self.forked(job, number),
            Answer::Waits => TurnEnd::Parked(job.told(Last::Waits)),
            Answer::IsOver => TurnEnd::Ended(job.told(Last::Over)),
            Answer::NoRoom => TurnEnd::Full(job.told(Last::NoRoom)),
            Answer::NoMemory => TurnEnd::Memory,
        }
    }
}
