//! A call: it looks at a pair, holds a counter, and adds the pair's first to it.

ghost use Rattle.std.specs.Prelude.{◌≡◌, ◌+◌, ◌%◌, ◌^◌, ◌∷◌, [], ℕ, Ok, Some, IfSome, IfNone, length, true};
ghost use Rattle.tied_cells.specs.Machines.{replay};
ghost use Rattle.tied_cells.specs.Rounds.{Commits, Learns, held_part};
ghost use Rattle.tied_cells.specs.declared.held.HeldPart.{HeldPart as APart};
ghost use Rattle.tied_tests.specs.Tallies.{tally};
ghost use Rattle.tied_tests.specs.Tries.{left_of, IfDone, IfAgain, IfStopped, added_part};
ghost use Rattle.tied_tests.specs.declared.machine.Part.TheVariants.{Counter, Pair};
ghost use Rattle.tied_tests.specs.declared.machine.Entry.TheVariants.{Add};

use crate::kernel::Kernel;
use crate::machine::{Entry, Part, Tally};
use hist_count::OfHistory;
use sn_ties::OfTies;
use std::alloc::{AllocError, Global};
use std::sync::Wait;
use tied_cells::{Held, Page, Round, RoundEnd, Seat};

/// What an addition came to.
#[derive(Drop)]
pub struct Added {
    pub place: u64,
    pub seen: u64,
    pub reply: u64,
}

/// How a try ended.
#[derive(Drop)]
pub enum Tried {
    Done(Added),
    Again,
    Stopped,
}

impl<J: OfHistory + OfTies> Kernel<J> {
    /// Tries once.
    fn try_add<R: Wait>(
        &self,
        rt: &R,
        alloc: Global,
        seat: &mut Seat<Tally, J>,
        pair: &Page<Tally, J>,
        counter: &Page<Tally, J>,
    ) -> Tried
        ensures done { IfDone result (λ a. (a.place ≡ length seat.new.front) × (a.seen ≡ length seat.new.front)
            × Commits tally seat.old.task seat.old.front
            (Add seat.old.task pair.now.key counter.now.key a.reply) seat.new.front) }
        ensures again { IfAgain result (Learns tally seat.old.task seat.old.front seat.new.front) }
        ensures stopped { IfStopped result (Learns tally seat.old.task seat.old.front seat.new.front) }
        ensures task { seat.new.task ≡ seat.old.task }
    {
        let (look, left) = pair.look(
            rt,
            &self.book.wires,
            |part: &Part| -> Option<u64>
                ensures { result ≡ left_of part.now }
            {
                match part {
                    Part::Pair(left, _) => Some(*left),
                    Part::Counter(_) => None,
                }
            },
        );
        let Some(left) = left else {
            return Tried::Stopped;
        };
        let mut round = Round::new(alloc);
        if round.keep(look).is_err() {
            return Tried::Stopped;
        }
        if round.hold(rt, counter).is_err() {
            return Tried::Stopped;
        }
        let count = match round.content(counter.key) {
            Some(Part::Counter(count)) => *count,
            Some(Part::Pair(_, _)) => return Tried::Stopped,
            None => return Tried::Stopped,
        };
        self.finish(rt, alloc, seat, round, pair.key, counter.key, left, count)
    }

    /// Enters it.
    fn finish<R: Wait>(
        &self,
        rt: &R,
        alloc: Global,
        seat: &mut Seat<Tally, J>,
        round: Round<'_, Tally, J>,
        pair: u64,
        counter: u64,
        left: u64,
        count: u64,
    ) -> Tried
        requires { (seen : _) × (left_of (replay tally seen pair) ≡ Some left) × (round.0 ≡ (pair, seen) ∷ [])
            × (round.1.0 ≡ held_part counter (Counter count) ∷ []) }
        ensures done { IfDone result (λ a. (a.place ≡ length seat.new.front) × (a.seen ≡ length seat.new.front)
            × Commits tally seat.old.task seat.old.front (Add seat.old.task pair counter a.reply) seat.new.front) }
        ensures again { IfAgain result (Learns tally seat.old.task seat.old.front seat.new.front) }
        ensures stopped { IfStopped result (Learns tally seat.old.task seat.old.front seat.new.front) }
        ensures task { seat.new.task ≡ seat.old.task }
    {
        let reply = count.wrapping_add(left);
        let task = seat.task;
        let ended = round.end(
            rt,
            alloc,
            &self.book,
            seat,
            move |place: u64, held: &mut Held<Part>| -> Result<Entry, AllocError>
                requires { held.old.parts.items ≡ held_part counter (Counter count) ∷ [] }
                ensures entry { result ≡ Ok (Add task pair counter reply) }
                ensures held { held.new.parts.items ≡ added_part counter reply ∷ [] }
            {
                let _ = place;
                let _count = count;
                let part = &mut held.parts[0];
                part.content = Part::Counter(reply);
                part.changed = true;
                Ok(Entry::Add {
                    task,
                    pair,
                    counter,
                    reply,
                })
            },
        );
        match ended {
            RoundEnd::Done(placed) => Tried::Done(Added {
                place: placed.place,
                seen: placed.seen,
                reply,
            }),
            RoundEnd::Again(_) => Tried::Again,
            RoundEnd::Full => Tried::Stopped,
            RoundEnd::Memory => Tried::Stopped,
        }
    }

    /// Adds a pair's first to a counter, and tries again where the pair was changed meanwhile. `None`: no room for an
    /// entry, or no memory, or parts of other kinds; nothing was entered.
    pub fn add<R: Wait>(
        &self,
        rt: &R,
        alloc: Global,
        seat: &mut Seat<Tally, J>,
        pair: &Page<Tally, J>,
        counter: &Page<Tally, J>,
    ) -> Option<Added>
        ensures done { IfSome result (λ a. (a.place ≡ length seat.new.front) × (a.seen ≡ length seat.new.front)
            × Commits tally seat.old.task seat.old.front
            (Add seat.old.task pair.now.key counter.now.key a.reply) seat.new.front) }
        ensures none { IfNone result (Learns tally seat.old.task seat.old.front seat.new.front) }
        ensures task { seat.new.task ≡ seat.old.task }
    {
        for _ in rt.forever() {
            match self.try_add(rt, alloc, seat, pair, counter) {
                Tried::Done(added) => return Some(added),
                Tried::Again => {}
                Tried::Stopped => return None,
            }
        }
        None
    }
}
