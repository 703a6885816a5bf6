//! A call: it holds a pair, and writes it.

ghost use Rattle.std.specs.Prelude.{◌≡◌, ◌∷◌, [], ℕ, Ok, IfSome, IfNone, length, true};
ghost use Rattle.tied_cells.specs.Ended.{IfDone, IfAgain, IfFull, IfMemory};
ghost use Rattle.tied_cells.specs.Rounds.{Commits, Learns, held_part};
ghost use Rattle.tied_tests.specs.Tallies.{tally};
ghost use Rattle.tied_tests.specs.Tries.{put_part};
ghost use Rattle.tied_tests.specs.declared.machine.Part.TheVariants.{Pair};
ghost use Rattle.tied_tests.specs.declared.machine.Entry.TheVariants.{Put};

use crate::kernel::Kernel;
use crate::machine::{Entry, Part, Tally};
use hist_count::OfHistory;
use sn_ties::OfTies;
use std::alloc::{AllocError, Global};
use std::sync::Wait;
use tied_cells::{Held, Page, Round, RoundEnd, Seat};

impl<J: OfHistory + OfTies> Kernel<J> {
    /// Writes a pair.
    pub fn put<R: Wait>(
        &self,
        rt: &R,
        alloc: Global,
        seat: &mut Seat<Tally, J>,
        pair: &Page<Tally, J>,
        left: u64,
        right: u64,
    ) -> Option<u64>
        ensures done { IfSome result (λ n. (n ≡ length seat.new.front) × Commits tally seat.old.task
            seat.old.front (Put seat.old.task pair.now.key left right) seat.new.front) }
        ensures none { IfNone result (Learns tally seat.old.task seat.old.front seat.new.front) }
        ensures task { seat.new.task ≡ seat.old.task }
    {
        let mut round = Round::new(alloc);
        if round.hold(rt, pair).is_err() {
            return None;
        }
        let old = match round.content(pair.key) {
            Some(Part::Pair(a, b)) => (*a, *b),
            Some(Part::Counter(_)) => return None,
            None => return None,
        };
        match self.write(rt, alloc, seat, round, pair.key, old, left, right) {
            RoundEnd::Done(placed) => Some(placed.place),
            RoundEnd::Again(_) => None,
            RoundEnd::Full => None,
            RoundEnd::Memory => None,
        }
    }

    /// Ends a round that holds the pair, whatever it looked at, and writes the pair.
    pub(crate) fn write<R: Wait>(
        &self,
        rt: &R,
        alloc: Global,
        seat: &mut Seat<Tally, J>,
        round: Round<'_, Tally, J>,
        pair: u64,
        old: (u64, u64),
        left: u64,
        right: u64,
    ) -> RoundEnd
        requires { round.1.0 ≡ held_part pair (Pair old.0 old.1) ∷ [] }
        ensures done { IfDone result (λ p. (p.place ≡ length seat.new.front) × Commits tally seat.old.task
            seat.old.front (Put seat.old.task pair left right) seat.new.front) }
        ensures again { IfAgain result (λ _. Learns tally seat.old.task seat.old.front seat.new.front) }
        ensures full { IfFull result (Learns tally seat.old.task seat.old.front seat.new.front) }
        ensures memory { IfMemory result (seat.new.front ≡ seat.old.front) }
        ensures task { seat.new.task ≡ seat.old.task }
    {
        let task = seat.task;
        round.end(
            rt,
            alloc,
            &self.book,
            seat,
            move |place: u64, held: &mut Held<Part>| -> Result<Entry, AllocError>
                requires { held.old.parts.items ≡ held_part pair (Pair old.0 old.1) ∷ [] }
                ensures entry { result ≡ Ok (Put task pair left right) }
                ensures held { held.new.parts.items ≡ put_part pair left right ∷ [] }
            {
                let _ = place;
                let _old = old;
                let part = &mut held.parts[0];
                part.content = Part::Pair(left, right);
                part.changed = true;
                Ok(Entry::Put {
                    task,
                    pair,
                    left,
                    right,
                })
            },
        )
    }
}
