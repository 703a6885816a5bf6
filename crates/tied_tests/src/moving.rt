//! A call: it holds two counters, and moves 1 from one to the other.

ghost use Rattle.std.specs.Prelude.{◌≡◌, ◌≢◌, ◌+◌, ◌<◌, ◌∷◌, [], ℕ, Ok, IfSome, IfNone, length, true};
ghost use Rattle.tied_cells.specs.Rounds.{Commits, Learns, held_part};
ghost use Rattle.tied_cells.specs.Ended.{IfDone, IfAgain, IfFull, IfMemory};
ghost use Rattle.tied_tests.specs.Tallies.{tally};
ghost use Rattle.tied_tests.specs.Tries.{added_part};
ghost use Rattle.tied_tests.specs.declared.machine.Part.TheVariants.{Counter};
ghost use Rattle.tied_tests.specs.declared.machine.Entry.TheVariants.{Move};

use crate::kernel::Kernel;
use crate::machine::{Entry, Part, Tally};
use hist_count::OfHistory;
use sn_ties::OfTies;
use std::alloc::{AllocError, Global};
use std::sync::Wait;
use tied_cells::{Held, Page, Round, RoundEnd, Seat};

/// What two counters have.
#[derive(Drop, Clone, Copy)]
pub struct Counts {
    pub left: u64,
    pub right: u64,
}

/// Moves 1 up or down, where there is one, and room for it.
fn moved(before: Counts, upward: bool) -> Option<Counts>
    ensures { IfSome result (λ after. before.left + before.right ≡ after.left + after.right) }
{
    if upward && before.left > 0 && before.right < u64::MAX {
        Some(Counts {
            left: before.left - 1,
            right: before.right + 1,
        })
    } else if !upward && before.right > 0 && before.left < u64::MAX {
        Some(Counts {
            left: before.left + 1,
            right: before.right - 1,
        })
    } else {
        None
    }
}

impl<J: OfHistory + OfTies> Kernel<J> {
    /// Moves 1 from the counter of the lower key to the other, or back. `None`: there is none to move, or no room for
    /// an entry, or no memory, or parts of other kinds; nothing was entered.
    pub fn shift<R: Wait>(
        &self,
        rt: &R,
        alloc: Global,
        seat: &mut Seat<Tally, J>,
        low: &Page<Tally, J>,
        high: &Page<Tally, J>,
        upward: bool,
    ) -> Option<Counts>
        ensures done { IfSome result (λ c. Commits tally seat.old.task seat.old.front
            (Move seat.old.task low.now.key high.now.key c.left c.right) seat.new.front) }
        ensures none { IfNone result (Learns tally seat.old.task seat.old.front seat.new.front) }
        ensures task { seat.new.task ≡ seat.old.task }
    {
        if low.key >= high.key {
            return None;
        }
        let mut round = Round::new(alloc);
        if round.hold(rt, low).is_err() {
            return None;
        }
        if round.hold(rt, high).is_err() {
            return None;
        }
        let left = match round.content(low.key) {
            Some(Part::Counter(count)) => *count,
            Some(Part::Pair(_, _)) => return None,
            None => return None,
        };
        let right = match round.content(high.key) {
            Some(Part::Counter(count)) => *count,
            Some(Part::Pair(_, _)) => return None,
            None => return None,
        };
        let before = Counts { left, right };
        let Some(after) = moved(before, upward) else {
            return None;
        };
        match self.settle(rt, alloc, seat, round, (low.key, high.key), before, after) {
            RoundEnd::Done(_) => Some(after),
            RoundEnd::Again(_) => None,
            RoundEnd::Full => None,
            RoundEnd::Memory => None,
        }
    }

    /// Enters it.
    fn settle<R: Wait>(
        &self,
        rt: &R,
        alloc: Global,
        seat: &mut Seat<Tally, J>,
        round: Round<'_, Tally, J>,
        keys: (u64, u64),
        before: Counts,
        after: Counts,
    ) -> RoundEnd
        requires keys { keys.0 < keys.1 }
        requires sum { before.left + before.right ≡ after.left + after.right }
        requires held { round.1.0 ≡ held_part keys.0 (Counter before.left)
            ∷ held_part keys.1 (Counter before.right) ∷ [] }
        ensures done { IfDone result (λ _. Commits tally seat.old.task seat.old.front
            (Move seat.old.task keys.0 keys.1 after.left after.right) seat.new.front) }
        ensures again { IfAgain result (λ _. Learns tally seat.old.task seat.old.front seat.new.front) }
        ensures full { IfFull result (Learns tally seat.old.task seat.old.front seat.new.front) }
        ensures memory { IfMemory result (seat.new.front ≡ seat.old.front) }
        ensures task { seat.new.task ≡ seat.old.task }
    {
        let task = seat.task;
        let (low, high) = keys;
        round.end(
            rt,
            alloc,
            &self.book,
            seat,
            move |place: u64, held: &mut Held<Part>| -> Result<Entry, AllocError>
                requires { held.old.parts.items ≡ held_part low (Counter before.left)
                    ∷ held_part high (Counter before.right) ∷ [] }
                ensures entry { result ≡ Ok (Move task low high after.left after.right) }
                ensures held { held.new.parts.items ≡ added_part low after.left ∷ added_part high after.right ∷ [] }
            {
                let _ = place;
                let _before = before;
                let part = &mut held.parts[0];
                part.content = Part::Counter(after.left);
                part.changed = true;
                let part = &mut held.parts[1];
                part.content = Part::Counter(after.right);
                part.changed = true;
                Ok(Entry::Move {
                    task,
                    low,
                    high,
                    left: after.left,
                    right: after.right,
                })
            },
        )
    }
}
