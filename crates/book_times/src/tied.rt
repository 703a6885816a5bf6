//! Rounds over pages that are tied to a book.

ghost use Rattle.std.specs.Prelude.{◌≡◌, ◌∷◌, [], ℕ, Ok};
ghost use Rattle.tied_cells.specs.Rounds.{held_part};
ghost use Rattle.book_times.specs.Marks.{next_part};
ghost use Rattle.book_times.specs.declared.machine.Mark.TheVariants.{One, Two};

use crate::failure::Failure;
use crate::machine::{Mark, Marks};
use crate::rows::Kind;
use hist_count::OfHistory;
use sn_ties::OfTies;
use std::alloc::{AllocError, Global};
use std::sync::Wait;
use tied_cells::{Book, Held, Page, Round, RoundEnd, Seat};

/// The book.
#[derive(Drop)]
pub struct Desk<J: OfHistory + OfTies> {
    pub book: Book<Marks, J>,
}

/// Whether a round is done, or has to be made again.
fn is_done(end: RoundEnd) -> Result<bool, Failure> {
    match end {
        RoundEnd::Done(_) => Ok(true),
        RoundEnd::Again(_) => Ok(false),
        RoundEnd::Full => Err(Failure::Lacking),
        RoundEnd::Memory => Err(Failure::Memory),
    }
}

impl<J: OfHistory + OfTies> Desk<J> {
    /// Makes so many rounds over the first of these pages.
    pub fn work<R: Wait>(
        &self,
        rt: &R,
        alloc: Global,
        mut seat: Seat<Marks, J>,
        pages: &[Page<Marks, J>],
        kind: Kind,
        rounds: u64,
    ) -> Result<(), Failure> {
        for _ in 0..rounds {
            self.enter(rt, alloc, &mut seat, pages, kind)?;
        }
        Ok(())
    }

    /// Tries a round until it is done.
    fn enter<R: Wait>(
        &self,
        rt: &R,
        alloc: Global,
        seat: &mut Seat<Marks, J>,
        pages: &[Page<Marks, J>],
        kind: Kind,
    ) -> Result<(), Failure> {
        for _ in rt.forever() {
            let end = match (kind, pages) {
                (Kind::One, [page, ..]) => self.try_one(rt, alloc, seat, page)?,
                (Kind::Five, [low, high, a, b, c, ..]) => {
                    self.try_five(rt, alloc, seat, (low, high), (a, b, c))?
                }
                _ => return Err(Failure::Lacking),
            };
            if is_done(end)? {
                break;
            }
        }
        Ok(())
    }

    /// Holds a page, and ends.
    fn try_one<R: Wait>(
        &self,
        rt: &R,
        alloc: Global,
        seat: &mut Seat<Marks, J>,
        page: &Page<Marks, J>,
    ) -> Result<RoundEnd, Failure> {
        let mut round = Round::new(alloc);
        round.hold(rt, page)?;
        let Some(count) = round.content(page.key) else {
            return Err(Failure::Lacking);
        };
        let count = *count;
        Ok(self.mark_one(rt, alloc, seat, round, page.key, count))
    }

    /// Adds 1 to the part of the page that is held.
    fn mark_one<R: Wait>(
        &self,
        rt: &R,
        alloc: Global,
        seat: &mut Seat<Marks, J>,
        round: Round<'_, Marks, J>,
        page: u64,
        count: u64,
    ) -> RoundEnd
        requires { round.1.0 ≡ held_part page count ∷ [] }
    {
        let task = seat.task;
        round.end(
            rt,
            alloc,
            &self.book,
            seat,
            move |place: u64, held: &mut Held<u64>| -> Result<Mark, AllocError>
                requires { held.old.parts.items ≡ held_part page count ∷ [] }
                ensures entry { result ≡ Ok (One task page) }
                ensures held { held.new.parts.items ≡ next_part page count ∷ [] }
            {
                let _ = place;
                let part = &mut held.parts[0];
                part.content = count.wrapping_add(1);
                part.changed = true;
                Ok(Mark::One { task, page })
            },
        )
    }

    /// Looks at a page.
    fn see<R: Wait>(
        &self,
        rt: &R,
        round: &mut Round<'_, Marks, J>,
        page: &Page<Marks, J>,
    ) -> Result<(), Failure>
        ensures held { round.new.1 ≡ round.old.1 }
    {
        let (look, _) = page.look(rt, &self.book.wires, |part: &u64| *part);
        round.keep(look)?;
        Ok(())
    }

    /// Looks at three pages, holds two, and ends.
    fn try_five<R: Wait>(
        &self,
        rt: &R,
        alloc: Global,
        seat: &mut Seat<Marks, J>,
        pages: (&Page<Marks, J>, &Page<Marks, J>),
        looks: (&Page<Marks, J>, &Page<Marks, J>, &Page<Marks, J>),
    ) -> Result<RoundEnd, Failure> {
        let (low, high) = pages;
        if low.key >= high.key {
            return Err(Failure::Lacking);
        }
        let mut round = Round::new(alloc);
        self.see(rt, &mut round, looks.0)?;
        self.see(rt, &mut round, looks.1)?;
        self.see(rt, &mut round, looks.2)?;
        round.hold(rt, low)?;
        round.hold(rt, high)?;
        let Some(count) = round.content(low.key) else {
            return Err(Failure::Lacking);
        };
        let count = *count;
        let Some(other) = round.content(high.key) else {
            return Err(Failure::Lacking);
        };
        let counts = (count, *other);
        Ok(self.mark_two(rt, alloc, seat, round, (low.key, high.key), counts))
    }

    /// Adds 1 to the parts of both pages that are held.
    fn mark_two<R: Wait>(
        &self,
        rt: &R,
        alloc: Global,
        seat: &mut Seat<Marks, J>,
        round: Round<'_, Marks, J>,
        keys: (u64, u64),
        counts: (u64, u64),
    ) -> RoundEnd
        requires { round.1.0 ≡ held_part keys.0 counts.0 ∷ held_part keys.1 counts.1 ∷ [] }
    {
        let task = seat.task;
        let (low, high) = keys;
        let (count, other) = counts;
        round.end(
            rt,
            alloc,
            &self.book,
            seat,
            move |place: u64, held: &mut Held<u64>| -> Result<Mark, AllocError>
                requires { held.old.parts.items ≡ held_part low count ∷ held_part high other ∷ [] }
                ensures entry { result ≡ Ok (Two task low high) }
                ensures held { held.new.parts.items ≡ next_part low count ∷ next_part high other ∷ [] }
            {
                let _ = place;
                let part = &mut held.parts[0];
                part.content = count.wrapping_add(1);
                part.changed = true;
                let part = &mut held.parts[1];
                part.content = other.wrapping_add(1);
                part.changed = true;
                Ok(Mark::Two { task, low, high })
            },
        )
    }
}
