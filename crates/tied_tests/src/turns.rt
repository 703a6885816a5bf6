//! Turns of two tasks, one after another: looks that go stale between, and a limit that both come to.

ghost use Rattle.std.specs.Prelude.{◌≡◌};

use crate::kernel::Kernel;
use crate::machine::{Entry, Part, Tally};
use crate::racing::{COUNTER, PAIR};
use hist_count::OfHistory;
use sn_ties::OfTies;
use std::alloc::Global;
use std::sync::Wait;
use tied_cells::{Look, Page, Round, RoundCheck, RoundEnd, Seat, Setup, Stale};

/// What two tasks met: the look that went stale, as its key, what it saw and what the pair has; the same of a round
/// that would have made an entry; the place of the last entry that the second task could make; whether the first
/// finds the book full then; and whether the book has no page of the pair's key, of the next and of one too great.
#[derive(Drop)]
pub struct Turned {
    pub key: u64,
    pub saw: u64,
    pub has: u64,
    pub refused: Stale,
    pub written: u64,
    pub full: bool,
    pub lacks: [bool; 3],
}

/// One task looks at the pair, another writes it, and then the first ends a round of this look with no entry, and one
/// with an entry; the second writes on until the book, which has room for three entries, is full.
pub fn take_turns<J: OfHistory + OfTies, R: Wait>(
    rt: &R,
    alloc: Global,
    history: hist_count::Opened<Entry>,
    ties: sn_ties::Opened<u64>,
) -> Option<Turned>
    requires history { history.table.shared.table_id ≡ J.history }
    requires ties { ties.table.shared.table_id ≡ J.ties }
{
    let mut setup: Setup<Tally, J> = Setup::new(history, ties);
    let pair = setup.page(PAIR, Part::Pair(1, 10))?;
    let mut one = setup.seat()?;
    let mut two = setup.seat()?;
    let kernel = Kernel {
        book: setup.book(alloc, 3),
    };
    let (look, _) = pair.look(rt, &kernel.book.wires, |_: &Part| ());
    let (other_look, _) = pair.look(rt, &kernel.book.wires, |_: &Part| ());
    kernel.put(rt, alloc, &mut two, &pair, 1, 11)?;
    let mut round = Round::new(alloc);
    round.keep(look).ok()?;
    let stale = match round.check(rt, &kernel.book, &mut one) {
        RoundCheck::Again(stale) => stale,
        RoundCheck::Fresh(_) => return None,
        RoundCheck::Full => return None,
    };
    let refused = refused_by(rt, alloc, &kernel, &mut one, other_look, &pair)?;
    let mut written = kernel.put(rt, alloc, &mut two, &pair, 1, 12)?;
    for k in 0..5 {
        if let Some(place) = kernel.put(rt, alloc, &mut two, &pair, 1, k) {
            written = place;
        }
    }
    let full = matches!(
        Round::new(alloc).check(rt, &kernel.book, &mut one),
        RoundCheck::Full
    );
    let guard = kernel.book.log.lock(rt);
    let log = &*guard;
    let lacks = [log.lacks(PAIR), log.lacks(PAIR + 1), log.lacks(COUNTER + 1)];
    Some(Turned {
        key: stale.key,
        saw: stale.saw,
        has: stale.has,
        refused,
        written,
        full,
        lacks,
    })
}

/// The look by which a round is refused that would have written the pair.
fn refused_by<J: OfHistory + OfTies, R: Wait>(
    rt: &R,
    alloc: Global,
    kernel: &Kernel<J>,
    seat: &mut Seat<Tally, J>,
    look: Look<Tally, J>,
    pair: &Page<Tally, J>,
) -> Option<Stale> {
    let mut round = Round::new(alloc);
    round.keep(look).ok()?;
    round.hold(rt, pair).ok()?;
    let old = match round.content(pair.key) {
        Some(Part::Pair(a, b)) => (*a, *b),
        Some(Part::Counter(_)) => return None,
        None => return None,
    };
    match kernel.write(rt, alloc, seat, round, pair.key, old, 5, 5) {
        RoundEnd::Again(stale) => Some(stale),
        RoundEnd::Done(_) => None,
        RoundEnd::Full => None,
        RoundEnd::Memory => None,
    }
}

/// Whether pages are had of these keys, in this order: the least, the same again, the greatest, and one above that.
pub fn pages_had<J: OfHistory + OfTies>(
    history: hist_count::Opened<Entry>,
    ties: sn_ties::Opened<u64>,
) -> [bool; 4]
    requires history { history.table.shared.table_id ≡ J.history }
    requires ties { ties.table.shared.table_id ≡ J.ties }
{
    let mut setup: Setup<Tally, J> = Setup::new(history, ties);
    let least = setup.page(PAIR, Part::Pair(1, 10)).is_some();
    let again = setup.page(PAIR, Part::Pair(1, 10)).is_some();
    let greatest = setup.page(COUNTER, Part::Counter(0)).is_some();
    let above = setup.page(COUNTER + 1, Part::Counter(0)).is_some();
    [least, again, greatest, above]
}
