//! The ties, the knot and the shares.

ghost use Rattle.std.specs.Prelude.{◌≡◌, ℕ, ◌∷◌, ◌<◌, ◌≤◌, [], length};
ghost use Rattle.pool_ties.specs.Tied.{knotted, sharing, SameNotes};

use crate::rule::{Issue, Law, Noted, OfTies, Redeem, Settle, View};
use atomic_table::{Seat, Table};
use std::alloc::{AllocError, Global};
use std::marker::{Model, PhantomData};

/// Ties with a knot that has issued nothing, which has no name yet.
#[derive(Drop)]
pub struct Opened {
    pub table: Table<(), View, (), Law, Global>,
    pub seat: Seat<(), View>,
    ghost words: { table.shared.table_id.words ≡ 1 },
    ghost one: { seat.table_id ≡ table.shared.table_id },
    ghost new: { seat.me ≡ (knotted [] [], []) },
}

/// What ties the shares to the knot.
#[derive(Drop)]
pub struct Ties<J: OfTies> {
    table: Table<(), View, (), Law, Global>,
    of: PhantomData<J>,
    ghost words: { table.shared.table_id.words ≡ 1 },
    ghost named: { table.shared.table_id ≡ J.ties },
}

/// The knot. Contracts see it as the notes issued and the notes that came back, the newest first.
#[derive(Drop)]
pub struct Knot<J: OfTies> {
    seat: Seat<(), View>,
    of: PhantomData<J>,
}

impl<J: OfTies> Model for Knot<J> {
    ghost use Rattle.std.specs.Prelude.{◌≡◌, List, []};
    ghost use Rattle.pool_ties.specs.Tied.{knotted};
    ghost use Rattle.pool_ties.specs.declared.rule.Note.{Note};

    ghost Value = { List Note × List Note };

    ghost view = { λ k. (k.seat.me.0.issued, k.seat.me.0.returned) };

    ghost invariant = { λ k. (k.seat.table_id ≡ J.ties) ×
        (k.seat.me ≡ (knotted k.seat.me.0.issued k.seat.me.0.returned, [])) };
}

/// A share. Contracts see it as its note.
#[derive(Drop)]
pub struct Share<J: OfTies> {
    seat: Seat<(), View>,
    of: PhantomData<J>,
}

impl<J: OfTies> Model for Share<J> {
    ghost use Rattle.std.specs.Prelude.{◌≡◌, []};
    ghost use Rattle.pool_ties.specs.Tied.{sharing, first_held};
    ghost use Rattle.pool_ties.specs.declared.rule.Note.{Note};

    ghost Value = { Note };

    ghost view = { λ s. first_held s.seat.me.0 };

    ghost invariant = { λ s. (s.seat.table_id ≡ J.ties) × (s.seat.me ≡ (sharing (first_held s.seat.me.0), [])) };
}

impl Opened {
    /// Ties with a knot that has issued nothing.
    pub fn new(alloc: Global) -> Result<Opened, AllocError> {
        let (table, seat) = Table::of_words(alloc, &[0], &())?;
        Ok(Opened { table, seat })
    }

    /// The ties under a name, and their knot.
    pub fn named<J: OfTies>(self) -> (Ties<J>, Knot<J>)
        requires { self.table.shared.table_id ≡ J.ties }
        ensures { result.1 ≡ ([], []) }
    {
        let Opened { table, seat } = self;
        (
            Ties {
                table,
                of: PhantomData,
            },
            Knot {
                seat,
                of: PhantomData,
            },
        )
    }
}

impl<J: OfTies> Ties<J> {
    /// A share of the note that the call picks, which may name what `of` is.
    pub fn issue<X, N: Noted>(&self, knot: &mut Knot<J>, of: &X) -> Share<J>
        ensures share { result ≡ N.note }
        ensures knot { knot.new ≡ (N.note ∷ knot.old.0, knot.old.1) }
    {
        let _of = of;
        let seat = self.table.shared.split_seat::<Issue<N>>(&mut knot.seat);
        Share {
            seat,
            of: PhantomData,
        }
    }

    /// Takes a share back, whose note was still out.
    pub fn redeem(&self, knot: &mut Knot<J>, share: Share<J>)
        ensures knot { knot.new ≡ (knot.old.0, share ∷ knot.old.1) }
        ensures out { length knot.old.1 < length knot.old.0 }
    {
        let Share { seat, of: _ } = share;
        self.table.shared.join_seat::<Redeem>(&mut knot.seat, seat);
        self.settle(knot);
    }

    /// No more notes came back than were issued, and where as many did, they are the same.
    pub fn settle(&self, knot: &mut Knot<J>)
        ensures bound { length knot.old.1 ≤ length knot.old.0 }
        ensures same { length knot.old.0 ≡ length knot.old.1 → SameNotes knot.old.0 knot.old.1 }
        ensures knot { knot.new ≡ knot.old }
    {
        let _ = self.table.shared.load::<Settle>(&mut knot.seat, 0);
    }
}
