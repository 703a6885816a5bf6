//! The rule of the ties' one word, and what each step does to the views.

ghost use Rattle.std.specs.Prelude.{◌≡◌};

use atomic_table::{Join, Play, Split, TableRule};
use std::collections::LinkedList;
use std::marker::{Brand, PhantomData};

/// Names one knot.
pub trait OfTies {
    ghost use Rattle.atomic_table.specs.Seated.{TableId};

    ghost ties: { TableId };
}

impl OfTies for Brand {
    ghost use Rattle.pool_ties.specs.Names.{no_table};

    ghost ties = { no_table };
}

/// What is noted of a task as it is taken: its number, the numbers of the children that it had forked, and the count
/// of the turns before. No value of it is made.
pub struct Note {
    pub number: u64,
    pub forked: LinkedList<u64>,
    pub began: u64,
}

/// Picks the note of one call.
pub trait Noted {
    ghost use Rattle.pool_ties.specs.declared.rule.Note.{Note};

    ghost note: { Note };
}

impl Noted for Brand {
    ghost use Rattle.pool_ties.specs.Names.{no_note};

    ghost note = { no_note };
}

/// What a seat knows: the notes issued and come back, if it is the knot, and the notes that it holds. No value of it
/// is made.
pub struct View {
    pub knot: bool,
    pub issued: LinkedList<Note>,
    pub returned: LinkedList<Note>,
    pub held: LinkedList<Note>,
}

// The word is 0 for ever.
pub struct Law;

impl TableRule<(), View, ()> for Law {
    ghost use Rattle.std.specs.Prelude.{[]};
    ghost use Rattle.pool_ties.specs.Tied.{Kept, knotted};

    ghost holds = { λ _ s. Kept s };

    ghost first = { λ _. knotted [] [] };
}

pub(crate) struct Settle;

impl Play<(), View> for Settle {
    ghost use Rattle.pool_ties.specs.Tied.{Settles};

    ghost then = { Settles };
}

pub(crate) struct Issue<N: Noted> {
    of: PhantomData<N>,
}

impl<N: Noted> Split<View> for Issue<N> {
    ghost use Rattle.pool_ties.specs.Tied.{issuing, sharing};

    ghost left = { issuing N.note };

    ghost right = { λ _. sharing N.note };
}

pub(crate) struct Redeem;

impl Join<View> for Redeem {
    ghost use Rattle.pool_ties.specs.Tied.{redeemed, idle};

    ghost both = { redeemed };

    ghost spent = { idle };
}
