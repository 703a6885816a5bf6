//! The rule of the one word, the number drawn last, and what each step tells.

ghost use Rattle.std.specs.Prelude.{◌≡◌};

use atomic_table::{Join, Play, Split, TableRule};
use std::collections::LinkedList;
use std::marker::Brand;

/// Names what numbers are drawn from.
pub trait OfIds {
    ghost use Rattle.atomic_table.specs.Seated.{TableId};

    ghost ids: { TableId };
}

impl OfIds for Brand {
    ghost use Rattle.sn_ids.specs.Names.{no_table};

    ghost ids = { no_table };
}

// What a seat has drawn: runs of numbers, newest first. No value of it is made.
pub struct View {
    pub drawn: LinkedList<(u64, u64)>,
}

// No number stands above the word, and none was drawn twice.
pub struct Law;

impl TableRule<(), View, ()> for Law {
    ghost use Rattle.std.specs.Prelude.{[]};
    ghost use Rattle.sn_ids.specs.Drawn.{Kept, holder_of};

    ghost holds = { λ _ s. Kept s };

    ghost first = { λ _. holder_of [] };
}

pub(crate) struct Look;

impl Play<(), View> for Look {
    ghost use Rattle.sn_ids.specs.Drawn.{Looks};

    ghost then = { Looks };
}

pub(crate) struct Draw;

impl Play<(), View> for Draw {
    ghost use Rattle.sn_ids.specs.Drawn.{Draws};

    ghost then = { Draws };
}

pub(crate) struct Fresh;

impl Split<View> for Fresh {
    ghost use Rattle.std.specs.Prelude.{[]};
    ghost use Rattle.sn_ids.specs.Drawn.{holder_of};

    ghost left = { λ v. v };

    ghost right = { λ _. holder_of [] };
}

pub(crate) struct Both;

impl Join<View> for Both {
    ghost use Rattle.std.specs.Prelude.{[]};
    ghost use Rattle.sn_ids.specs.Drawn.{both_of, holder_of};

    ghost both = { both_of };

    ghost spent = { holder_of [] };
}
