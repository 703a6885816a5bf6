//! What numbers are drawn from, and the passes that draw.

ghost use Rattle.std.specs.Prelude.{◌≡◌, ◌≢◌, ◌⊎◌, ◌+◌, ◌<◌, ◌≤◌, ◌^◌, ◌∷◌, ◌++◌, [], IfOk, IfErr, OnErr};
ghost use Rattle.sn_ids.specs.Drawn.{EachOnce, holder_of};

use crate::rule::{Both, Draw, Fresh, Law, Look, OfIds, View};
use atomic_table::{Seat, Table};
use std::alloc::{AllocError, Global};
use std::marker::{Model, PhantomData};

/// What numbers are drawn from, before it has a name, and its first seat.
#[derive(Drop)]
pub struct Opened {
    pub table: Table<(), View, (), Law, Global>,
    pub seat: Seat<(), View>,
    ghost words: { table.shared.table_id.words ≡ 1 },
    ghost slots: { table.shared.table_id.slots ≡ 0 },
    ghost one: { seat.table_id ≡ table.shared.table_id },
    ghost new: { seat.me ≡ (holder_of [], []) },
}

/// What all threads draw numbers from.
#[derive(Drop)]
pub struct Ids<J: OfIds> {
    table: Table<(), View, (), Law, Global>,
    of: PhantomData<J>,
    ghost words: { table.shared.table_id.words ≡ 1 },
    ghost slots: { table.shared.table_id.slots ≡ 0 },
    ghost named: { table.shared.table_id ≡ J.ids },
}

/// Who draws. Contracts see it as the runs drawn with it, newest first: the first number of each, and how many.
#[derive(Drop)]
pub struct Pass<J: OfIds> {
    seat: Seat<(), View>,
    of: PhantomData<J>,
}

impl<J: OfIds> Model for Pass<J> {
    ghost use Rattle.std.specs.Prelude.{◌≡◌, ℕ, List, []};
    ghost use Rattle.sn_ids.specs.Drawn.{holder_of};

    ghost Value = { List (ℕ × ℕ) };

    ghost view = { λ f. f.seat.me.0.drawn };

    ghost invariant = { λ f. (f.seat.table_id ≡ J.ids) × (f.seat.me ≡ (holder_of f.seat.me.0.drawn, [])) };
}

/// Nothing was drawn: the load found the number drawn last to be `saw`, and the exchange found `has`. They are equal
/// where 2^63 numbers are gone.
#[derive(Debug, Clone, Copy, PartialEq, Eq)]
pub struct Raced {
    pub saw: u64,
    pub has: u64,
}

impl Opened {
    /// Nothing drawn yet.
    pub fn new(alloc: Global) -> Result<Opened, AllocError> {
        let (table, seat) = Table::of_words(alloc, &[0], &())?;
        Ok(Opened { table, seat })
    }

    /// The same under a name, and its first pass.
    pub fn named<J: OfIds>(self) -> (Ids<J>, Pass<J>)
        requires { self.table.shared.table_id ≡ J.ids }
        ensures { result.1 ≡ [] }
    {
        let Opened { table, seat } = self;
        let of = PhantomData;
        let pass = Pass {
            seat,
            of: PhantomData,
        };
        (Ids { table, of }, pass)
    }
}

impl<J: OfIds> Ids<J> {
    /// Another pass, which has drawn nothing.
    pub fn pass(&self, from: &mut Pass<J>) -> Pass<J>
        ensures new { result ≡ [] }
        ensures same { from.new ≡ from.old }
    {
        Pass {
            seat: self.table.shared.split_seat::<Fresh>(&mut from.seat),
            of: PhantomData,
        }
    }

    /// Draws so many numbers in a row, and answers the first of them. It takes no memory and waits for nobody.
    pub fn draw(&self, pass: &mut Pass<J>, count: u64) -> Result<u64, Raced>
        requires { (0 < count) × (count ≤ 16) }
        ensures drawn { IfOk result (λ first. pass.new ≡ (first, count) ∷ pass.old) }
        ensures positive { IfOk result (λ first. 0 < first) }
        ensures small { IfOk result (λ first. first + count ≤ 2 ^ 63 + 16) }
        ensures once { EachOnce pass.new }
        ensures raced { IfErr result (λ raced. (raced.saw ≢ raced.has)
            ⊎ ((raced.saw ≡ raced.has) × (2 ^ 63 ≤ raced.saw))) }
        ensures nothing { OnErr result (pass.new ≡ pass.old) }
    {
        let shared = &self.table.shared;
        let saw = shared.load::<Look>(&mut pass.seat, 0);
        if saw >= 1 << 63 {
            return Err(Raced { saw, has: saw });
        }
        let has = shared.compare_exchange::<Draw>(&mut pass.seat, 0, saw, saw + count);
        if has == saw {
            Ok(saw + 1)
        } else {
            Err(Raced { saw, has })
        }
    }

    /// Takes in what another pass drew.
    pub fn join(&self, pass: &mut Pass<J>, other: Pass<J>)
        ensures both { pass.new ≡ pass.old ++ other }
        ensures once { EachOnce pass.new }
    {
        let Pass { seat, .. } = other;
        self.table.shared.join_seat::<Both>(&mut pass.seat, seat);
        let _ = self.table.shared.load::<Look>(&mut pass.seat, 0);
    }
}
