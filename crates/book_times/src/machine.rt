//! The machine that is measured: numbers, to which entries add 1.

ghost use Rattle.std.specs.Prelude.{◌≡◌};

use tied_cells::Machine;

/// An entry: a task adds 1 to the part of one page, or of two.
#[derive(Drop)]
pub enum Mark {
    One { task: u64, page: u64 },
    Two { task: u64, low: u64, high: u64 },
}

/// The machine.
pub struct Marks;

impl Machine for Marks {
    ghost use Rattle.book_times.specs.Marks.{marks, marks_stay};

    type Part = u64;

    type Entry = Mark;

    ghost rules = { marks };

    ghost stays = { marks_stay };
}
