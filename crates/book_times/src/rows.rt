//! What is measured.

/// What a round has: one page that it holds, or three that it looks at and two that it holds.
#[derive(Clone, Copy)]
pub enum Kind {
    One,
    Five,
}

/// A row: what it is called, what its rounds have, whether four threads make them or one, and whether these have pages
/// of their own.
#[derive(Clone, Copy)]
pub struct Row {
    pub name: &'static str,
    pub kind: Kind,
    pub has_four: bool,
    pub is_apart: bool,
}

#[rattlefmt::skip]
pub const ROWS: &[Row] = &[
    Row { name: "a held page, 1 thread", kind: Kind::One, has_four: false, is_apart: true },
    Row { name: "a held page, 4 threads apart", kind: Kind::One, has_four: true, is_apart: true },
    Row { name: "a held page, 4 threads together", kind: Kind::One, has_four: true, is_apart: false },
    Row { name: "three looks, two held pages, 1 thread", kind: Kind::Five, has_four: false, is_apart: true },
    Row { name: "three looks, two held pages, 4 threads apart", kind: Kind::Five, has_four: true, is_apart: true },
    Row { name: "three looks, two held pages, 4 threads together", kind: Kind::Five, has_four: true, is_apart: false },
];

impl Row {
    /// The number of the first page that a thread uses, of five in a row.
    pub fn first_page(&self, thread: usize) -> usize {
        if self.is_apart && thread < 4 {
            thread * 8
        } else {
            0
        }
    }
}
