//! The kernel: its book.

use crate::machine::Tally;
use hist_count::OfHistory;
use sn_ties::OfTies;
use tied_cells::Book;

/// What all threads share.
#[derive(Drop)]
pub struct Kernel<J: OfHistory + OfTies> {
    pub book: Book<Tally, J>,
}
