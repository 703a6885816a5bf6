//! What is mapped where in a guest's address space, with which rights: pages in regions, and the break.
//!
//! A caller sees an `Areas` through `mapping`: the pages as a finite map from their numbers (an address by 4,096) to
//! their rights and what they hold, the start of the break, and the break. A page holds 4,096 bytes, or is a page of a
//! shared area. How pages are put together to regions doesn't show. `owns` tells whether a page's bytes are its own,
//! `has_row_at` whether its words are there decoded.
//!
//! Proved: where `map`, `unmap`, `protect` and `lay` answer Ok, the mapping is the one that the call's definition makes
//! of the old one (`ok`), and `map` answers the address of the place that the definition names (`place`). An error that
//! isn't want of memory is the definition's fault (`fault`); where there is a fault, that one is the answer, before
//! memory is asked for (`faulty`); after an error the mapping is as before (`err`). `brk` answers where the break is
//! then (`answer`), and takes no memory where it stays (`refused`). `place_of` tells without a change where `map` would
//! go (`place`), or why it would not (`fault`). `page`, `number` and `byte` are answers of the map.
//! A write to a private page changes that page's bytes alone (`ok`), and takes no memory where they are its own
//! (`lacking`, `fits`). `fork` answers another of the same mapping (`copied`) and leaves this one's (`kept`). Decoded
//! words are those of the page's bytes (`words`), whatever is stored. Pages that a change doesn't lay or take out keep
//! their own bytes (`owned`) and their words (`rows`); new ones have neither (`fresh`, `undecoded`). A wrong hint gives
//! nothing, or costs a look-up, which goes by halves. At most 16,384 pages are mapped (`limited`), none at 2^38 or
//! above.
//!
//! Not said: time, how much memory a call takes, that memory suffices, and which words are there after `fork`.
//!
//! Standard: mmap(2), munmap(2), mprotect(2), brk(2) and fork(2) of the Linux manual pages. The order of faults, the
//! limit, and the bounds of the break and of addresses that are given are choices of this project. No locks.
#![tactic(auto)]

mod areas;
mod changes;
mod contents;
mod decoded_words;
mod fault;
mod fork;
mod free;
mod hints;
mod lengths;
mod new_pages;
mod page;
mod places;
mod protect;
mod regions;
mod rights;
mod runs;

pub use areas::Areas;
pub use fault::{AreaErr, AreaFault};
pub use lengths::PAGE_SIZE;
pub use page::{Backing, Content, Page, SharedPage};
pub use places::MOST_PAGES;
pub use rights::Rights;
