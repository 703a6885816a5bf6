//! Files of cases: a program hands in what does a case, and each case of its files is done and compared.
//!
//! A program of cases is a `main` that calls `do_all` with what does its cases (`Cases`). The words of the program name
//! the files, which are done in their order, and each line of a file is read so:
//!
//! - an empty line begins a block anew (`Cases::begin`), as the head of a file does, and `# ..` is a remark;
//! - `CASE -> EXPECTED` is a case that has to come to what is expected, and `CASE !-> WRONG` one that must not come to
//!   that: a file of these shows that a program tells;
//! - `|TEXT` is the case `|`, of which TEXT is expected: what a program makes of it is its own matter;
//! - any other line is a case of which nothing is expected, as one that sets something up.
//!
//! For each file a line says how many lines expected something, and how many lines failed: `NAME: N cases, M failed`.
//! A line that failed is shown with its file, its number and what came, on standard output and on standard error. The
//! status is 0 where none failed, 1 where any did, and 2 where the program gave up (`Bad`).
//!
//! Proved: no function here stops. What comes of a case is what its program makes of it.
//!
//! Not said: that a file's cases are enough.
#![tactic(auto)]

mod bad;
mod cases;
mod files;
mod line;
mod words;

pub use bad::Bad;
pub use cases::Cases;
pub use files::do_all;
pub use words::{add_bytes, number, parted};
