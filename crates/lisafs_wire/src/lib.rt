//! LISAFS messages as bytes: what a client asks of a server of files, what that answers, and how both are spelled.
//!
//! A caller sees a `RequestRef` or an `Answer`, by the fields that it has. A `Request` is one that was read: it owns
//! its names, and lends itself as a `RequestRef`. A `PlainAnswer` is an answer without lists. Contracts see each as a
//! `Message`: a number, the values of its fields, and the groups behind them (`asked`, `answered` of
//! `specs/Messages.antt`). The grammar is one table of requests and one of answers, a line a message
//! (`specs/Grammar.antt`): which fields it has, what may stand in each, and what may stand behind them. `spelling` is
//! the one way in which a table's message is written, and `message_at` how bytes are read from left to right, with the
//! first fault that is met.
//!
//! Proved: `decode` and `decode_answer` give a message exactly where the bytes are its spelling (`found`, `only`), and
//! else their first fault (`fault`), unless memory for names and lists runs out; `decode_plain_answer` does so for
//! answers without lists, and takes no memory; `encode` and `encode_answer` add that spelling (`ok`), and add nothing
//! where they are refused (`err`); no spelling begins another (`one_spelling`). What a request writes, what was read,
//! and the text of a link stand where they lie in the bytes, and are not copied.
//!
//! Not said: what is asked when, and what a server does. Memory is wanted for names, and for the bytes that are added
//! to.
//!
//! Standard: gVisor, package lisafs, for the messages; their numbers, widths and limits are this project's own.
#![tactic(auto)]

mod answer;
mod answers;
mod attr;
mod decoding;
mod encoding;
mod fault;
mod fd;
mod fields;
mod header;
mod limits;
mod patch;
mod piece;
mod request;
mod requests;

pub use answer::{Answer, ListedName, PlainAnswer, WalkEnd, WalkedNode};
pub use attr::{FileAttr, FileKind};
pub use decoding::{decode, decode_answer, decode_plain_answer, one_spelling};
pub use encoding::{encode, encode_answer};
pub use fault::{DecodeError, WireFault};
pub use fd::Fd;
pub use limits::{ALL_MODE_BITS, MOST_DATA, MOST_NAMES};
pub use request::{Access, Removal, Request, RequestRef};
