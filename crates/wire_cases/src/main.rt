//! The program `wire_cases`: cases of LISAFS messages, as bytes and as what they say.
//!
//! Its files have cases as `read_cases` reads them. Bytes are words between single spaces, each of pairs of hexadecimal
//! digits; `61*300` is a byte so many times, and a name of `sn_vectors::messages` stands for that message.
//!
//! - `ask BYTES` and `answer BYTES`: what the request or answer says whose spelling the bytes are (`told.rt`), or
//!   their first fault. What was read is spelled again, and ` differs` is told where that gives other bytes.
//! - `cut_ask BYTES` and `cut_answer BYTES`: the faults of all shorter beginnings of the bytes, as runs of as many
//!   bytes as have one fault: `0..7 Short, 8..15 Length`.
//! - `read OPERATION BYTES`, and `read walk COUNT BYTES`, `read pread COUNT BYTES`, `read pwrite COUNT BYTES`, beside
//!   how many names or bytes were asked for: what a client reads of the answer: the value, `errno N`, or `mismatch`
//!   (`reads.rt`).
//!
//! Bytes of data are told by how many there are and by the first sixteen; names by their letters, each other byte as
//! `\xNN`.
//!
//! Proved: the functions here are safe, and end. What bytes come to is proved of `lisafs_wire` and `lisafs_session`.
//!
//! Not said: that the cases are enough. Their values come from the grammar by hand, and from a decoder in another
//! language.
#![tactic(auto)]

mod bytes;
mod messages;
mod reads;
mod runs;
mod told;
mod words;
mod worked;

use messages::Messages;
use read_cases::do_all;
use std::process::ExitCode;

fn main(rt: HostRuntime) -> ExitCode {
    do_all(&rt, &mut Messages)
}
