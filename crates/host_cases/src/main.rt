//! The program `host_cases`: it makes calls of hosts and of their nodes, as files of cases say, and compares what came.
//!
//! A file's first line, `over world`, `over folders` or `over both`, says of which host: the one in memory, the
//! machine's folders where the program runs, or both, whose answers have to be one.
//!
//! A block sets up a tree: `dir PATH MODE`, `file PATH MODE TEXT` and `link PATH TEXT`, in which `\xNN` stands for a
//! byte. `fail PATH METHOD N` plans that the Nth such call from now of the node there fails (`stat`, `list`, `lend`,
//! `open`, `read`), and `fail grants N` that a grant does; these are of the host in memory alone.
//!
//! - `at FOLDER: CALLS` grants the folder, makes the calls of its node and settles it; `at FOLDER ROUTE: CALLS` lends
//!   what is on the route, makes the calls of the node there, and takes all back. It answers each call, or `none` where
//!   nothing is granted or lent. Calls and answers stand between semicolons: `kind`, `faults`, `stat`, `list`,
//!   `lend NAME`, `open read`, `open write`, `read AT COUNT` into so many dots, `gone` (all is removed by others).
//! - `bury FOLDER: CALLS` makes calls of a folder's node, buries it, and tells how many calls of the host failed.
//! - `faults`: how many calls of the host failed. `met PATH`: how many at the node there. `see PATH`: what is there.
//!
//! A call that the host's contract doesn't allow is `barred`, one that fails is `failed`.
//!
//! Proved: each call is one that the contracts allow, and the functions here end.
#![tactic(auto)]

mod asked;
mod calls;
mod hosts;
mod machine;
mod made;
mod memory;
mod names;
mod told;
mod visits;

use hosts::Hosts;
use read_cases::do_all;
use std::process::ExitCode;

fn main(rt: HostRuntime) -> ExitCode {
    let mut hosts = Hosts::new(&rt);
    let status = do_all(&rt, &mut hosts);
    machine::clear(&rt);
    status
}
