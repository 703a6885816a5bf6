//! The program `object_cases`: it does the cases of single objects that the files named by its words have (`read_cases`
//! says how a file is read), and shows those that come to something else than their line says.
//!
//! A case begins with the word of an object, or of a record, and then come a call on it and what it is called with. A
//! block begins with an empty object of each kind. What a call answers is its words: numbers, `none`, or the name of
//! what it refuses. A case that isn't one is `unread`.
//!
//! - `table`, `copy`: a descriptor table, and the copy that `table copy` makes (`tables.rt`);
//! - `flag`, `flags`, `access`, `mode`, `getfl`, `setfl`: open file descriptions (`descriptions.rt`);
//! - `pipe`: a pipe (`pipes.rt`), `futex`: the list of sleepers (`sleepers.rt`);
//! - `tasks`: tasks and thread groups (`tasks.rt`, and what ends them in `endings.rt`);
//! - `record`: bytes, with records, fields and images (`records.rt`, `layouts.rt`, `fields.rt`, `images.rt`);
//! - `name`, `path`, `route`, `folder`, `text` (`names.rt`); `errors`: errors, replies and calls (`errors.rt`);
//! - `mounts`: the mounts of a view of files (`mounts.rt`);
//! - `source`, `sink`: where files come from in memory, and text goes to (`edges.rt`);
//! - `map`, `list`, `sum`: containers (`containers.rt`).
//!
//! Proved: the functions here are safe, and end. What the calls do is proved of the crates that have them.
//!
//! Not said: want of memory, for which a program of cases gives up.
#![tactic(auto)]

mod containers;
mod descriptions;
mod edges;
mod endings;
mod errors;
mod fields;
mod images;
mod layouts;
mod mounts;
mod names;
mod notation;
mod objects;
mod pipes;
mod records;
mod sleepers;
mod tables;
mod tasks;

use objects::Objects;
use read_cases::do_all;
use std::process::ExitCode;

fn main(rt: HostRuntime) -> ExitCode {
    match Objects::new(rt.alloc()) {
        Ok(mut objects) => do_all(&rt, &mut objects),
        Err(_) => ExitCode::from(2),
    }
}
