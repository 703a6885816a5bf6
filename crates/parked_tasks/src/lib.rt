//! Tasks that are parked with what they used, and who of them is looked at again once something of that is touched.
//!
//! A caller sees `Parking`: which tasks are looked at, and which are parked. It begins with none (`new`). A task is
//! looked at (`wake`), looked at no more (`rest`), or parked (`park`) with a `Spot`: what its call used that waits,
//! which is its memory and its descriptor table, and it may be shared areas, and an end of a pipe. `first_above` is the
//! task of the least number above another, of those that are looked at. Looked at again are those that are parked with
//! a memory or with shared areas (`wake_in`), those with something that an entry touched of what is open
//! (`wake_touched`), or all (`wake_all`). A `Touched` names what was touched: a descriptor table, open file
//! descriptions and pipes. `touched_by` tells it of a call, by what the call is to do.
//!
//! An index has the tasks by each thing that they used. It may list a task that is parked elsewhere by now, or not at
//! all: who is listed with a thing is looked up among the parked, and the thing's list is dropped.
//!
//! Proved: a task is parked so, and each other as it was (`parked`). Who is looked at again was parked, and is parked
//! no more; among them is each that used what was asked for; and each other task is parked, or looked at, as it was.
//! Behind a call that leaves the task list, what is open is as it was but for what `touched_by` tells. Private: each
//! task that is parked is listed with all that it used (`listed`).
//!
//! Not said: why a task is parked, that each is parked or looked at, or, but for `wake`, what is left where memory is
//! wanting.
//!
//! Standard: Linux man-pages, read(2), write(2), dup(2), fcntl(2), close(2), pipe(7) and mmap(2).
#![tactic(auto)]

mod index;
mod parked;
mod parking;
mod touched;
mod used;
mod users;

pub use parking::Parking;
pub use touched::{Touched, UpToTwo, touched_by};
pub use used::Spot;
