//! A guest's address space: what is mapped there and how that changes, loads, stores and fetches, runs of bytes for
//! system calls, reservations, its child at a fork, and its copy.
//!
//! A caller sees a `Space` through `space_of`: what is mapped, with the break, and what its tasks have reserved. With
//! an access it hands in shared areas (`Handed`), under their names, and contracts see what both reach as a `Reach`.
//! What each byte is to an access by a right, `byte_at` says: a value, not allowed, or in an area not handed in.
//!
//! Proved: `load` and `fetch` answer what the access comes to (`number`, `word`): the number of the bytes, the lowest
//! first; the first that lacks the right, before any shared area is asked for; else the area of the first that lies in
//! one which isn't handed in. `allowed`, `read`, `writable`, `store` and `write` are refused by the same rule (`room`),
//! which changes nothing (`err`). `read` takes the bytes of a run, and `piece` lends those in a page; `store` and
//! `write` leave bytes in their places, and end other tasks' reservations of their granules, in the address space and
//! in the area (`ok`), and so does `put_two`, of two runs (`put`). Only `writable`, these and `reserve` may want
//! memory, and no store after `writable` (`ready`, `lean`); `put_two` wants none, since `own_run` goes before it, which
//! makes the pages of a run their own and changes nothing that an access sees (`ready`, `still`, `same`). `take`
//! answers whether the task has the reservation of just that address and width, made in the shared area that the page
//! is of now, which has it too, or in a private page where it is private now (`held`).
//! What is done by a hint is what the exact call does, or nothing (`near`, `done`, `unchanged`). `area_byte` answers
//! which byte of a shared area lies at an address: a futex word is known by it. Decoded words are those of the page's
//! bytes (`words`). `map`, `unmap`, `protect` and `brk` leave the mapping that mm_areas' definitions make of the old
//! one, and the first three end the reservations over their range (`ok`); a fault is answered just where it is
//! (`fault`, `faulty`). `fork` gives the same mapping with nothing reserved (`child`), `copy` the same space
//! (`copied`), and both leave this one as it was (`kept`).
//!
//! Not said: time, that memory suffices, and that at most 64 pages have their words decoded (tested).
//!
//! Standard: RISC-V Unprivileged ISA 20191213, 1.4, 2.6 and 8.2; mmap(2), munmap(2), mprotect(2), brk(2), fork(2),
//! read(2), write(2) and futex(2). No locks.
#![tactic(auto)]

mod access;
mod area_bytes;
mod area_runs;
mod caches;
mod changes;
mod conditionals;
mod decoded;
mod handed;
mod hints;
mod page_sight;
mod reserves;
mod runs;
mod seen;
mod sight;
mod space;
mod stores;
mod writes;

pub use area_bytes::AreaByte;
pub use handed::{Handed, HandedArea, SharedArea};
pub use hints::Hints;
pub use space::Space;
