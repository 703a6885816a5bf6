//! What the atomic instructions of RV64A need beside loads and stores: the value that an atomic memory operation
//! stores, and the reservations of load-reserved and store-conditional.
//!
//! A caller hands `amo` a decoded instruction, what memory held and what rs2 holds, and sees registers as the numbers
//! that their bits are. It sees `Reservations` as the list of those that the tasks of one address space have. A
//! reservation is a task, the address that it loaded from, how many bytes, and the shared area in which the page of
//! that address lay, or none. What it reserves is the granule: the aligned 8 bytes that hold the address.
//! `AreaReservations` is the list of a shared area: of each task the granule, counted from the area's first byte,
//! whichever address space it was reserved in.
//!
//! Proved of `amo`, of every instruction and all numbers: the value is `stored_by`, the definition that has a row for
//! each operation in the manual's order. Proved of reservations: `reserve` leaves those of the others and behind them
//! the new one (`ok`), or changes nothing (`err`), and that only where the task had none (`absent`). `stored` leaves
//! `after_store`, which goes through the bytes of a store one by one. `take` answers whether the task had the
//! reservation of just that address, width and area (`held`), and leaves those of the others in either case (`ended`).
//! `holds` answers the same (`held`), and tells that no task has two (`single`); `is_reserving` answers whether the
//! task has any. `stored_run` is `stored` for as many bytes as a call puts, and `drop_range` leaves those whose granule
//! has no byte in the range. The list of an area has the same calls with the same clauses, and `leave` for a task that
//! ends. `copy` is the same list once more (`ok`). Only `reserve` and `copy` take memory.
//!
//! Not said: the loads and stores themselves, their alignment and order, and which stores `stored` is told of.
//!
//! Standard: RISC-V Unprivileged ISA 20191213, chapter 8, A. The granule's size is a choice of this project.
#![tactic(auto)]

mod area_reservations;
mod operations;
mod reservations;
mod words;

pub use area_reservations::{AreaReservation, AreaReservations};
pub use operations::amo;
pub use reservations::{Reservation, Reservations};
