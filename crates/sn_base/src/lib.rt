//! Lists, finite maps, values on the heap and capped sums: the containers that every crate above keeps its state in,
//! the names of what the entries of a run make, and the error for want of memory.
//!
//! A caller sees a `List<T>` as the list of its items, in order, and a `Map<V>` as a finite map from
//! unsigned numbers to values, and a `Boxed<T>` as its value. So a type that has them as fields is plain data in every
//! contract: no clause speaks of a capacity, a pointer or a tree.
//!
//! Proved: what a call leaves and answers is exactly what its clauses say of that list or map (`ok`,
//! `items`, `value`, `after`, or its only clause). A call that is refused leaves the object as it was
//! (`err`), and says when it can be refused: `Map::insert` only where the key has nothing (`absent`),
//! `List::extend_from_slice` only where there is something to add (`some`). `Map::replace`,
//! `Map::remove`, `List::set`, `List::pop` and `List::truncate` take no memory. `capped_add` is the sum
//! that stops at 2 ^ 64 - 1. Laws of finite maps, of fronts of lists and of capped sums stand in
//! `proofs/`, for the proofs of the crates above.
//!
//! Not said: time, how much memory a call takes, or that memory suffices.
//!
//! The calls are those of Rust's `Vec`, `BTreeMap` and `u64::saturating_add`, as its standard library
//! documents them.
#![tactic(auto)]

mod boxed;
mod list;
mod made;
mod map;
mod memory;
mod sums;

pub use boxed::Boxed;
pub use list::List;
pub use made::Made;
pub use map::Map;
pub use memory::Memory;
pub use sums::capped_add;
