//! Notes of what is out: a knot that knows each note that was issued and each that came back, and shares, each of one
//! note that is out.
//!
//! A caller sees a `Knot` as the notes that it issued and those that came back, the newest first, and a `Share` as its
//! note. Both have no bytes: they are for proofs alone. A lock keeps the knot beside what it guards, and whoever takes
//! something out goes with a share that says what it was.
//!
//! Proved: `issue` makes a share of the note that its caller picks (`share`) and adds it to those issued (`knot`);
//! `redeem` takes a share and adds its note to those that came back, and to nothing else. `settle` says that where as
//! many came back as were issued, it is the very same notes (`same`): each as often, however they are weighed.
//! A note comes back once at most, since its share is used up.
//!
//! Not said: that a share ever comes back.
//!
//! The form is that of an authority over a list and fragments of it, over an `atomic_table` of one word that never
//! changes. A type parameter names the knot to which a share belongs.
#![tactic(auto)]

mod rule;
mod ties;

pub use rule::{Note, Noted, OfTies, View};
pub use ties::{Knot, Opened, Share, Ties};
