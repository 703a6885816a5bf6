//! The law of shared areas that are tried one after another.
//!
//! The definitions of `kernel_model` try an instruction, or a buffer of a call, with the shared areas that are in hand,
//! and again with each area that it asks for, seventeen times at most. A caller sees `trying`, which says what that
//! comes to in a state that has the areas of what is mapped. It does nothing.
//!
//! Proved: what is tried comes to what it comes to over all areas of the state at once (`instruction`, `buffer`,
//! `suffices`), and no area is asked for twice, or in vain, and none is wanting behind the seventeenth: nothing hangs
//! on what is said for that (`instruction_asks`, `buffer_asks`).
//!
//! Not said: that a state has the areas of what is mapped.
//!
//! Standard: mmap(2), MAP_SHARED; that areas are tried one after another is a choice of this project.
#![tactic(auto)]

mod laws;

pub use laws::trying;
