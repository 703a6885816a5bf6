//! The tests, by what they are of.

mod containers;
mod edges;
mod named;
