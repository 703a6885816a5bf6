//! Tests of what no case of `call_cases` says: whether an access to a guest's memory asks for a shared area, by which
//! calls that wait are tried again, and the laws of locality and of areas that are tried, which do nothing.
//!
//! The contract of `guest_access` says what `asks_for_area` answers; here it is asked over a space with a private page
//! under a shared one. What the calls do with the answer shows in runs.
//!
//! Expected values are by hand: mmap(2), MAP_SHARED.
#![tactic(auto)]

#[cfg(test)]
mod asking;
