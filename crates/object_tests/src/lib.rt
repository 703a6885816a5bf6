//! Tests of single objects that no case of a file says: writers and files that a test makes, values of a type of
//! its own, and names of things.
//!
//! Each public function that no case of `object_cases` reaches is called here, with ample memory.
#![tactic(auto)]

#[cfg(test)]
mod tests;
