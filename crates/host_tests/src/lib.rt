//! Tests of hosts which no file of cases can do: over a system that knows which calls it is to be asked for.
//!
//! `host_cases` has the cases of hosts. What is left is tried here. Over a system that answers as a script says, and
//! refuses any other call, each call of a node of the machine's folders looks at its own path, follows no link, and
//! opens a file as it is; devices are hidden, and names that aren't UTF-8, names that come twice and entries that can't
//! be looked at fail a listing; calls of the system that fail are answered and counted, and want of memory is not
//! counted. Of trees in memory, what a lent place tells and what a copy lists is tried; of listings, what is pushed.
//!
//! `scripted` and the files that it stands on have the system, `held` and `scripts` what is asked of nodes over it:
//! `Call` is a call of the system with its answer, of which a script is a list with paths, and `Ask` what is asked of a
//! node with what is expected of it.
//!
//! Expected values are worked out by hand from the manual pages of lstat(2), open(2), pread(2) and readdir(3).
#![tactic(auto)]

#[cfg(test)]
mod asked;
#[cfg(test)]
mod failures;
#[cfg(test)]
mod held;
#[cfg(test)]
mod names;
#[cfg(test)]
mod one_byte;
#[cfg(test)]
mod routes;
#[cfg(test)]
mod scripted;
#[cfg(test)]
mod scripts;
#[cfg(test)]
mod trees;
