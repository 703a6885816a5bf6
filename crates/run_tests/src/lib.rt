//! The tests of parts of a run that its outcome doesn't tell.
//!
//! A caller sees nothing: this crate has tests alone, of calls that `call_table`, `proc_cells` and `image_walk` give
//! others. What a run tells of its turns and its openings stands in `run_cases`.
//!
//! Tried: the kernel that is left of no tasks, and their turns; how an opening task stands in the cells; the
//! descriptors of a process, of a thread, and of a group that ends; what is on its way in a pipe of two processes, and
//! who has its ends; what was stored in a shared area, by the area's name; and opening execves over a folder whose root
//! has another number than 1, with strings of the greatest length, and of one that is longer.
//!
//! Expected values are from outside: the Linux man-pages clone(2), pipe(2), mmap(2) and execve(2), and the ELF-64
//! manual, by hand; the order of inode numbers is this project's own.
#![tactic(auto)]

#[cfg(test)]
mod cells;
#[cfg(test)]
mod descriptors;
#[cfg(test)]
mod executions;
#[cfg(test)]
mod folders;
#[cfg(test)]
mod guests;
#[cfg(test)]
mod memory;
#[cfg(test)]
mod openings;
#[cfg(test)]
mod pipes;
#[cfg(test)]
mod turns;
#[cfg(test)]
mod visits;
