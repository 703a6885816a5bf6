//! Folders of the machine that the program runs on, as a host: the trusted edge over the system's files.
//!
//! A `Folders` grants the directory at a folder's path, and a `FolderNode` is a directory, a file or a link below
//! one. Neither tells what it has, so a caller sees of them what they answer, and how many of their calls failed.
//!
//! Proved: a call answers `Failed` just where its count rose, and the count rises in no other (`faults`). What is
//! granted is a directory (`directory`), and neither it nor what is lent is open or has failed yet (`shut`, `fresh`).
//! Permission bits are those of a node's kind (`attr`, `mode`), which stays (`kind`); no link is opened, no directory
//! for writing (`can_open`), and a file just as it is (`options`). What a look tells decides what a stat tells
//! (`attr_from`), whether a node is lent and of which kind (`child_from`), and whether a grant goes on
//! (`is_directory`). An error but absence is want of memory just where its kind says so, else a failure (`refused`).
//! Each entry that the system tells is listed once, but for hidden ones, in the order of their names, or the listing
//! fails (`see_all`, `listing_of`, `ordered`). A path is that of the folder with the route's names, each behind a slash
//! (`folder`, `below`, and `slashed` of specs/Paths.antt), so that nothing outside the granted folder is named; a name
//! that isn't UTF-8 is refused (`text`). A read begins at its offset and ends with the file or the buffer, as far as
//! the file tells (`bytes`).
//!
//! Not said: what the system's files hold, what it answers to a call, and that it does what it is asked. No link is
//! followed: each part of a folder's path, and each node that is opened or listed, is looked at first, and must be a
//! directory or a file. That nobody puts a link in its place between the look and the call is a premise, as is that
//! nobody else changes what is granted.
//!
//! Standard: Linux man-pages, lstat(2), open(2), pread(2), readdir(3), path_resolution(7), inode(7).
#![tactic(auto)]

mod access;
mod attributes;
mod entries;
mod failures;
mod looks;
mod node;
mod paths;
mod reading;
mod seen;
mod world;

pub use node::FolderNode;
pub use world::Folders;
