//! Copies of granted folders, in memory: what a host that tells nothing has below a folder, read once as a tree, and a
//! host in memory that has such a tree where the folder's names lead.
//!
//! A caller gives `copied_folder` a host, as the folders of the machine, and has a `Tree` of names, modes and bytes, or
//! `None` where the host has no such folder. `put_folder` puts a tree into a `World` of `host_memory`, in a folder's
//! place, with the directories on the way.
//!
//! Proved: what is copied is a directory of which nothing stands with a borrower (`directory`, `lent`), and the host is
//! asked for nothing that its traits don't allow. The world has the tree where the names lead (`there`), and none of
//! its nodes stands with a borrower (`lent`).
//!
//! Not said: that the tree is what the host has, since the host tells nothing. A link's text is left out: no call of a
//! host reads it. What is nested deeper than a path of 4,096 bytes can name is a failure, as it is to the system.
//!
//! Standard: Linux man-pages, stat(2), open(2), pread(2), readdir(3), path_resolution(7).
#![tactic(auto)]

mod nodes;
mod worlds;

pub use nodes::copied_folder;
pub use worlds::put_folder;
