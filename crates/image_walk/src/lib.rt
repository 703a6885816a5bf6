//! The opening execve of a program, over the nodes of a granted folder.
//!
//! A caller sees `Granted`, a folder's root with the children of the root that were lent so far, numbered in this order
//! from the first of its `Numbering` up. `Granted::new` makes one of a root, and `execve` walks it to a program's name:
//! it answers an `OpeningExecve`, which has what the walk drew and met, and an `ImageAnswer`: an image, an error or
//! want of memory. A name that was walked to before leads to the same node, which draws no other number and is asked
//! anew. `give_back` puts the children back, and answers the root.
//!
//! Proved, where the root tells its tree: what was drawn, met and answered is what the definitions say of that tree,
//! of which then a child more may be lent and the count of a node that failed has risen (`executes`); want of memory
//! leaves all as it was (`err`, `err_lent`); and the root that comes back tells the tree with the children in their
//! places (`tells`). A program's node is opened for reading alone (`unwritten`, of `load`).
//! Whatever the root tells: a number that is drawn is the next (`numbers`), strings that are too long are `E2BIG`
//! (`long`), and nodes that tell nothing go on so (`silent`).
//!
//! Not said: which folder was granted, by which route and how often a node is asked, and when memory runs out.
//!
//! Standard: Linux man-pages, execve(2), path_resolution(7), inode(7).
#![tactic(auto)]

mod executing;
mod granted;
mod loading;
mod walk;

pub use executing::{OpeningExecve, execve};
pub use granted::{Granted, Lent, MOST_ROOTS, Numbering};
pub use loading::ImageAnswer;
