//! The nodes of a kernel, as they get their numbers, and the faults that calls meet at them.
//!
//! A caller has a `Kernel` of `kernel_model`, and a `Given`, what a call drew and met. `may_meet` tells whether that
//! may be drawn and met where these nodes have numbers, `may_enter` the same of an entry, and `is_in_order` whether it
//! is told in order. `number_all` gives fresh numbers in place: each child gets a node of its own, out of its
//! directory's tree, and none for a number above the greatest. `faulted` gives them, and adds each rise to its node's
//! count of faults; it asks for numbers that ascend and are those of no node (`AreUnused`). `root_node` makes the node
//! of a mount's root, and `number_of` is the number that a directory has for a name.
//!
//! Proved: these are the definitions of `kernel_model` of these names, but for `number_of`, which is `number_in`, and
//! `number_all`, which is `numbered`. `number_all` and `faulted` answer whether the fresh numbers fit (`fits`). They
//! leave what their definitions say, or the kernel as it was where the numbers do not fit (`ok`), and where memory is
//! wanting (`err`).
//!
//! Not said: which call draws and meets what, and what else it does.
//!
//! Standard: inode(7), st_ino, of the Linux manual pages. How it is told what was drawn and met is a choice of this
//! project.
#![tactic(auto)]

mod faults;
mod meeting;
mod nodes;
mod numbering;

pub use faults::{faulted, is_in_order};
pub use meeting::{may_enter, may_meet};
pub use nodes::{number_of, root_node};
pub use numbering::number_all;
