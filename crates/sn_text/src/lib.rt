//! File names, paths and byte texts, as a kernel sees them: bytes, and no characters.
//!
//! A `Name` is one path component, a `Route` a list of names, a `Folder` a route from the root or from
//! the place where one stands, and a `Text` any bytes. Contracts see them as plain lists of numbers:
//! a name and a text as their bytes, a route as the list of its names, and a folder as a record of
//! whether it is rooted and of its names. `PartsOfPath` goes over the parts of a path, in order.
//!
//! Proved: a `Name` is always a name (`is_name`), and so is each of a `Route` (`are_names`); `name_of` and
//! `name_fault` refuse exactly what is none, with the first fault in the order Empty, Long, Slash, Nul, Dot
//! (`fault`, `faulty`); `parts` gives the pieces between slashes but for the empty ones; a copy is equal to
//! what it copies; `is_same_name` tells whether two names are the same, and `same_names` whether two routes have the
//! same ones; a call that is refused for want of memory leaves its object as it was (`err`), and is refused only where
//! there is something to keep (`some`).
//!
//! Not said: whether bytes are text in some encoding, and how much memory is taken.
//!
//! Standard: POSIX.1-2017, Base Definitions, Filename and Pathname Resolution; path_resolution(7) of Linux.
#![tactic(auto)]

mod fault;
mod folder;
mod name;
mod path;
mod pieces;
mod route;
mod text;

pub use fault::{NAME_MAX, NameFault, name_fault};
pub use folder::Folder;
pub use name::{Name, is_same_name, name_of, same_names};
pub use path::parts;
pub use pieces::PartsOfPath;
pub use route::Route;
pub use text::Text;
