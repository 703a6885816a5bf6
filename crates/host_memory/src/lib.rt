//! A host in memory: a `World` over a tree of files, and the `MemoryNode`s that it grants. It stands for a machine's
//! files where a run is to be exact, as in a test, and fails where its owner planned it.
//!
//! A caller sees of a world its tree, its count of failed calls, the counts of the buried nodes and the plan, and of a
//! node its tree, with the count, how it stands to its file, its place and the plan: the records `HostInMemory` and
//! `NodeInMemory`. A plan is a list of lines, of a place, a method and the calls left until one fails.
//!
//! Proved: each call does as the traits of hosts say (`impl HostWorld`, `impl HostNode`), and all is told. A call fails
//! exactly where the plan says so, and then its object's count rises by one, up to the greatest one (`planned`). The
//! answer and what the object is then are functions of what it was (`answer`, `after`), as is a node that is granted
//! or lent (`granted`, `lent`): it has the lines of its place and below, which come back with it. Want of memory comes
//! only where a call takes memory (`answer`, `lacks`), and leaves the tree as it was (`tells`, `err`). `World::put`
//! answers the first fault exactly (`fault`, `faulty`), or the tree stands where the names lead (`ok`); `World::plan`
//! likewise (`no_node`).
//!
//! Not said: times and owners, and which node is meant where one comes back to another place: lines go by places.
//!
//! Standard: Linux man-pages, path_resolution(7), stat(2), open(2), pread(2), readdir(3).
#![tactic(auto)]

mod node;
mod places;
mod plan;
mod reading;
mod world;

pub use node::{MemoryNode, NodeAccess};
pub use places::PutErr;
pub use plan::{Line, Op, Plan, PlanErr};
pub use world::World;
