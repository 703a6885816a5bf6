//! Numbers of control FDs and of open FDs.

/// The number of a control FD, which stands for a node, or of an open FD, which stands for an opened file. A server
/// gives them. It gives 0 to none, and so 0 can stand for none at all.
#[derive(Clone, Copy, Debug, PartialEq, Eq)]
pub struct Fd {
    pub number: u64,
}
