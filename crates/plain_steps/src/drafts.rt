//! What a step works on before its entry is seen to fit: copies of the caller and of the shared areas; and what the
//! entry of a call says.

use kernel_model::{Args, Caller, Given, GuestArea, Named};

/// A live task with a copy of its address space, and copies of the shared areas. They take their places in the kernel
/// where the entry fits, and count for nothing else.
#[derive(Drop)]
pub(crate) struct Draft {
    pub(crate) caller: Caller,
    pub(crate) areas: Named<GuestArea>,
}

/// What the entry of a call says: the call's number, its arguments, its reply, and what it drew and met.
#[derive(Clone, Copy)]
pub(crate) struct CallEntry<'a> {
    pub(crate) no: u64,
    pub(crate) args: &'a Args,
    pub(crate) reply: i64,
    pub(crate) given: &'a Given,
}
