//! What a byte is to an access.

use rv_table::Area;

/// What a byte is to an access: it has a value, it may not be accessed so, or it lies in a shared area that is not
/// handed in.
#[derive(Clone, Copy)]
pub(crate) enum Seen {
    Value(u8),
    Barred,
    InArea(Area),
}
