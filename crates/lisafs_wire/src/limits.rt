//! The limits of messages.

/// Bytes of data in a message, and bytes that one read asks for.
pub const MOST_DATA: u32 = 65_536;

/// Names of a walk.
pub const MOST_NAMES: u16 = 8;

/// The greatest permission bits: 0777 of chmod(2).
pub const ALL_MODE_BITS: u32 = 0o777;
