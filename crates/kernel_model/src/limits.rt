//! Limits of the kernel: of numbers of nodes, of images, of the console, and of what one call takes or gives.

/// The greatest inode number that a node may have.
pub const LAST_NUMBER: u64 = 65_536;

/// The greatest size of an image's file, in bytes.
pub const LONGEST_IMAGE: u64 = 67_108_864;

/// The most bytes of the console: write(2), ENOSPC.
pub const CONSOLE_ROOM: usize = 1_048_576;

/// The most bytes that one read or write moves: profile.
pub const MOST_MOVED: u64 = 65_536;

/// The most bytes that one getrandom gives: getrandom(2), NOTES.
pub const MOST_RANDOM: u64 = 256;
