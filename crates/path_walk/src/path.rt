//! The limits of paths.

/// The most bytes of a path with its NUL (limits.h of Linux).
pub const PATH_MAX: usize = 4096;

/// The most links that one path may lead through (path_resolution(7), ELOOP).
pub const MOST_LINKS: u32 = 40;
