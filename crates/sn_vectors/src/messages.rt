//! Single LISAFS messages, by what they say, and bytes that are none.

/// FStat of FD 1.
pub const STAT_OF_FD_1: [u8; 16] = [16, 0, 0, 0, 2, 0, 0, 0, 1, 0, 0, 0, 0, 0, 0, 0];

/// The answer to FStat that tells of a file of 3 bytes with mode 0644.
#[rattlefmt::skip]
pub const FILE_OF_3_BYTES: [u8; 21] = [
    21, 0, 0, 0, 0x02, 0x80, 0, 0, 8, 0xa4, 0x01, 0, 0, 3, 0, 0, 0, 0, 0, 0, 0,
];

/// Walk from FD 1 along `ab`.
#[rattlefmt::skip]
pub const WALK_ALONG_AB: [u8; 22] = [
    22, 0, 0, 0, 4, 0, 0, 0, 1, 0, 0, 0, 0, 0, 0, 0, 1, 0, 2, 0, b'a', b'b',
];

/// The same along `..`, which is no name: the bytes are no message.
#[rattlefmt::skip]
pub const WALK_ALONG_DOTS: [u8; 22] = [
    22, 0, 0, 0, 4, 0, 0, 0, 1, 0, 0, 0, 0, 0, 0, 0, 1, 0, 2, 0, b'.', b'.',
];

/// The answer to a Walk whose first name isn't there.
pub const FIRST_NAME_IS_MISSING: [u8; 11] = [11, 0, 0, 0, 0x04, 0x80, 0, 0, 1, 0, 0];

/// The answer to a Walk whose first name is that of a symbolic link, with FD 9, mode 0777 and a text of 2 bytes.
#[rattlefmt::skip]
pub const FIRST_NAME_IS_A_LINK: [u8; 32] = [
    32, 0, 0, 0, 0x04, 0x80, 0, 0, 2, 1, 0, 9, 0, 0, 0, 0, 0, 0, 0, 10, 0xff, 0x01, 0, 0, 2, 0, 0, 0, 0, 0, 0, 0,
];

/// The error EINVAL.
pub const ERROR_EINVAL: [u8; 12] = [12, 0, 0, 0, 0x00, 0x80, 0, 0, 22, 0, 0, 0];

/// The error EBADF.
pub const ERROR_EBADF: [u8; 12] = [12, 0, 0, 0, 0x00, 0x80, 0, 0, 9, 0, 0, 0];

/// Mount of version 2, and a byte behind it, which is one too many for its length.
pub const MOUNT_AND_A_BYTE: [u8; 13] = [12, 0, 0, 0, 1, 0, 0, 0, 2, 0, 0, 0, 0];
