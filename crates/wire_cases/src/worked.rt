//! Messages by their names.

use sn_vectors::messages as named;

/// The bytes that have that name, if any have.
#[rattlefmt::skip]
pub fn worked(name: &str) -> Option<&'static [u8]> {
    match name {
        "STAT_OF_FD_1" => Some(&named::STAT_OF_FD_1),
        "FILE_OF_3_BYTES" => Some(&named::FILE_OF_3_BYTES),
        "WALK_ALONG_AB" => Some(&named::WALK_ALONG_AB),
        "WALK_ALONG_DOTS" => Some(&named::WALK_ALONG_DOTS),
        "FIRST_NAME_IS_MISSING" => Some(&named::FIRST_NAME_IS_MISSING),
        "FIRST_NAME_IS_A_LINK" => Some(&named::FIRST_NAME_IS_A_LINK),
        "ERROR_EINVAL" => Some(&named::ERROR_EINVAL),
        "ERROR_EBADF" => Some(&named::ERROR_EBADF),
        "MOUNT_AND_A_BYTE" => Some(&named::MOUNT_AND_A_BYTE),
        _ => None,
    }
}
