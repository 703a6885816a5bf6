//! Errors, replies, and the table of system calls.
//!
//! - `number NAME`: an error's number; `refusal NAME`: the reply of a call that fails so; `reply NUMBER`: that reply's
//!   number; `same NUMBER NAME`: whether a reply's number is that of a refusal;
//! - `call NUMBER`: the name and the number of the call that has that number, or `none`.

use crate::notation::tell_bool;
use read_cases::{Bad, number, parted};
use sn_errno::{CallNo, Errno, Reply};

/// The errors by their names.
#[rattlefmt::skip]
const ERRORS: &[(&str, Errno)] = &[
    ("EPERM", Errno::EPERM), ("ENOENT", Errno::ENOENT), ("ESRCH", Errno::ESRCH), ("EINTR", Errno::EINTR),
    ("EIO", Errno::EIO), ("E2BIG", Errno::E2BIG), ("ENOEXEC", Errno::ENOEXEC), ("EBADF", Errno::EBADF),
    ("ECHILD", Errno::ECHILD), ("EAGAIN", Errno::EAGAIN), ("ENOMEM", Errno::ENOMEM), ("EACCES", Errno::EACCES),
    ("EFAULT", Errno::EFAULT), ("EBUSY", Errno::EBUSY), ("EEXIST", Errno::EEXIST), ("EXDEV", Errno::EXDEV),
    ("ENODEV", Errno::ENODEV), ("ENOTDIR", Errno::ENOTDIR), ("EISDIR", Errno::EISDIR), ("EINVAL", Errno::EINVAL),
    ("ENFILE", Errno::ENFILE), ("EMFILE", Errno::EMFILE), ("ENOTTY", Errno::ENOTTY), ("EFBIG", Errno::EFBIG),
    ("ENOSPC", Errno::ENOSPC), ("ESPIPE", Errno::ESPIPE), ("EROFS", Errno::EROFS), ("EMLINK", Errno::EMLINK),
    ("EPIPE", Errno::EPIPE), ("ERANGE", Errno::ERANGE), ("ENAMETOOLONG", Errno::ENAMETOOLONG),
    ("ENOSYS", Errno::ENOSYS), ("ENOTEMPTY", Errno::ENOTEMPTY), ("ELOOP", Errno::ELOOP),
];

fn error_of(text: &str) -> Option<Errno> {
    for (name, error) in ERRORS {
        if *name == text {
            return Some(*error);
        }
    }
    None
}

/// Tells an error's number, or that of its reply.
fn do_named(verb: &str, name: &str, came: &mut String) -> Result<bool, Bad> {
    let Some(error) = error_of(name) else {
        return Ok(false);
    };
    match verb {
        "number" => write!(came, "{}", error.number())?,
        _ => write!(came, "{}", Reply::of(error).number())?,
    }
    Ok(true)
}

fn do_reply(text: &str, came: &mut String) -> Result<bool, Bad> {
    let Ok(value) = i64::from_str_radix(text, 10) else {
        return Ok(false);
    };
    write!(came, "{}", Reply::new(value).number())?;
    Ok(true)
}

fn do_same(text: &str, came: &mut String) -> Result<bool, Bad> {
    let (value, name) = parted(text);
    let (Ok(value), Some(error)) = (i64::from_str_radix(value, 10), error_of(name)) else {
        return Ok(false);
    };
    tell_bool(came, Reply::new(value) == Reply::of(error))?;
    Ok(true)
}

fn do_call(text: &str, came: &mut String) -> Result<bool, Bad> {
    let Some(number) = number(text) else {
        return Ok(false);
    };
    match CallNo::of(number) {
        Some(call) => write!(came, "{} {}", call.name(), call.number())?,
        None => came.push_str("none")?,
    }
    Ok(true)
}

/// Does a case; whether it is one.
pub fn do_error(case: &str, came: &mut String) -> Result<bool, Bad> {
    let (verb, rest) = parted(case);
    match verb {
        "number" | "refusal" => do_named(verb, rest, came),
        "reply" => do_reply(rest, came),
        "same" => do_same(rest, came),
        "call" => do_call(rest, came),
        _ => Ok(false),
    }
}
