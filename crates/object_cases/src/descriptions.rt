//! The flags of open(2), accesses, and the status flags of open file descriptions. Numbers of flags are octal.
//!
//! - `flag NAME FLAGS`: the flag's number, and whether that is the flag with these bits;
//! - `flags FLAGS`: the names of those that are among them; `access FLAGS`: the access that they ask for;
//! - `mode ACCESS`: whether it may read, whether it may write, and its number;
//! - `getfl DESCRIPTION`: its status flags; `setfl FLAGS DESCRIPTION`: the description once they are set.
//!
//! A description is what is open, `node:NUMBER`, `read_end:NAME`, `write_end:NAME`, `console` or `empty_input`; `read`,
//! `write` or `both`; those of `append`, `nonblock` that it has, or `-`; and its position.

use crate::notation::{made, octal, space};
use bitflags::Flags;
use fd_table::{AccessMode, Description, Object, OpenFlags, PipeSide};
use read_cases::{Bad, number, parted};

/// The flags by their names in open(2), without the `O_` before them.
#[rattlefmt::skip]
const FLAGS: &[(&str, OpenFlags)] = &[
    ("WRONLY", OpenFlags::WRONLY),
    ("RDWR", OpenFlags::RDWR),
    ("CREAT", OpenFlags::CREAT),
    ("EXCL", OpenFlags::EXCL),
    ("TRUNC", OpenFlags::TRUNC),
    ("APPEND", OpenFlags::APPEND),
    ("NONBLOCK", OpenFlags::NONBLOCK),
    ("LARGEFILE", OpenFlags::LARGEFILE),
    ("DIRECTORY", OpenFlags::DIRECTORY),
    ("NOFOLLOW", OpenFlags::NOFOLLOW),
    ("CLOEXEC", OpenFlags::CLOEXEC),
];

fn flag_of(text: &str) -> Option<OpenFlags> {
    for (name, flag) in FLAGS {
        if *name == text {
            return Some(*flag);
        }
    }
    None
}

fn access_of(text: &str) -> Option<AccessMode> {
    match text {
        "read" => Some(AccessMode::Read),
        "write" => Some(AccessMode::Write),
        "both" => Some(AccessMode::Both),
        _ => None,
    }
}

fn access_name(access: AccessMode) -> &'static str {
    match access {
        AccessMode::Read => "read",
        AccessMode::Write => "write",
        AccessMode::Both => "both",
    }
}

fn object_of(text: &str) -> Option<Object> {
    let (kind, name) = match text.split_once(':') {
        Some(parts) => parts,
        None => (text, ""),
    };
    match kind {
        "node" => Some(Object::Node(number(name)?)),
        "read_end" => Some(Object::PipeEnd {
            pipe: made(name)?,
            end: PipeSide::Read,
        }),
        "write_end" => Some(Object::PipeEnd {
            pipe: made(name)?,
            end: PipeSide::Write,
        }),
        "console" => Some(Object::Console),
        "empty_input" => Some(Object::EmptyInput),
        _ => None,
    }
}

/// A description, whose status flags are told by a word that ends with them.
fn description_of(text: &str) -> Option<Description> {
    let (object, rest) = parted(text);
    let (access, rest) = parted(rest);
    let (status, position) = parted(rest);
    Some(Description {
        object: object_of(object)?,
        access: access_of(access)?,
        append: status.starts_with("append"),
        nonblock: status.ends_with("nonblock"),
        position: number(position)?,
    })
}

fn tell_object(came: &mut String, object: Object) -> Result<(), Bad> {
    match object {
        Object::Node(number) => write!(came, "node:{number}")?,
        Object::PipeEnd { pipe, end } => {
            let side = match end {
                PipeSide::Read => "read_end",
                PipeSide::Write => "write_end",
            };
            write!(came, "{side}:{}.{}", pipe.place, pipe.index)?;
        }
        Object::Console => came.push_str("console")?,
        Object::EmptyInput => came.push_str("empty_input")?,
    }
    Ok(())
}

fn status_name(description: &Description) -> &'static str {
    match (description.append, description.nonblock) {
        (false, false) => "-",
        (true, false) => "append",
        (false, true) => "nonblock",
        (true, true) => "append,nonblock",
    }
}

fn tell_description(came: &mut String, description: &Description) -> Result<(), Bad> {
    tell_object(came, description.object)?;
    let access = access_name(description.access);
    let status = status_name(description);
    write!(came, " {access} {status} {}", description.position)?;
    Ok(())
}

fn do_flag(text: &str, came: &mut String) -> Result<bool, Bad> {
    let (name, bits) = parted(text);
    let (Some(flag), Some(bits)) = (flag_of(name), octal(bits)) else {
        return Ok(false);
    };
    let is_that = OpenFlags::from_bits_retain(bits) == flag;
    write!(came, "{:o} {is_that}", flag.bits())?;
    Ok(true)
}

fn do_flags(text: &str, came: &mut String) -> Result<bool, Bad> {
    let Some(bits) = octal(text) else {
        return Ok(false);
    };
    let flags = OpenFlags::from_bits_retain(bits);
    for (name, flag) in FLAGS {
        if flags.contains(*flag) {
            space(came)?;
            came.push_str(name)?;
        }
    }
    Ok(true)
}

fn do_access(text: &str, came: &mut String) -> Result<bool, Bad> {
    let Some(bits) = octal(text) else {
        return Ok(false);
    };
    came.push_str(match OpenFlags::from_bits_retain(bits).access() {
        Some(access) => access_name(access),
        None => "none",
    })?;
    Ok(true)
}

fn do_mode(text: &str, came: &mut String) -> Result<bool, Bad> {
    let Some(access) = access_of(text) else {
        return Ok(false);
    };
    let (may_read, may_write) = (access.may_read(), access.may_write());
    write!(came, "{may_read} {may_write} {}", access.number())?;
    Ok(true)
}

fn do_getfl(text: &str, came: &mut String) -> Result<bool, Bad> {
    let Some(description) = description_of(text) else {
        return Ok(false);
    };
    write!(came, "{:o}", description.status_flags())?;
    Ok(true)
}

fn do_setfl(text: &str, came: &mut String) -> Result<bool, Bad> {
    let (flags, description) = parted(text);
    let (Some(flags), Some(mut description)) = (octal(flags), description_of(description)) else {
        return Ok(false);
    };
    description.set_status(flags);
    tell_description(came, &description)?;
    Ok(true)
}

/// Does a case with a verb; whether it is one.
pub fn do_description(verb: &str, case: &str, came: &mut String) -> Result<bool, Bad> {
    match verb {
        "flag" => do_flag(case, came),
        "flags" => do_flags(case, came),
        "access" => do_access(case, came),
        "mode" => do_mode(case, came),
        "getfl" => do_getfl(case, came),
        "setfl" => do_setfl(case, came),
        _ => Ok(false),
    }
}
