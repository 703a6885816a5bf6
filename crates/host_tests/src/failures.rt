//! Calls of the system that fail, and how they are answered and counted.

use crate::held::{Ask, Row};
use crate::scripted::{Call, Line};
use crate::scripts::{Trial, expect_not_granted, expect_script, expect_trials};
use host_node::HostErr;
use std::io::ErrorKind;
use std::test::Fail;

/// A listing that fails, and is counted.
#[rattlefmt::skip]
const FAILING: &[Row] = &[
    (None, &[Ask::Lists(Err(HostErr::Failed), &[]), Ask::Faults(1)]),
];

#[test]
fn a_name_that_is_not_utf8_fails_the_listing(rt: HostRuntime) -> Result<(), Fail> {
    let script = [
        (Call::Directory, "./odd"),
        (Call::Directory, "./odd"),
        (Call::List(b"\xff\0"), "./odd/"),
    ];
    expect_script(rt, "odd", &script, FAILING)
}

#[test]
fn an_entry_that_cannot_be_looked_at_fails_the_listing(rt: HostRuntime) -> Result<(), Fail> {
    let script = [
        (Call::Directory, "./lost"),
        (Call::Directory, "./lost"),
        (Call::List(b"hidden\0"), "./lost/"),
        (Call::Hidden, "./lost/hidden"),
    ];
    expect_script(rt, "lost", &script, FAILING)
}

#[test]
fn a_directory_that_cannot_be_read_fails_the_listing(rt: HostRuntime) -> Result<(), Fail> {
    let script = [
        (Call::Directory, "./locked"),
        (Call::Directory, "./locked"),
        (Call::Locked, "./locked/"),
    ];
    expect_script(rt, "locked", &script, FAILING)
}

#[test]
fn two_entries_of_one_name_fail_the_listing(rt: HostRuntime) -> Result<(), Fail> {
    let script = [
        (Call::Directory, "./twice"),
        (Call::Directory, "./twice"),
        (Call::List(b"file\0file\0"), "./twice/"),
        (Call::File, "./twice/file"),
        (Call::File, "./twice/file"),
    ];
    expect_script(rt, "twice", &script, FAILING)
}

/// A device, which is neither listed nor lent.
#[rattlefmt::skip]
const LISTED: &[Line] = &[
    (Call::Directory, "./devices"),
    (Call::Directory, "./devices"),
    (Call::List(b"device\0"), "./devices/"),
    (Call::Device, "./devices/device"),
];

#[rattlefmt::skip]
const NO_ENTRIES: &[Row] = &[
    (None, &[Ask::Lists(Ok(()), &[]), Ask::Faults(0)]),
];

#[rattlefmt::skip]
const LOOKED_AT: &[Line] = &[
    (Call::Directory, "./devices"),
    (Call::Device, "./devices/device"),
];

#[rattlefmt::skip]
const NOTHING: &[Row] = &[
    (None, &[Ask::Nothing("device"), Ask::Faults(0)]),
];

#[test]
fn a_device_is_hidden(rt: HostRuntime) -> Result<(), Fail> {
    expect_script(rt, "devices", LISTED, NO_ENTRIES)?;
    expect_script(rt, "devices", LOOKED_AT, NOTHING)
}

/// A name that isn't UTF-8.
#[rattlefmt::skip]
const ODD_NAME: &[Row] = &[
    (None, &[Ask::Refuses(b"\xff", HostErr::Failed), Ask::Faults(1)]),
];

#[test]
fn a_name_that_is_not_utf8_is_not_lent(rt: HostRuntime) -> Result<(), Fail> {
    expect_script(rt, "any", &[(Call::Directory, "./any")], ODD_NAME)
}

/// A file of which one byte is read, and no more.
#[rattlefmt::skip]
const OPENED: &[Line] = &[
    (Call::Directory, "./any"),
    (Call::File, "./any/file"),
    (Call::File, "./any/file"),
    (Call::Read, "./any/file"),
];

#[rattlefmt::skip]
const SHORT: &[Row] = &[
    (Some("file"), &[Ask::Opens(false, Ok(())), Ask::Reads(0, 2, Err(HostErr::Failed)), Ask::Faults(1)]),
    (None, &[Ask::Faults(0)]),
];

#[test]
fn a_read_that_fails_in_the_middle_fails(rt: HostRuntime) -> Result<(), Fail> {
    expect_script(rt, "any", OPENED, SHORT)
}

#[rattlefmt::skip]
const SHUT: &[Line] = &[
    (Call::Directory, "./any"),
    (Call::File, "./any/file"),
];

#[rattlefmt::skip]
const NOT_READ: &[Row] = &[
    (Some("file"), &[Ask::Reads(0, 1, Err(HostErr::Failed)), Ask::Faults(1)]),
];

#[test]
fn a_node_that_is_not_open_has_nothing_to_be_read(rt: HostRuntime) -> Result<(), Fail> {
    expect_script(rt, "any", SHUT, NOT_READ)
}

#[test]
fn a_folder_that_cannot_be_looked_at_fails_the_grant(rt: HostRuntime) -> Result<(), Fail> {
    let script = [(Call::Directory, "./any"), (Call::Hidden, "./any/hidden")];
    expect_not_granted(rt, "any/hidden/below", &script, HostErr::Failed, 1)
}

#[test]
fn want_of_memory_is_not_counted(rt: HostRuntime) -> Result<(), Fail> {
    let script = [(Call::Directory, "./any"), (Call::Full, "./any/full")];
    expect_not_granted(rt, "any/full", &script, HostErr::Memory, 0)
}

/// What a look finds at the folder, and at two files of it.
const ANY: Line = (Call::Directory, "./any");

const FILE: Line = (Call::File, "./any/file");

const MORE: Line = (Call::File, "./any/more");

/// A call of the system for which there is no memory, and the same call refused: the look at a stat, at a loan, at an
/// opening and at a listing, the listing itself, the look at an entry of it, what comes behind two of its entries, the
/// opening of a file, and of one that is open for reading, or for writing too, a read, and the seek to its offset.
#[rattlefmt::skip]
const REFUSED: &[Trial] = &[
    (&[ANY, (Call::Full, "./any")], &[(None, &[Ask::Stats(Err(HostErr::Memory)), Ask::Faults(0)])]),
    (&[ANY, (Call::Hidden, "./any")], &[(None, &[Ask::Stats(Err(HostErr::Failed)), Ask::Faults(1)])]),

    (&[ANY, (Call::Full, "./any/file")], &[(None, &[Ask::Refuses(b"file", HostErr::Memory), Ask::Faults(0)])]),
    (&[ANY, (Call::Hidden, "./any/file")], &[(None, &[Ask::Refuses(b"file", HostErr::Failed), Ask::Faults(1)])]),

    (&[ANY, (Call::Full, "./any")], &[(None, &[Ask::Opens(false, Err(HostErr::Memory)), Ask::Faults(0)])]),
    (&[ANY, (Call::Hidden, "./any")], &[(None, &[Ask::Opens(false, Err(HostErr::Failed)), Ask::Faults(1)])]),

    (&[ANY, (Call::Full, "./any")], &[(None, &[Ask::Lists(Err(HostErr::Memory), &[]), Ask::Faults(0)])]),
    (&[ANY, (Call::Hidden, "./any")], &[(None, &[Ask::Lists(Err(HostErr::Failed), &[]), Ask::Faults(1)])]),

    (&[ANY, ANY, (Call::FullOpen, "./any/")], &[(None, &[Ask::Lists(Err(HostErr::Memory), &[]), Ask::Faults(0)])]),
    (&[ANY, ANY, (Call::Locked, "./any/")], &[(None, &[Ask::Lists(Err(HostErr::Failed), &[]), Ask::Faults(1)])]),

    (&[ANY, ANY, (Call::List(b"file\0"), "./any/"), (Call::Full, "./any/file")],
        &[(None, &[Ask::Lists(Err(HostErr::Memory), &[]), Ask::Faults(0)])]),
    (&[ANY, ANY, (Call::List(b"file\0"), "./any/"), (Call::Hidden, "./any/file")],
        &[(None, &[Ask::Lists(Err(HostErr::Failed), &[]), Ask::Faults(1)])]),

    (&[ANY, ANY, (Call::ListThen(b"file\0more\0", ErrorKind::OutOfMemory), "./any/"), FILE, MORE],
        &[(None, &[Ask::Lists(Err(HostErr::Memory), &[]), Ask::Faults(0)])]),
    (&[ANY, ANY, (Call::ListThen(b"file\0more\0", ErrorKind::PermissionDenied), "./any/"), FILE, MORE],
        &[(None, &[Ask::Lists(Err(HostErr::Failed), &[]), Ask::Faults(1)])]),

    (&[ANY, FILE, FILE, (Call::FullOpen, "./any/file")],
        &[(Some("file"), &[Ask::Opens(false, Err(HostErr::Memory)), Ask::Faults(0)])]),
    (&[ANY, FILE, FILE, (Call::Locked, "./any/file")],
        &[(Some("file"), &[Ask::Opens(false, Err(HostErr::Failed)), Ask::Faults(1)])]),

    (&[ANY, FILE, FILE, (Call::FullRead, "./any/file")],
        &[(Some("file"), &[Ask::Opens(false, Ok(())), Ask::Reads(0, 2, Err(HostErr::Memory)), Ask::Faults(0)])]),
    (&[ANY, FILE, FILE, (Call::Read, "./any/file")],
        &[(Some("file"), &[Ask::Opens(false, Ok(())), Ask::Reads(0, 2, Err(HostErr::Failed)), Ask::Faults(1)])]),

    (&[ANY, FILE, FILE, (Call::FullRead, "./any/file")],
        &[(Some("file"), &[Ask::Opens(true, Ok(())), Ask::Reads(0, 2, Err(HostErr::Memory)), Ask::Faults(0)])]),
    (&[ANY, FILE, FILE, (Call::Write, "./any/file")],
        &[(Some("file"), &[Ask::Opens(true, Ok(())), Ask::Reads(0, 2, Err(HostErr::Failed)), Ask::Faults(1)])]),

    (&[ANY, FILE, FILE, (Call::Unseekable(ErrorKind::OutOfMemory), "./any/file")],
        &[(Some("file"), &[Ask::Opens(false, Ok(())), Ask::Reads(7, 1, Err(HostErr::Memory)), Ask::Faults(0)])]),
    (&[ANY, FILE, FILE, (Call::Unseekable(ErrorKind::PermissionDenied), "./any/file")],
        &[(Some("file"), &[Ask::Opens(false, Ok(())), Ask::Reads(7, 1, Err(HostErr::Failed)), Ask::Faults(1)])]),

    (&[ANY, FILE, FILE, (Call::Unseekable(ErrorKind::OutOfMemory), "./any/file")],
        &[(Some("file"), &[Ask::Opens(true, Ok(())), Ask::Reads(7, 1, Err(HostErr::Memory)), Ask::Faults(0)])]),
    (&[ANY, FILE, FILE, (Call::Unseekable(ErrorKind::PermissionDenied), "./any/file")],
        &[(Some("file"), &[Ask::Opens(true, Ok(())), Ask::Reads(7, 1, Err(HostErr::Failed)), Ask::Faults(1)])]),
];

#[test]
fn an_error_of_the_system_is_a_fault_unless_it_is_want_of_memory(
    rt: HostRuntime,
) -> Result<(), Fail> {
    expect_trials(rt, "any", REFUSED)
}
