//! What the system is asked for at each call: which paths, how they are looked at, and how a file is opened.

use crate::held::{Ask, Row};
use crate::scripted::{Call, Line};
use crate::scripts::{expect_back, expect_grant, expect_script};
use host_node::{Attr, HostErr, Kind};
use std::test::Fail;

#[test]
fn a_grant_looks_at_each_directory_on_the_way(rt: HostRuntime) -> Result<(), Fail> {
    let here = [(Call::Directory, "./a"), (Call::Directory, "./a/b")];
    let rooted = [(Call::Directory, "/a"), (Call::Directory, "/a/b")];
    expect_grant(rt, false, &here, true)?;
    expect_grant(rt, true, &rooted, true)
}

#[test]
fn a_grant_goes_no_further_than_what_is_no_directory(rt: HostRuntime) -> Result<(), Fail> {
    for call in [Call::File, Call::Link, Call::Device, Call::Nothing] {
        expect_grant(rt, false, &[(call, "./a")], false)?;
        let script = [(Call::Directory, "./a"), (call, "./a/b")];
        expect_grant(rt, false, &script, false)?;
    }
    Ok(())
}

/// What nodes tell of themselves.
const DIRECTORY: Attr = Attr {
    kind: Kind::Dir,
    mode: 0o755,
    size: 0,
};

const FILE: Attr = Attr {
    kind: Kind::File,
    mode: 0o755,
    size: 12,
};

const LINK: Attr = Attr {
    kind: Kind::Link,
    mode: 0o777,
    size: 11,
};

/// Each is looked at when it is lent, and at its stat.
#[rattlefmt::skip]
const LOOKS: &[Line] = &[
    (Call::Directory, "./a"),
    (Call::Directory, "./a"),
    (Call::File, "./a/f"),
    (Call::File, "./a/f"),
    (Call::Link, "./a/l"),
    (Call::Link, "./a/l"),
];

#[rattlefmt::skip]
const TOLD: &[Row] = &[
    (None, &[Ask::Stats(Ok(DIRECTORY))]),
    (Some("f"), &[Ask::Stats(Ok(FILE))]),
    (Some("l"), &[Ask::Stats(Ok(LINK))]),
];

#[test]
fn a_stat_tells_what_a_look_at_the_own_path_tells(rt: HostRuntime) -> Result<(), Fail> {
    expect_script(rt, "a", LOOKS, TOLD)
}

/// A file that is a link then, nothing, and a directory.
#[rattlefmt::skip]
const OTHERS: &[Line] = &[
    (Call::Directory, "./a"),
    (Call::File, "./a/f"),
    (Call::Link, "./a/f"),
    (Call::Nothing, "./a/f"),
    (Call::Directory, "./a/f"),
];

#[rattlefmt::skip]
const FAILING: &[Row] = &[
    (Some("f"), &[
        Ask::Stats(Err(HostErr::Failed)), Ask::Stats(Err(HostErr::Failed)), Ask::Opens(false, Err(HostErr::Failed)),
    ]),
];

#[test]
fn a_node_that_became_another_fails(rt: HostRuntime) -> Result<(), Fail> {
    expect_script(rt, "a", OTHERS, FAILING)
}

/// That a directory of `b`, which a look finds so, `c` and `a` is listed with these entries.
fn expect_listing(rt: HostRuntime, b: Call, listed: &[Row]) -> Result<(), Fail> {
    let script = [
        (Call::Directory, "./a"),
        (Call::Directory, "./a/d"),
        (Call::Directory, "./a/d"),
        (Call::List(b"b\0.\0c\0..\0a\0"), "./a/d/"),
        (b, "./a/d/b"),
        (Call::File, "./a/d/c"),
        (Call::Link, "./a/d/a"),
    ];
    expect_script(rt, "a", &script, listed)
}

/// The entries where `b` is a device, a directory, or a file.
#[rattlefmt::skip]
const OF_DEVICE: &[Row] = &[
    (Some("d"), &[Ask::Lists(Ok(()), &[("a", Kind::Link), ("c", Kind::File)])]),
];

#[rattlefmt::skip]
const OF_DIRECTORY: &[Row] = &[
    (Some("d"), &[Ask::Lists(Ok(()), &[("a", Kind::Link), ("b", Kind::Dir), ("c", Kind::File)])]),
];

#[rattlefmt::skip]
const OF_FILE: &[Row] = &[
    (Some("d"), &[Ask::Lists(Ok(()), &[("a", Kind::Link), ("b", Kind::File), ("c", Kind::File)])]),
];

#[test]
fn a_listing_has_each_entry_that_is_not_hidden(rt: HostRuntime) -> Result<(), Fail> {
    expect_listing(rt, Call::Device, OF_DEVICE)?;
    expect_listing(rt, Call::Directory, OF_DIRECTORY)?;
    expect_listing(rt, Call::File, OF_FILE)
}

/// A directory, and what stands in it: a link, nothing, and a device.
#[rattlefmt::skip]
const BELOW: &[Line] = &[
    (Call::Directory, "./a"),
    (Call::Directory, "./a/d"),
    (Call::Link, "./a/d/l"),
    (Call::Nothing, "./a/d/n"),
    (Call::Device, "./a/d/m"),
];

#[rattlefmt::skip]
const CHILDREN: &[Row] = &[
    (Some("d"), &[Ask::Is(Kind::Dir), Ask::Lends("l", Kind::Link), Ask::Nothing("n"), Ask::Nothing("m")]),
];

#[test]
fn a_child_is_looked_at_below_the_route(rt: HostRuntime) -> Result<(), Fail> {
    expect_script(rt, "a", BELOW, CHILDREN)
}

/// Each is looked at when it is lent, and when it is opened.
#[rattlefmt::skip]
const OPENINGS: &[Line] = &[
    (Call::Directory, "./a"),
    (Call::File, "./a/f"),
    (Call::File, "./a/f"),
    (Call::Read, "./a/f"),
    (Call::File, "./a/f"),
    (Call::Write, "./a/f"),
    (Call::Directory, "./a"),
    (Call::Link, "./a/l"),
    (Call::Link, "./a/l"),
];

#[rattlefmt::skip]
const OPENED: &[Row] = &[
    (Some("f"), &[Ask::Opens(false, Ok(())), Ask::Opens(true, Ok(())), Ask::Reads(0, 1, Ok(b"x"))]),
    (None, &[Ask::Opens(false, Ok(()))]),
    (Some("l"), &[Ask::Opens(false, Err(HostErr::Failed))]),
];

#[test]
fn a_file_is_opened_as_it_is_and_a_directory_or_a_link_is_not(rt: HostRuntime) -> Result<(), Fail> {
    expect_script(rt, "a", OPENINGS, OPENED)
}

#[test]
fn what_comes_back_asks_for_nothing(rt: HostRuntime) -> Result<(), Fail> {
    expect_back(rt, &[(Call::Directory, "./a"), (Call::File, "./a/f")])
}
