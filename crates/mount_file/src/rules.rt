//! The rules that mounts and tasks together have to meet.

ghost use Rattle.std.specs.Prelude.{◌≡◌};
ghost use Rattle.std.specs.List.{list_any, starts_with};
ghost use Rattle.std.specs.Str.{bytes_eq};
ghost use Rattle.mount_file.specs.Rules.{is_same_place, is_in, clashes, has_clash, has_root, has_too_many, rule_broken};

use crate::mounts::{Mount, MountFault, Mounts};
use sn_text::{Name, is_same_name};

/// How many mounts there may be, so far.
pub const MOST_MOUNTS: usize = 1;

/// How many tasks there may be.
pub const MOST_TASKS: usize = 64;

/// The first rule that mounts and tasks together break.
pub(crate) fn rule_broken(mounts: &Mounts) -> Option<MountFault>
    ensures { result ≡ rule_broken mounts.now }
{
    if !has_root(mounts.mounts.as_slice()) {
        Some(MountFault::NoRoot)
    } else if has_clash(mounts.mounts.as_slice()) {
        Some(MountFault::Twice)
    } else if has_too_many(mounts) {
        Some(MountFault::TooMany)
    } else {
        None
    }
}

/// Whether a mount is at `/`.
fn has_root(mounts: &[Mount]) -> bool
    ensures { result ≡ has_root mounts.now }
{
    mounts.iter().any(|mount| mount.at.is_none())
}

/// Whether two of the mounts can't both be.
fn has_clash(mounts: &[Mount]) -> bool
    ensures { result ≡ has_clash mounts.now }
{
    let mut rest = mounts;
    while let [mount, more @ ..] = rest {
        if clashes_with_any(mount, more) {
            return true;
        }
        rest = more;
    }
    false
}

/// Whether a mount can't be beside one of the others.
fn clashes_with_any(mount: &Mount, others: &[Mount]) -> bool
    ensures { result ≡ list_any (clashes mount.now) others.now }
{
    others.iter().any(|other| clashes(mount, other))
}

/// Whether two mounts can't both be: at one place, or with one folder inside another.
fn clashes(mount: &Mount, other: &Mount) -> bool
    ensures { result ≡ clashes mount.now other.now }
{
    is_same_place(&mount.at, &other.at)
        || is_in(mount.folder.route().names(), other.folder.route().names())
}

/// Whether two places of mounts are the same: `None` is `/`.
pub fn is_same_place(place: &Option<Name>, other: &Option<Name>) -> bool
    ensures { result ≡ is_same_place place.now other.now }
{
    match (place, other) {
        (None, None) => true,
        (Some(name), Some(other)) => is_same_name(name, other),
        _ => false,
    }
}

/// Whether one folder is another or lies in it, wherever the two lie from.
fn is_in(names: &[Name], others: &[Name]) -> bool
    ensures { result ≡ is_in names.now others.now }
{
    begins_with(names, others) || begins_with(others, names)
}

/// Whether names begin with others.
fn begins_with(names: &[Name], others: &[Name]) -> bool
    ensures { result ≡ starts_with bytes_eq names.now others.now }
{
    others.len() <= names.len()
        && others
            .iter()
            .zip(names.iter())
            .all(|(other, name)| is_same_name(other, name))
}

/// Whether there are more mounts or tasks than may be.
fn has_too_many(mounts: &Mounts) -> bool
    ensures { result ≡ has_too_many mounts.now }
{
    MOST_MOUNTS < mounts.mounts.len() || MOST_TASKS < mounts.tasks.len()
}
