//! The values of a mount file: numbers, seeds, places, folders, paths and texts.

ghost use Rattle.std.specs.Prelude.{◌≡◌, ◌<◌, ◌∷◌, length, IfOk, None, Some, if◌then◌else◌};
ghost use Rattle.mount_file.specs.Read.{Gives, hex_byte};
ghost use Rattle.mount_file.specs.Values.{entries_in, hex_value, hex_bytes, seed_in, place_in, names_in, folder_from};
ghost use Rattle.mount_file.specs.Values.{folder_in, image_name_in, is_name, text_in, texts_in};
ghost use Rattle.toml.specs.Data.{string};
ghost use Rattle.toml.specs.View.{view, items_view};

use crate::mounts::MountFault;
use sn_base::List;
use sn_text::{Folder, Name, Route, Text, name_of};
use std::alloc::Global;
use toml::Value;

/// The longest trace that a mount file may ask for, in entries.
pub const MOST_ENTRIES: u64 = 1_048_576;

/// How many hexadecimal digits a seed has.
const SEED_DIGITS: usize = 64;

/// The longest trace, in entries: 1 to 1,048,576.
pub(crate) fn entries_in(value: i64) -> Option<u64>
    ensures { result ≡ entries_in value }
{
    match u64::try_from(value) {
        Ok(entries) if 1 <= entries && entries <= MOST_ENTRIES => Some(entries),
        _ => None,
    }
}

/// The value of a hexadecimal digit (isxdigit(3)).
fn hex_value(digit: u8) -> Option<u8>
    ensures { result ≡ hex_value digit }
{
    match digit {
        b'0'..=b'9' => Some(digit - b'0'),
        b'A'..=b'F' => Some(digit - b'A' + 10),
        b'a'..=b'f' => Some(digit - b'a' + 10),
        _ => None,
    }
}

/// The byte that two hexadecimal digits spell.
fn hex_byte(high: u8, low: u8) -> Option<u8>
    ensures { result ≡ hex_byte high low }
{
    Some(16 * hex_value(high)? + hex_value(low)?)
}

/// The bytes that pairs of hexadecimal digits spell, as of `xxd -p`.
fn hex_bytes(alloc: Global, digits: &[u8]) -> Result<List<u8>, MountFault>
    ensures { Gives (hex_bytes digits.now) result }
{
    let mut bytes = List::new(alloc);
    let mut rest = digits;
    while let [high, low, more @ ..] = rest {
        let Some(byte) = hex_byte(*high, *low) else {
            return Err(MountFault::Range);
        };
        bytes.push(byte)?;
        rest = more;
    }
    if rest.is_empty() {
        Ok(bytes)
    } else {
        Err(MountFault::Range)
    }
}

/// The bytes of a seed: 64 hexadecimal digits.
pub(crate) fn seed_in(alloc: Global, digits: &str) -> Result<List<u8>, MountFault>
    ensures { Gives (seed_in digits.now) result }
{
    if digits.len() == SEED_DIGITS {
        hex_bytes(alloc, digits.as_bytes())
    } else {
        Err(MountFault::Range)
    }
}

/// The name with these bytes.
#[tactic(auto, using(crate::proofs::Names::name_given, crate::proofs::Names::name_refused))]
fn name_in(alloc: Global, bytes: &[u8]) -> Result<Name, MountFault>
    ensures { Gives (if is_name bytes.now then Some bytes.now else None) result }
{
    Ok(name_of(alloc, bytes)?)
}

/// The place to mount at: `None` for `/`, and else the name behind the slash.
pub(crate) fn place_in(alloc: Global, at: &str) -> Result<Option<Name>, MountFault>
    ensures { Gives (place_in at.now) result }
{
    match at.as_bytes() {
        [b'/', name @ ..] => place_named(alloc, name),
        _ => Err(MountFault::Range),
    }
}

/// The place behind the slash: `None` for no bytes, and else a name.
fn place_named(alloc: Global, name: &[u8]) -> Result<Option<Name>, MountFault>
    ensures { Gives (place_in (47 ∷ name.now)) result }
{
    match name {
        [] => Ok(None),
        _ => Ok(Some(name_in(alloc, name)?)),
    }
}

/// The names between the slashes.
fn names_in(alloc: Global, bytes: &[u8]) -> Result<Route, MountFault>
    ensures names { Gives (names_in bytes.now) result }
    ensures some { IfOk result (λ names. 0 < length names) }
{
    let mut names = Route::new(alloc);
    for piece in bytes.split(|byte| *byte == b'/') {
        names.push(name_in(alloc, piece)?)?;
    }
    Ok(names)
}

/// The folder that these names lead to.
fn folder_from(alloc: Global, rooted: bool, bytes: &[u8]) -> Result<Folder, MountFault>
    ensures { Gives (folder_from rooted bytes.now) result }
{
    Ok(Folder::new(rooted, names_in(alloc, bytes)?))
}

/// A folder: names divided by slashes, with one before them where it lies from the root.
pub(crate) fn folder_in(alloc: Global, folder: &str) -> Result<Folder, MountFault>
    ensures { Gives (folder_in folder.now) result }
{
    match folder.as_bytes() {
        [] => Err(MountFault::Range),
        [b'/', names @ ..] => folder_from(alloc, true, names),
        names => folder_from(alloc, false, names),
    }
}

/// The name of the image at a task's path, which is `/` and that name.
pub(crate) fn image_name_in(alloc: Global, path: &str) -> Result<Name, MountFault>
    ensures { Gives (image_name_in path.now) result }
{
    match path.as_bytes() {
        [b'/', name @ ..] => name_in(alloc, name),
        _ => Err(MountFault::Range),
    }
}

/// The text of bytes where they have the form that it needs.
fn text_where(alloc: Global, has_form: bool, bytes: &[u8]) -> Result<Text, MountFault>
    ensures { Gives (if has_form then Some bytes.now else None) result }
{
    if has_form {
        Ok(Text::from_slice(alloc, bytes)?)
    } else {
        Err(MountFault::Range)
    }
}

/// A text that a task may be given: a string without a NUL, which would end it (execve(2)).
fn text_in(alloc: Global, value: &Value) -> Result<Text, MountFault>
    ensures { Gives (text_in (view value.now)) result }
{
    match value {
        Value::String(text) => text_of(alloc, text.as_bytes()),
        _ => Err(MountFault::Range),
    }
}

/// The text of these bytes, which may have no NUL.
fn text_of(alloc: Global, bytes: &[u8]) -> Result<Text, MountFault>
    ensures { Gives (text_in (string bytes.now)) result }
{
    text_where(alloc, !bytes.contains(&0), bytes)
}

/// The texts of an array.
pub(crate) fn texts_in(alloc: Global, items: &[Value]) -> Result<List<Text>, MountFault>
    ensures { Gives (texts_in (items_view items.now)) result }
{
    let mut texts = List::new(alloc);
    for item in items {
        texts.push(text_in(alloc, item)?)?;
    }
    Ok(texts)
}
