//! What a directory of the machine lists.

ghost use Rattle.std.specs.Prelude.{◌≡◌, ◌↔◌, ◌∷◌, ◌++◌, []};
ghost use Rattle.std.specs.Prelude.{All, IfOk, IfErr, IfSome, OnOk, IsOkUnless, IsErrAnd, IsTrue, IsPermutation};
ghost use Rattle.host_node.specs.Order.{IsAscending, names_of};
ghost use Rattle.sn_text.specs.Names.{IsName};
ghost use Rattle.host_folder.specs.Entries.{entries_of, listed_as};
ghost use Rattle.host_folder.specs.Failures.{IsRefusalOf};

use crate::failures::answer_from;
use crate::seen::{SeenEntry, see_all};
use host_node::{HostErr, Listed, Listing};
use sn_text::{Name, NameFault, name_of};
use std::alloc::Global;
use std::fs::{Files, ReadDir};
use std::{fs, io};

/// The entries of a directory that are directories, files or links, by the order of their names' bytes.
pub(crate) fn list<R: Files + AllocGlobal + Clone + Drop>(
    files: &R,
    path: &str,
) -> Result<Listing, HostErr>
    ensures ordered { IfOk result (λ listing. IsAscending (names_of listing)) }
    ensures names { IfOk result (All (λ entry. IsName entry.name)) }
{
    listing_from(files.alloc(), fs::read_dir(files, path))
}

/// What a directory lists, from what opening it for that came to.
fn listing_from<R: Files + Clone + Drop>(
    alloc: Global,
    opened: io::Result<ReadDir<R>>,
) -> Result<Listing, HostErr>
    ensures ordered { IfOk result (λ listing. IsAscending (names_of listing)) }
    ensures names { IfOk result (All (λ entry. IsName entry.name)) }
    ensures refused { IfErr opened (λ error. IsErrAnd result (IsRefusalOf error)) }
{
    let told = answer_from(opened)?.collect(alloc)?;
    let seen = see_all(alloc, told)?;
    listing_of(alloc, seen.as_slice())
}

/// The listing of all entries that were seen and aren't hidden.
fn listing_of(alloc: Global, seen: &[SeenEntry]) -> Result<Listing, HostErr>
    ensures entries { IfOk result (λ listing. IsPermutation (entries_of seen.now) listing) }
    ensures ordered { IfOk result (λ listing. IsAscending (names_of listing)) }
    ensures names { IfOk result (All (λ entry. IsName entry.name)) }
{
    let entries = entries_from(alloc, seen)?;
    in_order(alloc, entries)
}

/// The entries that were seen and aren't hidden, in the order in which they were seen.
fn entries_from(alloc: Global, seen: &[SeenEntry]) -> Result<Vec<Listed>, HostErr>
    ensures entries { IfOk result (λ entries. entries.items ≡ entries_of seen.now) }
    ensures names { IfOk result (λ entries. All (λ entry. IsName entry.name) entries.items) }
    ensures memory { All (λ one. IfSome (listed_as one) (λ entry. IsName entry.name)) seen.now →
        IsOkUnless result HostErr.Memory }
{
    let mut entries = Vec::new(alloc);
    for one in seen {
        push_entry(alloc, &mut entries, one)?;
    }
    Ok(entries)
}

/// Adds an entry that was seen at the end, where it isn't hidden.
fn push_entry(alloc: Global, entries: &mut Vec<Listed>, seen: &SeenEntry) -> Result<(), HostErr>
    ensures entry { OnOk result (entries.new.items ≡ entries.old.items ++ entries_of (seen.now ∷ [])) }
    ensures names { All (λ entry. IsName entry.name) entries.old.items →
        OnOk result (All (λ entry. IsName entry.name) entries.new.items) }
    ensures memory { IfSome (listed_as seen.now) (λ entry. IsName entry.name) → IsOkUnless result HostErr.Memory }
{
    if let Some(entry) = entry_from(alloc, seen)? {
        entries.push(entry)?;
    }
    Ok(())
}

/// An entry as it is listed: `None` where it is hidden.
fn entry_from(alloc: Global, seen: &SeenEntry) -> Result<Option<Listed>, HostErr>
    ensures entry { IfOk result (λ entry. entry ≡ listed_as seen.now) }
    ensures name { IfOk result (λ entry. IfSome entry (λ e. IsName e.name)) }
    ensures memory { IfSome (listed_as seen.now) (λ entry. IsName entry.name) → IsOkUnless result HostErr.Memory }
    ensures failed { IfSome (listed_as seen.now) (λ entry. ¬ (IsName entry.name) → result ≡ Err HostErr.Failed) }
{
    let Some(kind) = seen.kind else {
        return Ok(None);
    };
    let name = name_from(alloc, seen.text.as_str())?;
    Ok(Some(Listed { name, kind }))
}

/// A name of the machine. One that is too long for us is a failure.
fn name_from(alloc: Global, text: &str) -> Result<Name, HostErr>
    ensures ok { IfOk result (λ name. (name ≡ text.now) × IsName text.now) }
    ensures err { IfErr result (λ refusal. (refusal ≡ HostErr.Memory) ↔ IsName text.now) }
{
    match name_of(alloc, text.as_bytes()) {
        Ok(name) => Ok(name),
        Err(NameFault::Memory) => Err(HostErr::Memory),
        Err(_) => Err(HostErr::Failed),
    }
}

/// A listing of entries, by the order of their names' bytes. Two of one name are a failure.
fn in_order(alloc: Global, mut entries: Vec<Listed>) -> Result<Listing, HostErr>
    ensures entries { IfOk result (λ listing. IsPermutation entries.items listing) }
    ensures ordered { IfOk result (λ listing. IsAscending (names_of listing)) }
{
    entries.sort_by(|a, b| a.name.as_bytes().cmp(b.name.as_bytes()))?;
    let mut listing = Listing::new(alloc);
    for entry in entries {
        push_behind(&mut listing, entry)?;
    }
    Ok(listing)
}

/// Adds an entry whose name is greater than those that a listing has.
fn push_behind(listing: &mut Listing, entry: Listed) -> Result<(), HostErr>
    requires { IsAscending (names_of listing.old) }
    ensures ok { OnOk result (listing.new ≡ listing.old ++ entry ∷ []) }
    ensures ordered { OnOk result (IsAscending (names_of listing.new)) }
    ensures failed { ¬ (IsAscending (names_of (listing.old ++ entry ∷ []))) → result ≡ Err HostErr.Failed }
    ensures memory { IsAscending (names_of (listing.old ++ entry ∷ [])) → IsOkUnless result HostErr.Memory }
{
    if !comes_behind(listing.entries(), &entry) {
        return Err(HostErr::Failed);
    }
    listing.push(entry)?;
    Ok(())
}

/// Whether an entry's name is greater than that of the last of some entries, if there are any.
fn comes_behind(entries: &[Listed], entry: &Listed) -> bool
    requires { IsAscending (names_of entries.now) }
    ensures { IsTrue result ↔ IsAscending (names_of (entries.now ++ entry.now ∷ [])) }
{
    match entries.last() {
        Some(last) => last.name.as_bytes().cmp(entry.name.as_bytes()).is_lt(),
        None => true,
    }
}
