//! What looks at paths tell.

ghost use Rattle.std.specs.Prelude.{◌≡◌, ◌≢◌, ◌↔◌, ◌≤◌, false, IsTrue, IsOk, IfOk, IfErr, IsOkAnd, IsErrAnd};
ghost use Rattle.std.specs.Fs.{file_type, metadata_len, IsDir};
ghost use Rattle.std.specs.IoError.{error_kind};
ghost use Rattle.host_folder.specs.Failures.{IsAbsence, IsRefusalOf};
ghost use Rattle.host_folder.specs.Kinds.{IsOfKind, IsKindOf, attr_by};

use crate::attributes::{attributes, kind_of};
use crate::failures::{answer_from, refusal};
use host_node::{Attr, HostErr, Kind};
use std::fs::Metadata;
use std::io;
use std::io::ErrorKind;

/// What a look at a node's own path tells: a file of the node's kind. Another one is a failure.
pub(crate) fn same_kind(found: io::Result<Metadata>, kind: Kind) -> Result<Metadata, HostErr>
    ensures same { IfOk result (λ metadata. (found ≡ Ok metadata) × IsOfKind kind metadata) }
    ensures found { IfOk found (λ metadata. IsOfKind kind metadata → result ≡ Ok metadata) }
    ensures changed { IfOk found (λ metadata. ¬ (IsOfKind kind metadata) → result ≡ Err HostErr.Failed) }
    ensures refused { IfErr found (λ error. IsErrAnd result (IsRefusalOf error)) }
{
    let metadata = answer_from(found)?;
    if kind_of(&metadata) == Some(kind) {
        Ok(metadata)
    } else {
        Err(HostErr::Failed)
    }
}

/// What a look at a node's own path tells of the node (lstat(2)).
pub(crate) fn attr_from(found: io::Result<Metadata>, kind: Kind) -> Result<Attr, HostErr>
    ensures attr { IfOk result (λ attr. IsOkAnd found (λ metadata. attr ≡ attr_by kind (metadata_len metadata))) }
    ensures same { IfOk found (λ metadata. IsOfKind kind metadata → IsOk result) }
    ensures changed { IfOk found (λ metadata. ¬ (IsOfKind kind metadata) → result ≡ Err HostErr.Failed) }
    ensures refused { IfErr found (λ error. IsErrAnd result (IsRefusalOf error)) }
    ensures mode { IfOk result (λ attr. attr.mode ≤ 511) }
    ensures kind { IfOk result (λ attr. attr ≡ attr_by kind attr.size) }
{
    let metadata = same_kind(found, kind)?;
    Ok(attributes(kind, &metadata))
}

/// What a look at a name of a directory tells: the kind of what stands there, or `None` where nothing does
/// that is for us.
pub(crate) fn child_kind(found: io::Result<Metadata>) -> Result<Option<Kind>, HostErr>
    ensures found { IfOk found (λ metadata. IsOkAnd result (IsKindOf metadata)) }
    ensures absent { IfErr found (λ error. error_kind error ≡ ErrorKind.NotFound → result ≡ Ok None) }
    ensures refused { IfErr found (λ error.
        error_kind error ≢ ErrorKind.NotFound → IsErrAnd result (IsRefusalOf error)) }
{
    match found {
        Ok(metadata) => Ok(kind_of(&metadata)),
        Err(error) => {
            if error.kind() == ErrorKind::NotFound {
                return Ok(None);
            }
            Err(refusal(error))
        }
    }
}

/// Whether a look at a folder's path tells a directory.
pub(crate) fn is_directory(found: io::Result<Metadata>) -> Result<bool, HostErr>
    ensures found { IfOk found (λ metadata. IsOkAnd result (λ is. IsTrue is ↔ IsDir (file_type metadata))) }
    ensures absent { IfErr found (λ error. IsAbsence (error_kind error) → result ≡ Ok false) }
    ensures refused { IfErr found (λ error.
        ¬ (IsAbsence (error_kind error)) → IsErrAnd result (IsRefusalOf error)) }
{
    match found {
        Ok(metadata) => Ok(metadata.is_dir()),
        Err(error) => {
            if is_absence(error.kind()) {
                return Ok(false);
            }
            Err(refusal(error))
        }
    }
}

fn is_absence(kind: ErrorKind) -> bool
    ensures { IsTrue result ↔ IsAbsence kind }
{
    kind == ErrorKind::NotFound || kind == ErrorKind::NotADirectory
}
