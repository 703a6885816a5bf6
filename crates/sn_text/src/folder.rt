//! Folders: where they lie, from the root or from where one stands.

ghost use Rattle.std.specs.Prelude.{◌≡◌, ◌<◌, length, IfOk};

use crate::route::Route;
use sn_base::Memory;
use std::alloc::Global;
use std::marker::Model;

/// Where a folder lies: from the root or from where one stands, by at least one name. Contracts see it
/// as the record `FolderPath` of `rooted` and `names`.
#[derive(Debug, Drop)]
pub struct Folder {
    rooted: bool,
    names: Route,
}

impl Model for Folder {
    ghost use Rattle.std.specs.Prelude.{◌<◌, length};
    ghost use Rattle.sn_text.specs.Folders.{FolderPath, folder_path_code};

    ghost Value = { FolderPath };

    ghost coded = { folder_path_code };

    ghost view = { λ a. record { rooted = a.rooted; names = a.names } };

    ghost invariant = { λ a. 0 < length a.names };
}

impl Folder {
    /// The folder that these names lead to, from the root where `rooted`.
    pub fn new(rooted: bool, names: Route) -> Folder
        requires { 0 < length names }
        ensures rooted { result.rooted ≡ rooted }
        ensures names { result.names ≡ names }
    {
        Folder { rooted, names }
    }

    /// Whether the path begins at the root, as one that begins with a slash.
    pub fn is_rooted(&self) -> bool
        ensures { result ≡ self.now.rooted }
    {
        self.rooted
    }

    /// The names that lead to the folder, of which there is at least one.
    pub fn route(&self) -> &Route
        ensures names { result.now ≡ self.now.names }
        ensures named { 0 < length self.now.names }
    {
        &self.names
    }

    /// The same path, in memory of its own.
    pub fn copy(&self, alloc: Global) -> Result<Folder, Memory>
        ensures { IfOk result (λ f. f ≡ self.now) }
    {
        Ok(Folder {
            rooted: self.rooted,
            names: self.names.copy(alloc)?,
        })
    }
}
