//! Directories, files and links of a granted folder, and their calls.

ghost use Rattle.std.specs.Prelude.{◌≡◌, ◌≢◌, ◌≤◌, ◌∷◌, ◌++◌, [], length, string_bytes};
ghost use Rattle.std.specs.Prelude.{All, IfOk, IfErr, IfSome, OnOk, OnErr, IsOk, IsNone, IsOkUnless, IsOkAnd, IsErrAnd};
ghost use Rattle.std.specs.Prelude.{option_map, true, IsUtf8};
ghost use Rattle.std.specs.Fs.{new_options, with_read, with_write};
ghost use Rattle.std.specs.IoError.{error_kind};
ghost use Rattle.sn_base.specs.Faults.{HasCause};
ghost use Rattle.host_node.specs.Faults.{host_failed};
ghost use Rattle.host_node.specs.Order.{IsAscending, names_of};
ghost use Rattle.host_node.specs.Told.{told_after_open, told_opened};
ghost use Rattle.sn_text.specs.Names.{IsName};
ghost use Rattle.host_folder.specs.Access.{file_of, opened_by};
ghost use Rattle.host_folder.specs.Failures.{IsRefusalOf};
ghost use Rattle.host_folder.specs.Kinds.{CanOpenKind, IsKindOf, IsOfKind, attr_by};
ghost use Rattle.host_folder.specs.Offsets.{ReadsOpened};
ghost use Rattle.host_folder.specs.Paths.{slashed};

use crate::access::FileAccess;
use crate::entries::list;
use crate::failures::{answer_from, counted};
use crate::looks::{attr_from, child_kind, same_kind};
use crate::paths::{path_of, push_name};
use crate::reading::read_from;
use host_node::{Attr, HostErr, HostNode, Kind, Listing};
use sn_base::Memory;
use sn_text::{Name, Route};
use std::fs::{Files, Metadata, OpenOptions};
use std::io::ErrorKind;
use std::{fs, io};

/// A directory, a file or a link in a granted folder of the machine. It tells nothing.
///
/// It knows the path of its folder, and finds its file below that by the route of each call. A file that is no
/// longer of the node's kind is a failure of the call, as is a name that isn't UTF-8.
pub struct FolderNode<R: Files> {
    files: R,
    /// The path of the folder that was granted. It never changes.
    folder: String,
    kind: Kind,
    access: FileAccess<R::File>,
    /// How many calls failed, at most 2 ^ 64 - 1.
    faults: u64,
}

/// Lets all of it go. Who owns a node lets go of it by this one call, at each exit.
impl<R: Files + Drop> Drop for FolderNode<R> {
    fn drop(self) {
        let FolderNode {
            files: _,
            folder: _,
            kind: _,
            access: _,
            faults: _,
        } = self;
    }
}

impl<R: Files + AllocGlobal + Clone + Drop> FolderNode<R> {
    /// A node in the folder at a path, of which no call failed yet.
    pub(crate) fn new(files: R, folder: String, kind: Kind) -> Self
        ensures { result
            ≡ record { files = files; folder = folder; kind = kind; access = FileAccess.Shut; faults = 0 } }
    {
        FolderNode {
            files,
            folder,
            kind,
            access: FileAccess::Shut,
            faults: 0,
        }
    }

    /// The path of the node that a route leads to.
    fn path(&self, route: &Route) -> Result<String, HostErr>
        ensures ok { IfOk result (λ path. string_bytes path ≡ string_bytes self.now.folder ++ slashed route.now) }
        ensures text { OnOk result (All IsUtf8 route.now) }
        ensures memory { All IsUtf8 route.now → IsOkUnless result HostErr.Memory }
    {
        path_of(self.files.alloc(), self.folder.as_str(), route)
    }

    /// The path of a directory. Another node has nothing under it.
    fn directory_path(&self, route: &Route) -> Result<String, HostErr>
        ensures ok { IfOk result (λ path. string_bytes path ≡ string_bytes self.now.folder ++ slashed route.now) }
        ensures memory { self.now.kind ≡ Kind.Dir → All IsUtf8 route.now → IsOkUnless result HostErr.Memory }
        ensures text { OnOk result (All IsUtf8 route.now) }
        ensures directory { OnOk result (self.now.kind ≡ Kind.Dir) }
        ensures err { self.now.kind ≢ Kind.Dir → result ≡ Err HostErr.Failed }
    {
        if self.kind != Kind::Dir {
            return Err(HostErr::Failed);
        }
        self.path(route)
    }

    /// The path of what stands under a name of the directory.
    fn child_path(&self, route: &Route, name: &Name) -> Result<String, HostErr>
        ensures ok { IfOk result (λ path.
            string_bytes path ≡ string_bytes self.now.folder ++ slashed (route.now ++ name.now ∷ [])) }
        ensures text { OnOk result (All IsUtf8 (route.now ++ name.now ∷ [])) }
        ensures directory { OnOk result (self.now.kind ≡ Kind.Dir) }
        ensures err { self.now.kind ≢ Kind.Dir → result ≡ Err HostErr.Failed }
    {
        let mut path = self.directory_path(route)?;
        push_name(&mut path, name)?;
        Ok(path)
    }

    /// What stands at the node's path, which must be of its kind. A link is not followed.
    fn look(&self, path: &str) -> Result<Metadata, HostErr>
        ensures { IfOk result (IsOfKind self.now.kind) }
    {
        same_kind(fs::symlink_metadata(&self.files, path), self.kind)
    }

    /// What the system tells of the node (lstat(2)).
    fn attr(&self, route: &Route) -> Result<Attr, HostErr>
        ensures mode { IfOk result (λ attr. attr.mode ≤ 511) }
        ensures kind { IfOk result (λ attr. attr.kind ≡ self.now.kind) }
        ensures attr { IfOk result (λ attr. attr ≡ attr_by self.now.kind attr.size) }
        ensures text { OnOk result (All IsUtf8 route.now) }
    {
        let path = self.path(route)?;
        attr_from(fs::symlink_metadata(&self.files, path.as_str()), self.kind)
    }

    /// What the system lists in the directory (readdir(3)).
    fn listing(&self, route: &Route) -> Result<Listing, HostErr>
        ensures ordered { IfOk result (λ listing. IsAscending (names_of listing)) }
        ensures names { IfOk result (All (λ entry. IsName entry.name)) }
        ensures directory { self.now.kind ≢ Kind.Dir → result ≡ Err HostErr.Failed }
        ensures text { OnOk result (All IsUtf8 route.now) }
    {
        let path = self.directory_path(route)?;
        self.look(path.as_str())?;
        list(&self.files, path.as_str())
    }

    /// A node for what stands under a name of the directory, or `None` where nothing does that is for us.
    fn child(&self, route: &Route, name: &Name) -> Result<Option<Self>, HostErr>
        ensures access { IfOk result (λ lent. IfSome lent (λ node. node.access ≡ FileAccess.Shut)) }
        ensures folder { IfOk result (λ lent. IfSome lent (λ node.
            string_bytes node.folder ≡ string_bytes self.now.folder)) }
        ensures fresh { IfOk result (λ lent. IfSome lent (λ node. node.faults ≡ 0)) }
        ensures directory { self.now.kind ≢ Kind.Dir → result ≡ Err HostErr.Failed }
        ensures text { OnOk result (All IsUtf8 (route.now ++ name.now ∷ [])) }
    {
        let path = self.child_path(route, name)?;
        self.child_from(fs::symlink_metadata(&self.files, path.as_str()))
    }

    /// What is lent of the directory, from what a look at the child tells.
    fn child_from(&self, found: io::Result<Metadata>) -> Result<Option<Self>, HostErr>
        ensures kind { IfOk found (λ metadata. IfOk result (λ lent.
            IsKindOf metadata (option_map (λ node. node.kind) lent))) }
        ensures memory { IsOk found → IsOkUnless result HostErr.Memory }
        ensures absent { IfErr found (λ error. error_kind error ≡ ErrorKind.NotFound → result ≡ Ok None) }
        ensures refused { IfErr found (λ error.
            error_kind error ≢ ErrorKind.NotFound → IsErrAnd result (IsRefusalOf error)) }
        ensures access { IfOk result (λ lent. IfSome lent (λ node. node.access ≡ FileAccess.Shut)) }
        ensures folder { IfOk result (λ lent. IfSome lent (λ node.
            string_bytes node.folder ≡ string_bytes self.now.folder)) }
        ensures fresh { IfOk result (λ lent. IfSome lent (λ node. node.faults ≡ 0)) }
    {
        match child_kind(found)? {
            Some(kind) => Ok(Some(self.sibling(kind)?)),
            None => Ok(None),
        }
    }

    /// A node of a kind in the same folder. It is refused for want of memory alone.
    fn sibling(&self, kind: Kind) -> Result<Self, Memory>
        ensures kind { IfOk result (λ node. node.kind ≡ kind) }
        ensures access { IfOk result (λ node. node.access ≡ FileAccess.Shut) }
        ensures folder { IfOk result (λ node. string_bytes node.folder ≡ string_bytes self.now.folder) }
        ensures fresh { IfOk result (λ node. node.faults ≡ 0) }
    {
        let folder = String::from_str(self.files.alloc(), self.folder.as_str())?;
        Ok(FolderNode::new(self.files.clone()?, folder, kind))
    }

    /// How the node stands to its file once it is opened (open(2)). A link is not to be opened, and a directory
    /// not to be written.
    fn accessed(&self, route: &Route, write: bool) -> Result<FileAccess<R::File>, HostErr>
        ensures access { IfOk result (λ access. opened_by access ≡ told_opened write) }
        ensures kind { OnOk result (CanOpenKind self.now.kind write) }
        ensures text { OnOk result (All IsUtf8 route.now) }
    {
        let path = self.path(route)?;
        self.look(path.as_str())?;
        match self.kind {
            Kind::Dir if !write => Ok(FileAccess::Listable),
            Kind::File => open_file(&self.files, path.as_str(), write),
            _ => Err(HostErr::Failed),
        }
    }

    /// What the file has from an offset on. A node that isn't open as a file has nothing to be read.
    fn bytes_at(&mut self, at: u64, buf: &mut [u8]) -> Result<usize, HostErr>
        ensures within { IfOk result (λ n. n ≤ length buf.old) }
        ensures bytes { IfOk result (λ n. ReadsOpened R.File.stream_position R.File.remaining at
            (file_of self.old.access) (file_of self.new.access) n buf.new) }
        ensures shut { IsNone (file_of self.old.access) → result ≡ Err HostErr.Failed }
        ensures opened { opened_by self.new.access ≡ opened_by self.old.access }
        ensures kind { self.new.kind ≡ self.old.kind }
        ensures faults { self.new.faults ≡ self.old.faults }
        ensures folder { self.new.folder ≡ self.old.folder }
    {
        match &mut self.access {
            FileAccess::Readable(file) => answer_from(read_from(file, at, buf)),
            FileAccess::Writable(file) => answer_from(read_from(file, at, buf)),
            FileAccess::Shut | FileAccess::Listable => Err(HostErr::Failed),
        }
    }
}

/// How a file is opened: for reading, or for reading and writing. It is never made, cut off or appended to.
fn options(write: bool) -> OpenOptions
    ensures { result ≡ with_write (with_read new_options true) write }
{
    let mut options = OpenOptions::new();
    options.read(true).write(write);
    options
}

/// Opens a file for reading, or for reading and writing.
fn open_file<R: Files>(files: &R, path: &str, write: bool) -> Result<FileAccess<R::File>, HostErr>
    ensures { IfOk result (λ access. opened_by access ≡ told_opened write) }
{
    access_from(options(write).open(files, path), write)
}

/// How a node stands to a file, from what opening it for reading, or for reading and writing, came to.
fn access_from<F: Drop>(opened: io::Result<F>, write: bool) -> Result<FileAccess<F>, HostErr>
    ensures file { IfOk opened (λ file. IsOkAnd result (λ access. file_of access ≡ Some file)) }
    ensures access { IfOk result (λ access. opened_by access ≡ told_opened write) }
    ensures refused { IfErr opened (λ error. IsErrAnd result (IsRefusalOf error)) }
{
    let file = answer_from(opened)?;
    if write {
        Ok(FileAccess::Writable(file))
    } else {
        Ok(FileAccess::Readable(file))
    }
}

impl<R: Files + AllocGlobal + Clone + Drop + Send> HostNode for FolderNode<R>
where
    R::File: Send,
{
    ghost use Rattle.std.specs.Prelude.{None};

    ghost count = { λ node. node.faults };

    ghost told = { λ _. None };

    ghost what = { λ node. node.kind };

    ghost opened = { λ node. opened_by node.access };

    fn faults(&self) -> u64 {
        self.faults
    }

    fn kind(&self) -> Kind {
        self.kind
    }

    fn stat(&mut self, route: &Route) -> Result<Attr, HostErr>
        ensures attr { IfOk result (λ attr. attr ≡ attr_by self.old.kind attr.size) }
        ensures mode { IfOk result (λ attr. attr.mode ≤ 511) }
        ensures node { IfOk result (λ attr. attr.kind ≡ self.old.kind) }
        ensures text { OnOk result (All IsUtf8 route.now) }
        ensures access { self.new.access ≡ self.old.access }
        ensures faults { HasCause (host_failed result) self.old.faults self.new.faults }
        ensures folder { self.new.folder ≡ self.old.folder }
        ensures kind { self.new.kind ≡ self.old.kind }
    {
        let answer = self.attr(route);
        counted(&mut self.faults, answer)
    }

    fn list(&mut self, route: &Route, out: &mut Listing) -> Result<(), HostErr>
        ensures ordered { OnOk result (IsAscending (names_of out.new)) }
        ensures names { OnOk result (All (λ entry. IsName entry.name) out.new) }
        ensures err { OnErr result (out.new ≡ out.old) }
        ensures directory { self.old.kind ≢ Kind.Dir → result ≡ Err HostErr.Failed }
        ensures text { OnOk result (All IsUtf8 route.now) }
        ensures access { self.new.access ≡ self.old.access }
        ensures faults { HasCause (host_failed result) self.old.faults self.new.faults }
        ensures folder { self.new.folder ≡ self.old.folder }
        ensures kind { self.new.kind ≡ self.old.kind }
    {
        let answer = self.listing(route);
        *out = counted(&mut self.faults, answer)?;
        Ok(())
    }

    fn lend(&mut self, route: &Route, name: &Name) -> Result<Option<Self>, HostErr>
        ensures shut { IfOk result (λ lent. IfSome lent (λ node. node.access ≡ FileAccess.Shut)) }
        ensures fresh { IfOk result (λ lent. IfSome lent (λ node. node.faults ≡ 0)) }
        ensures below { IfOk result (λ lent. IfSome lent (λ node.
            string_bytes node.folder ≡ string_bytes self.old.folder)) }
        ensures directory { self.old.kind ≢ Kind.Dir → result ≡ Err HostErr.Failed }
        ensures text { OnOk result (All IsUtf8 (route.now ++ name.now ∷ [])) }
        ensures access { self.new.access ≡ self.old.access }
        ensures faults { HasCause (host_failed result) self.old.faults self.new.faults }
        ensures folder { self.new.folder ≡ self.old.folder }
        ensures kind { self.new.kind ≡ self.old.kind }
    {
        let answer = self.child(route, name);
        counted(&mut self.faults, answer)
    }

    fn open(&mut self, route: &Route, write: bool) -> Result<(), HostErr>
        ensures opened { opened_by self.new.access ≡ told_after_open result write (opened_by self.old.access) }
        ensures err { OnErr result (self.new.access ≡ self.old.access) }
        ensures can_open { OnOk result (CanOpenKind self.old.kind write) }
        ensures text { OnOk result (All IsUtf8 route.now) }
        ensures faults { HasCause (host_failed result) self.old.faults self.new.faults }
        ensures folder { self.new.folder ≡ self.old.folder }
        ensures kind { self.new.kind ≡ self.old.kind }
    {
        let answer = self.accessed(route, write);
        self.access = counted(&mut self.faults, answer)?;
        Ok(())
    }

    fn read_at(&mut self, at: u64, buf: &mut [u8]) -> Result<usize, HostErr>
        ensures within { IfOk result (λ n. n ≤ length buf.old) }
        // What the file gives is handed on, as far as the runtime knows what its files hold.
        ensures bytes { IfOk result (λ n. ReadsOpened R.File.stream_position R.File.remaining at
            (file_of self.old.access) (file_of self.new.access) n buf.new) }
        ensures shut { IsNone (file_of self.old.access) → result ≡ Err HostErr.Failed }
        ensures opened { opened_by self.new.access ≡ opened_by self.old.access }
        ensures faults { HasCause (host_failed result) self.old.faults self.new.faults }
        ensures folder { self.new.folder ≡ self.old.folder }
        ensures kind { self.new.kind ≡ self.old.kind }
    {
        let answer = self.bytes_at(at, buf);
        counted(&mut self.faults, answer)
    }

    fn take_back(&mut self, _name: &Name, _node: Self) {}

    ghost tells_itself = { λ _. tt };
}
