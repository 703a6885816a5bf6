//! The folders of the machine: what is granted, settled and buried.

ghost use Rattle.std.specs.Prelude.{◌≡◌, ◌++◌, [], string_bytes, true, IfOk, IfSome};
ghost use Rattle.sn_base.specs.Faults.{HasCause};
ghost use Rattle.host_node.specs.Faults.{host_failed};
ghost use Rattle.host_node.specs.declared.kind.Kind.TheVariants.{Dir as Directory};
ghost use Rattle.host_folder.specs.Paths.{slashed, path_start};

use crate::access::FileAccess;
use crate::failures::counted;
use crate::looks::is_directory;
use crate::node::FolderNode;
use crate::paths::{push_name, start};
use host_node::{HostErr, HostNode, HostWorld, Kind};
use sn_base::Memory;
use sn_text::{Folder, Name};
use std::fs;
use std::fs::Files;

/// The folders of the machine, by their paths from its root or from the working directory. It tells
/// nothing of what they hold.
#[derive(Drop)]
pub struct Folders<R: Files> {
    files: R,
    /// How many calls failed, at most 2 ^ 64 - 1.
    faults: u64,
    /// The counts of the nodes that were buried, in order.
    buried: Vec<u64>,
}

impl<R: Files + AllocGlobal + Clone + Drop> Folders<R> {
    /// The folders of a runtime, of which none is granted yet.
    pub fn new(files: R) -> Self
        ensures files { result.files ≡ files }
        ensures faults { result.faults ≡ 0 }
        ensures buried { result.buried.items ≡ [] }
    {
        let buried = Vec::new(files.alloc());
        Folders {
            files,
            faults: 0,
            buried,
        }
    }

    /// A node for the directory at a folder's path, or `None` where there is none. Each name on the way must be a
    /// directory too, since a link is not followed.
    fn directory(&self, folder: &Folder) -> Result<Option<FolderNode<R>>, HostErr>
        ensures kind { IfOk result (λ granted. IfSome granted (λ node. node.kind ≡ Directory)) }
        ensures access { IfOk result (λ granted. IfSome granted (λ node. node.access ≡ FileAccess.Shut)) }
        ensures folder { IfOk result (λ granted. IfSome granted (λ node.
            string_bytes node.folder ≡ path_start folder.now.rooted ++ slashed folder.now.names)) }
        ensures fresh { IfOk result (λ granted. IfSome granted (λ node. node.faults ≡ 0)) }
    {
        let mut path = start(self.files.alloc(), folder.is_rooted())?;
        if !are_directories(&self.files, &mut path, folder.route().names())? {
            return Ok(None);
        }
        Ok(Some(FolderNode::new(self.files.clone()?, path, Kind::Dir)))
    }
}

/// Adds names to a path up to the first that leads to no directory, and answers whether there is none such.
fn are_directories<R: Files>(files: &R, path: &mut String, names: &[Name]) -> Result<bool, HostErr>
    ensures { IfOk result (λ all. all ≡ true →
        string_bytes path.new ≡ string_bytes path.old ++ slashed names.now) }
{
    for name in names {
        push_name(path, name)?;
        if !is_directory(fs::symlink_metadata(files, path.as_str()))? {
            return Ok(false);
        }
    }
    Ok(true)
}

impl<R: Files + AllocGlobal + Clone + Drop + Send> HostWorld for Folders<R>
where
    R::File: Send,
{
    type Node = FolderNode<R>;

    ghost use Rattle.std.specs.Prelude.{None};

    ghost count = { λ world. world.faults };

    ghost told = { λ _. None };

    ghost buried = { λ world. world.buried.items };

    fn faults(&self) -> u64 {
        self.faults
    }

    fn grant(&mut self, folder: &Folder) -> Result<Option<FolderNode<R>>, HostErr>
        ensures directory { IfOk result (λ granted. IfSome granted (λ node. node.kind ≡ Directory)) }
        ensures shut { IfOk result (λ granted. IfSome granted (λ node. node.access ≡ FileAccess.Shut)) }
        ensures folder { IfOk result (λ granted. IfSome granted (λ node.
            string_bytes node.folder ≡ path_start folder.now.rooted ++ slashed folder.now.names)) }
        ensures fresh { IfOk result (λ granted. IfSome granted (λ node. node.faults ≡ 0)) }
        ensures faults { HasCause (host_failed result) self.old.faults self.new.faults }
        ensures buried { self.new.buried.items ≡ self.old.buried.items }
    {
        let answer = self.directory(folder);
        counted(&mut self.faults, answer)
    }

    fn settle(&mut self, _folder: &Folder, _node: FolderNode<R>) {}

    fn bury(&mut self, node: FolderNode<R>) -> Result<(), Memory> {
        self.buried.push(node.faults())?;
        Ok(())
    }
}
