//! Nodes that a test holds, and what is asked of them, with what is expected of each: tests are tables of these.

use crate::routes::{folder, name};
use host_folder::{FolderNode, Folders};
use host_node::{Attr, HostErr, HostNode, HostWorld, Kind, Listed, Listing};
use sn_text::{Folder, Name, Route, name_of};
use std::alloc::Global;
use std::fs::Files;
use std::test::Fail;

/// An entry of a directory: its name and its kind.
pub type Entry = (&'static str, Kind);

/// What is asked of a node, with what is expected of it last.
#[derive(Clone, Copy)]
pub enum Ask {
    /// What it is.
    Is(Kind),
    /// How many of its calls failed.
    Faults(u64),
    /// What a `stat` answers.
    Stats(Result<Attr, HostErr>),
    /// What an `open` answers, for reading alone, or for writing too.
    Opens(bool, Result<(), HostErr>),
    /// What a read at an offset into so many zeros answers: the bytes that are there then, before the zeros.
    Reads(u64, usize, Result<&'static [u8], HostErr>),
    /// What a listing answers, and what it lists.
    Lists(Result<(), HostErr>, &'static [Entry]),
    /// A node of that kind is lent under a name.
    Lends(&'static str, Kind),
    /// Nothing is lent under a name.
    Nothing(&'static str),
    /// To lend what stands under a name is refused so.
    Refuses(&'static [u8], HostErr),
}

/// What is asked of a granted directory, or of what stands under a name of it.
pub type Row = (Option<&'static str>, &'static [Ask]);

/// A node, and the route that leads to it below the granted folder.
#[derive(Drop)]
pub struct Held<R: Files> {
    pub node: FolderNode<R>,
    pub route: Route,
    pub alloc: Global,
}

/// The directory of a folder, which must be there.
pub fn granted_for<R: Files + AllocGlobal + Clone + Drop + Send>(
    world: &mut Folders<R>,
    alloc: Global,
    folder: &Folder,
) -> Result<Held<R>, Fail>
where
    R::File: Send,
{
    let node = world.grant(folder)?.ok_or("the folder")?;
    let route = Route::new(alloc);
    Ok(Held { node, route, alloc })
}

/// Whether a folder is granted.
pub fn is_granted<R: Files + AllocGlobal + Clone + Drop + Send>(
    world: &mut Folders<R>,
    folder: &Folder,
) -> Result<bool, HostErr>
where
    R::File: Send,
{
    Ok(world.grant(folder)?.is_some())
}

/// The directory at a path, which must be there.
pub fn granted<R: Files + AllocGlobal + Clone + Drop + Send>(
    world: &mut Folders<R>,
    alloc: Global,
    path: &str,
) -> Result<Held<R>, Fail>
where
    R::File: Send,
{
    let folder = folder(alloc, path)?;
    granted_for(world, alloc, &folder)
}

/// The same of a new host over these files.
pub fn granted_by<R: Files + AllocGlobal + Clone + Drop + Send>(
    files: R,
    path: &str,
) -> Result<Held<R>, Fail>
where
    R::File: Send,
{
    let alloc = files.alloc();
    let mut world = Folders::new(files);
    granted(&mut world, alloc, path)
}

/// That these rows are so of it.
pub fn expect_by<R: Files + AllocGlobal + Clone + Drop + Send>(
    files: R,
    path: &str,
    rows: &[Row],
) -> Result<(), Fail>
where
    R::File: Send,
{
    let mut root = granted_by(files, path)?;
    root.expect_rows(rows)
}

impl<R: Files + AllocGlobal + Clone + Drop + Send> Held<R>
where
    R::File: Send,
{
    /// What stands under a name of the directory, which must be there.
    pub fn lent(&mut self, text: &str) -> Result<Held<R>, Fail> {
        let name = name(self.alloc, text)?;
        self.lent_for(&name)
    }

    fn lent_for(&mut self, name: &Name) -> Result<Held<R>, Fail> {
        let alloc = self.alloc;
        let node = self.node.lend(&self.route, name)?.ok_or("the node")?;
        let route = self.route_of(name)?;
        Ok(Held { node, route, alloc })
    }

    /// The route that leads to a name of the directory.
    fn route_of(&self, name: &Name) -> Result<Route, Fail> {
        let mut route = self.route.copy(self.alloc)?;
        route.push(name.copy(self.alloc)?)?;
        Ok(route)
    }

    /// The kind of what is lent under a name, or how that is refused.
    fn kind_for(&mut self, name: &Name) -> Result<Option<Kind>, HostErr> {
        match self.node.lend(&self.route, name)? {
            Some(child) => Ok(Some(child.kind())),
            None => Ok(None),
        }
    }

    /// Whether lending what stands under a name gives a node of that kind, or none, or is refused so.
    fn lends(&mut self, bytes: &[u8], wanted: Result<Option<Kind>, HostErr>) -> Result<bool, Fail> {
        let name = name_of(self.alloc, bytes)?;
        Ok(self.kind_for(&name) == wanted)
    }

    /// Whether a read answers that.
    fn reads(
        &mut self,
        at: u64,
        count: usize,
        wanted: Result<&'static [u8], HostErr>,
    ) -> Result<bool, Fail> {
        let mut buf = vec![in self.alloc; 0u8; count]?;
        let told = self.node.read_at(at, buf.as_mut_slice());
        match (told, wanted) {
            (Ok(length), Ok(bytes)) => Ok(length == bytes.len() && holds(buf.as_slice(), bytes)),
            (Err(found), Err(error)) => Ok(found == error),
            _ => Ok(false),
        }
    }

    /// Whether a listing answers that, and lists these entries.
    fn lists(&mut self, wanted: Result<(), HostErr>, entries: &[Entry]) -> Result<bool, Fail> {
        let mut out = Listing::new(self.alloc);
        let told = self.node.list(&self.route, &mut out);
        Ok(told == wanted && has_entries(&out, entries))
    }

    /// Asks that, and answers whether it comes to what is expected.
    fn does(&mut self, ask: Ask) -> Result<bool, Fail> {
        match ask {
            Ask::Is(kind) => Ok(self.node.kind() == kind),
            Ask::Faults(count) => Ok(self.node.faults() == count),
            Ask::Stats(wanted) => Ok(self.node.stat(&self.route) == wanted),
            Ask::Opens(write, wanted) => Ok(self.node.open(&self.route, write) == wanted),
            Ask::Reads(at, count, wanted) => self.reads(at, count, wanted),
            Ask::Lists(wanted, entries) => self.lists(wanted, entries),
            Ask::Lends(text, kind) => self.lends(text.as_bytes(), Ok(Some(kind))),
            Ask::Nothing(text) => self.lends(text.as_bytes(), Ok(None)),
            Ask::Refuses(bytes, wanted) => self.lends(bytes, Err(wanted)),
        }
    }

    /// That each of these comes to what is expected, one after another.
    pub fn expect(&mut self, asks: &[Ask]) -> Result<(), Fail> {
        for (index, ask) in asks.iter().enumerate() {
            if !self.does(*ask)? {
                return Err(Fail::new(format_args!("ask {index}")));
            }
        }
        Ok(())
    }

    /// The same of a row.
    fn expect_row(&mut self, (name, asks): Row) -> Result<(), Fail> {
        match name {
            Some(name) => self.lent(name)?.expect(asks),
            None => self.expect(asks),
        }
    }

    /// The same of each of these rows.
    pub fn expect_rows(&mut self, rows: &[Row]) -> Result<(), Fail> {
        for row in rows {
            self.expect_row(*row)?;
        }
        Ok(())
    }

    /// Takes back what was lent under a name.
    pub fn take_back(&mut self, text: &str, child: Held<R>) -> Result<(), Fail> {
        let Held { node, .. } = child;
        let name = name(self.alloc, text)?;
        self.node.take_back(&name, node);
        Ok(())
    }
}

/// Whether a buffer has these bytes, and zeros behind them.
fn holds(buf: &[u8], bytes: &[u8]) -> bool {
    for (index, byte) in buf.iter().enumerate() {
        if *byte != bytes.get(index).copied().unwrap_or(0) {
            return false;
        }
    }
    true
}

/// Whether a listing has these entries.
fn has_entries(listing: &Listing, wanted: &[Entry]) -> bool {
    if listing.len() != wanted.len() {
        return false;
    }
    for (entry, found) in wanted.iter().zip(listing.entries()) {
        if !is_entry(found, entry) {
            return false;
        }
    }
    true
}

fn is_entry(found: &Listed, (name, kind): &Entry) -> bool {
    found.name.is(name.as_bytes()) && found.kind == *kind
}
