//! An object of each kind, over which the cases of a block are done.

use crate::containers::{Containers, do_sum};
use crate::descriptions::do_description;
use crate::edges::Edges;
use crate::errors::do_error;
use crate::mounts::MountsOfBlock;
use crate::names::Names;
use crate::pipes::Pipes;
use crate::records::Records;
use crate::sleepers::Sleepers;
use crate::tables::Tables;
use crate::tasks::Family;
use read_cases::{Bad, Cases, parted};
use std::alloc::Global;

/// An object of each kind.
pub struct Objects {
    tables: Tables,
    pipes: Pipes,
    sleepers: Sleepers,
    family: Family,
    records: Records,
    names: Names,
    mounts: MountsOfBlock,
    edges: Edges,
    containers: Containers,
}

/// Lets all of it go by one call.
impl Drop for Objects {
    fn drop(self) {
        let Objects {
            tables: _,
            pipes: _,
            sleepers: _,
            family: _,
            records: _,
            names: _,
            mounts: _,
            edges: _,
            containers: _,
        } = self;
    }
}

impl Objects {
    /// An empty object of each kind.
    pub fn new(alloc: Global) -> Result<Objects, Bad> {
        let tables = Tables::new(alloc)?;
        let pipes = Pipes::new(alloc)?;
        let mounts = MountsOfBlock::new(alloc)?;
        Ok(Objects {
            tables,
            pipes,
            sleepers: Sleepers::new(alloc),
            family: Family::new(alloc),
            records: Records::new(alloc),
            names: Names::new(alloc),
            mounts,
            edges: Edges::new(alloc),
            containers: Containers::new(alloc),
        })
    }

    /// Does a case on the object of a word; whether it is one.
    fn is_done(
        &mut self,
        alloc: Global,
        object: &str,
        case: &str,
        came: &mut String,
    ) -> Result<bool, Bad> {
        match object {
            "table" => self.tables.do_table(alloc, case, came),
            "copy" => self.tables.do_copy(alloc, case, came),
            "pipe" => self.pipes.do_case(alloc, case, came),
            "futex" => self.sleepers.do_case(case, came),
            "tasks" => self.family.do_case(alloc, case, came),
            "record" => self.records.do_case(alloc, case, came),
            "name" | "path" | "route" | "folder" | "folder_here" | "text" => {
                self.names.do_case(alloc, object, case, came)
            }
            "source" => self.edges.do_source(alloc, case, came),
            "sink" => self.edges.do_sink(case, came),
            "mounts" => self.mounts.do_case(alloc, case, came),
            "errors" => do_error(case, came),
            _ => self.is_done_elsewhere(alloc, object, case, came),
        }
    }

    /// The same of containers and of what has no state.
    fn is_done_elsewhere(
        &mut self,
        alloc: Global,
        object: &str,
        case: &str,
        came: &mut String,
    ) -> Result<bool, Bad> {
        match object {
            "map" => self.containers.do_map(alloc, case, came),
            "list" => self.containers.do_list(alloc, case, came),
            "sum" => do_sum(case, came),
            _ => do_description(object, case, came),
        }
    }
}

impl Cases for Objects {
    fn begin(&mut self, rt: &HostRuntime) -> Result<(), Bad> {
        let alloc = rt.alloc();
        self.tables.begin(alloc)?;
        self.pipes.begin(alloc)?;
        self.sleepers = Sleepers::new(alloc);
        self.family = Family::new(alloc);
        self.records = Records::new(alloc);
        self.names = Names::new(alloc);
        self.mounts = MountsOfBlock::new(alloc)?;
        self.edges = Edges::new(alloc);
        self.containers = Containers::new(alloc);
        Ok(())
    }

    fn answer(&mut self, rt: &HostRuntime, case: &str, came: &mut String) -> Result<(), Bad> {
        let (object, rest) = parted(case);
        if !self.is_done(rt.alloc(), object, rest, came)? {
            came.clear();
            came.push_str("unread")?;
        }
        Ok(())
    }
}
