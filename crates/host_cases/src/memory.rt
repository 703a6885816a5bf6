//! The host in memory of which nothing stands with a borrower between cases.

ghost use Rattle.std.specs.Prelude.{◌≡◌, true};
ghost use Rattle.host_node.specs.Tree.{none_lent};

use crate::made::{Made, tree_of};
use crate::names::folder_of;
use crate::told::{tell_attr, tell_content};
use crate::visits;
use host_memory::{Op, PlanErr, PutErr, World};
use host_node::Tree;
use read_cases::{Bad, number, parted};
use sn_text::Folder;
use std::alloc::Global;
use std::marker::Model;

/// A host in memory. Contracts see it as `World` is seen.
#[derive(Drop)]
pub struct Memory {
    world: World,
}

impl Model for Memory {
    ghost use Rattle.std.specs.Prelude.{◌≡◌, true};
    ghost use Rattle.std.specs.Coded.{codes};
    ghost use Rattle.host_node.specs.laws.TreeCode.{coded_shape};
    ghost use Rattle.host_node.specs.Tree.{none_lent};
    ghost use Rattle.host_memory.specs.InMemory.{HostInMemory};

    ghost Value = { HostInMemory };

    ghost coded = { Prim.hlevel (codes, coded_shape) };

    ghost view = { λ a. a.world };

    ghost invariant = { λ a. none_lent a.world.tree ≡ true };
}

fn op_of(word: &str) -> Option<Op> {
    match word {
        "stat" => Some(Op::Stat),
        "list" => Some(Op::List),
        "lend" => Some(Op::Lend),
        "open" => Some(Op::Open),
        "read" => Some(Op::ReadAt),
        _ => None,
    }
}

fn tell_put(came: &mut String, done: Result<(), PutErr>) -> Result<(), Bad> {
    match done {
        Ok(()) => Ok(()),
        Err(PutErr::NoParent) => Ok(came.push_str("no parent")?),
        Err(PutErr::Taken) => Ok(came.push_str("taken")?),
        Err(PutErr::Memory) => Err(Bad::Memory),
    }
}

fn tell_planned(came: &mut String, done: Result<(), PlanErr>) -> Result<(), Bad> {
    match done {
        Ok(()) => Ok(()),
        Err(PlanErr::NoNode) => Ok(came.push_str("no node")?),
        Err(PlanErr::Memory) => Err(Bad::Memory),
    }
}

/// What stands in a tree: kind, permission bits, size, and what a file holds.
fn tell_tree(came: &mut String, tree: &Tree) -> Result<(), Bad> {
    tell_attr(came, &tree.attr())?;
    tell_content(came, tree.bytes())
}

impl Memory {
    /// A host with nothing in it.
    pub fn new(alloc: Global) -> Memory {
        Memory {
            world: World::new(alloc),
        }
    }

    #[tactic(auto, using(host_memory::proofs::Worlds::none_lent_put))]
    fn put(&mut self, alloc: Global, folder: &Folder, tree: Tree) -> Result<(), PutErr>
        requires { none_lent tree ≡ true }
    {
        self.world.put(alloc, folder, tree)
    }

    /// Puts a directory, a file or a link where a folder's names lead.
    pub fn make(
        &mut self,
        alloc: Global,
        folder: &Folder,
        made: Made<'_>,
        came: &mut String,
    ) -> Result<(), Bad> {
        let tree = tree_of(alloc, made)?;
        let done = self.put(alloc, folder, tree);
        tell_put(came, done)
    }

    fn plan(&mut self, folder: &Folder, op: Op, call: u64) -> Result<(), PlanErr> {
        self.world.plan(folder, op, call)
    }

    fn plan_grant(&mut self, call: u64) -> Result<(), Bad> {
        self.world.plan_grant(call)?;
        Ok(())
    }

    /// `fail PATH OP N`: the Nth call from now of that method of the node there is to fail; `fail grants N`: the Nth
    /// grant is.
    pub fn fail(&mut self, alloc: Global, words: &str, came: &mut String) -> Result<(), Bad> {
        let (path, rest) = parted(words);
        let (op, call) = parted(rest);
        if let ("grants", Some(call)) = (path, number(rest)) {
            return self.plan_grant(call);
        }
        let (Some(op), Some(call)) = (op_of(op), number(call)) else {
            return Ok(came.push_str("unread")?);
        };
        let folder = folder_of(alloc, path)?;
        let done = self.plan(&folder, op, call);
        tell_planned(came, done)
    }

    /// What stands where a folder's names lead.
    pub fn see(&self, folder: &Folder, came: &mut String) -> Result<(), Bad> {
        match self.world.look(folder) {
            Some(tree) => tell_tree(came, tree),
            None => Ok(came.push_str("nothing")?),
        }
    }

    /// How many calls failed of the node where a folder's names lead.
    pub fn met(&self, folder: &Folder, came: &mut String) -> Result<(), Bad> {
        match self.world.look(folder) {
            Some(tree) => Ok(write!(came, "{}", tree.faults())?),
            None => Ok(came.push_str("nothing")?),
        }
    }

    /// Does a case that leaves the host whole.
    pub fn ask(&mut self, rt: &HostRuntime, case: &str, came: &mut String) -> Result<(), Bad> {
        visits::ask(rt, &mut self.world, case, came)
    }

    /// Buries a folder's node. Then there is nothing in the host any more.
    pub fn bury(&mut self, rt: &HostRuntime, words: &str, came: &mut String) -> Result<(), Bad> {
        let done = visits::bury(rt, &mut self.world, words, came);
        self.world = World::new(rt.alloc());
        done
    }
}
