//! A host in memory: what is put and planned, granted and settled.

ghost use Rattle.std.specs.Prelude.{option_copied, option_map, ◌≡◌, ◌+◌, [], ◌∷◌, ◌++◌, true, false, Some, None, Ok};
ghost use Rattle.std.specs.Prelude.{is_some, if◌then◌else◌, IfOk, IfErr, IfSome, IfNone, OnOk, OnErr};
ghost use Rattle.std.specs.Bool.{OnTrue};
ghost use Rattle.host_node.specs.declared.kind.Kind.TheVariants.{Dir as Directory};
ghost use Rattle.host_node.specs.Faults.{host_failed};
ghost use Rattle.sn_base.specs.Faults.{Rose, HasCause};
ghost use Rattle.sn_base.specs.Sums.{capped};
ghost use Rattle.host_node.specs.Routes.{directory_at, subtree, put_subtree};
ghost use Rattle.host_node.specs.Told.{Closed as NotOpen, CanGrant, LacksFolder, TellsGranted, after_grant, CanSettle};
ghost use Rattle.host_node.specs.Tree.{directory as dir, lent, no_children, faults_of, kind_of};
ghost use Rattle.host_memory.specs.Access.{opened_as};
ghost use Rattle.host_memory.specs.InMemory.{granted_from};
ghost use Rattle.host_memory.specs.Places.{put_under, put_fault, IsPutFaultOf};
ghost use Rattle.host_memory.specs.Plans.{fails, after_call, lines_below, lines_beside, lines_after, FailsAsPlanned};
ghost use Rattle.host_memory.specs.Plans.{IsPlanFaultOf};
ghost use Rattle.host_memory.specs.declared.node.NodeAccess.TheVariants.{Closed as NotOpened};
ghost use Rattle.host_memory.specs.declared.places.PutErr.{PutErr as Fault};
ghost use Rattle.host_memory.specs.declared.plan.Op.TheVariants.{Lend};
ghost use Rattle.host_memory.specs.declared.plan.PlanErr.TheVariants.{NoNode};

use crate::node::MemoryNode;
use crate::places::{PutErr, look_at, put_at, swap_at};
use crate::plan::{Line, Op, Plan, PlanErr};
use host_node::{HostErr, HostNode, HostWorld, Kind, Tree};
use sn_base::{List, Memory, capped_add};
use sn_text::{Folder, Route};
use std::alloc::Global;
use std::marker::Model;

/// A host in memory. It tells its tree. Contracts see it as the record `HostInMemory` of `tree`, `failed`, `dead` and
/// `plan`.
pub struct World {
    alloc: Global,
    tree: Tree,
    failed: u64,
    dead: List<u64>,
    plan: Plan,
}

/// Lets all of it go. Who owns a host lets go of it by this one call, at each exit.
impl Drop for World {
    fn drop(self) {
        let World {
            alloc: _,
            tree: _,
            failed: _,
            dead: _,
            plan: _,
        } = self;
    }
}

impl Model for World {
    ghost use Rattle.std.specs.Coded.{codes};
    ghost use Rattle.host_node.specs.laws.TreeCode.{coded_shape};
    ghost use Rattle.host_memory.specs.InMemory.{HostInMemory};

    ghost Value = { HostInMemory };

    ghost coded = { Prim.hlevel (codes, coded_shape) };

    ghost view = { λ a. record { tree = a.tree; failed = a.failed; dead = a.dead; plan = a.plan } };
}

impl World {
    /// A host with an empty directory, of which no call is to fail. It takes no memory.
    pub fn new(alloc: Global) -> World
        ensures tree { result.tree ≡ dir 493 0 no_children }
        ensures count { result.failed ≡ 0 }
        ensures buried { result.dead ≡ [] }
        ensures plan { result.plan ≡ [] }
    {
        World {
            alloc,
            tree: Tree::directory(alloc, 0o755),
            failed: 0,
            dead: List::new(alloc),
            plan: Plan::new(),
        }
    }

    /// Puts a tree where a folder's names lead.
    pub fn put(&mut self, alloc: Global, folder: &Folder, tree: Tree) -> Result<(), PutErr>
        ensures ok { OnOk result (self.new ≡
            record self.old { tree = put_under folder.now.names tree self.old.tree }) }
        ensures possible { OnOk result (put_fault folder.now.names self.old.tree ≡ None) }
        ensures fault { IfErr result (IsPutFaultOf folder.now.names self.old.tree) }
        ensures faulty { (e : Fault) → put_fault folder.now.names self.old.tree ≡ Some e → result ≡ Err e }
        ensures err { OnErr result (self.new ≡ self.old) }
    {
        put_at(alloc, &mut self.tree, folder.route().names(), tree)
    }

    /// What stands where a folder's names lead, or `None`.
    pub fn look(&self, folder: &Folder) -> Option<&Tree>
        ensures { option_copied result ≡ subtree folder.now.names self.now.tree }
    {
        look_at(&self.tree, folder.route().names())
    }

    /// Plans that a call of a method of the node where a folder's names lead is to fail: the `k`-th from now,
    /// counted from 1; for 0 none is. The node keeps the plan when it is granted or lent, and gives it back
    /// with the calls that it has met. A plan for a node that stands with a borrower begins once that is back.
    pub fn plan(&mut self, folder: &Folder, op: Op, k: u64) -> Result<(), PlanErr>
        ensures ok { OnOk result (self.new ≡ record self.old {
          plan = record { place = folder.now.names; op = op; left = k } ∷ self.old.plan;
        }) }
        ensures fault { IfErr result (IsPlanFaultOf (subtree folder.now.names self.old.tree)) }
        ensures no_node { subtree folder.now.names self.old.tree ≡ None → result ≡ Err NoNode }
        ensures err { OnErr result (self.new ≡ self.old) }
    {
        if look_at(&self.tree, folder.route().names()).is_none() {
            return Err(PlanErr::NoNode);
        }
        let place = folder.route().copy(self.alloc)?;
        self.plan.add(self.alloc, Line { place, op, left: k })?;
        Ok(())
    }

    /// Plans that the `k`-th grant from now, counted from 1, is to fail; for 0 none is.
    pub fn plan_grant(&mut self, k: u64) -> Result<(), Memory>
        ensures ok { OnOk result (self.new ≡ record self.old {
          plan = record { place = []; op = Lend; left = k } ∷ self.old.plan;
        }) }
        ensures err { OnErr result (self.new ≡ self.old) }
    {
        let line = Line {
            place: Route::new(self.alloc),
            op: Op::Lend,
            left: k,
        };
        self.plan.add(self.alloc, line)
    }

    /// Counts a grant, and answers whether it is to fail. If so, it counts a failed call too.
    fn meets_grant(&mut self) -> bool
        ensures planned { result ≡ fails [] Lend self.old.plan }
        ensures rose { OnTrue result (Rose self.old.failed self.new.failed) }
        ensures failed { self.new.failed ≡ (if result then capped (self.old.failed + 1) else self.old.failed) }
        ensures tree { self.new.tree ≡ self.old.tree }
        ensures dead { self.new.dead ≡ self.old.dead }
        ensures plan { self.new.plan ≡ after_call [] Lend self.old.plan }
    {
        let planned = self.plan.meet(&Route::new(self.alloc), Op::Lend);
        if planned {
            self.failed = capped_add(self.failed, 1);
        }
        planned
    }

    /// Whether there is a directory where a folder's names lead.
    fn has_directory(&self, folder: &Folder) -> bool
        ensures { result ≡ is_some (directory_at folder.now.names self.now.tree) }
    {
        match self.look(folder) {
            Some(tree) => tree.is_directory(),
            None => false,
        }
    }

    /// Lends the directory that is in a place. It takes no memory.
    fn lend_at(&mut self, place: Route) -> MemoryNode
        requires free { CanGrant place (Some self.old.tree) }
        requires there { is_some (directory_at place self.old.tree) ≡ true }
        ensures directory { directory_at place self.old.tree ≡ Some result.tree }
        ensures kind { kind_of result.tree ≡ Directory }
        ensures access { result.access ≡ NotOpened }
        ensures place { result.place ≡ place }
        ensures plan { result.plan ≡ lines_below place self.old.plan }
        ensures after { self.new ≡ record self.old {
          tree = put_subtree place (lent Directory) self.old.tree;
          plan = lines_beside place self.old.plan;
        } }
    {
        let tree = swap_at(&mut self.tree, place.names(), Tree::lent(Kind::Dir));
        let plan = self.plan.take_below(&place);
        MemoryNode::new(self.alloc, tree, place, plan)
    }
}

impl HostWorld for World {
    type Node = MemoryNode;

    ghost count = { λ w. w.failed };

    ghost told = { λ w. Some w.tree };

    ghost buried = { λ w. w.dead };

    fn faults(&self) -> u64 {
        self.failed
    }

    fn grant(&mut self, folder: &Folder) -> Result<Option<MemoryNode>, HostErr>
        requires { CanGrant folder.now.names (Some self.old.tree) }
        ensures none { IfOk result (λ granted. IfNone granted
            (LacksFolder folder.now.names (Some self.old.tree))) }
        ensures node { IfOk result (λ granted. IfSome granted (λ node.
            TellsGranted folder.now.names (Some self.old.tree)
            (Some node.tree) (faults_of node.tree) (kind_of node.tree))) }
        ensures directory { IfOk result (λ granted. IfSome granted (λ node. kind_of node.tree ≡ Directory)) }
        ensures closed { IfOk result (λ granted. IfSome granted (λ node. opened_as node.access ≡ NotOpen)) }
        ensures faults { HasCause (host_failed result) self.old.failed self.new.failed }
        ensures tells { Some self.new.tree ≡ after_grant result folder.now.names (Some self.old.tree) }
        ensures buried { self.new.dead ≡ self.old.dead }
        ensures planned { FailsAsPlanned (fails [] Lend self.old.plan) result self.old.failed self.new.failed }
        ensures plan { self.new.plan ≡ lines_after result folder.now.names (after_call [] Lend self.old.plan) }
        ensures node_plan { IfOk result (λ granted. IfSome granted (λ node.
            node.plan ≡ lines_below folder.now.names (after_call [] Lend self.old.plan))) }
        ensures node_place { IfOk result (λ granted. IfSome granted (λ node. node.place ≡ folder.now.names)) }
        ensures granted { IfOk result (λ granted. IfSome granted (λ node. Some node ≡
            option_map (granted_from self.old folder.now.names) (directory_at folder.now.names self.old.tree))) }
        ensures lacks { directory_at folder.now.names self.old.tree ≡ None →
            fails [] Lend self.old.plan ≡ false → result ≡ Ok None }
    {
        if self.meets_grant() {
            return Err(HostErr::Failed);
        }
        if !self.has_directory(folder) {
            return Ok(None);
        }
        let place = folder.route().copy(self.alloc)?;
        Ok(Some(self.lend_at(place)))
    }

    fn settle(&mut self, folder: &Folder, node: MemoryNode)
        requires { CanSettle folder.now.names (Some self.old.tree) }
        ensures after { self.new ≡ record self.old {
          tree = put_subtree folder.now.names node.tree self.old.tree;
          plan = self.old.plan ++ node.plan;
        } }
    {
        let (tree, plan) = node.into_parts();
        swap_at(&mut self.tree, folder.route().names(), tree);
        self.plan.join(plan);
    }

    fn bury(&mut self, node: MemoryNode) -> Result<(), Memory>
        ensures ok { OnOk result (self.new ≡ record self.old { dead = self.old.dead ++ faults_of node.tree ∷ [] }) }
        ensures err { OnErr result (self.new ≡ self.old) }
    {
        self.dead.push(node.faults())
    }
}
