//! Nodes of a host in memory, and their calls.

ghost use Rattle.std.specs.Prelude.{◌≡◌, ◌≤◌, ◌++◌, ◌-◌, false, Some, None, Ok, Err, length, min, option_map};
ghost use Rattle.std.specs.Prelude.{if◌then◌else◌, IfOk, IfSome, IfNone, OnOk, OnErr};
ghost use Rattle.std.specs.Bool.{OnTrue};
ghost use Rattle.host_node.specs.declared.error.HostErr.TheVariants.{Failed};
ghost use Rattle.host_node.specs.Faults.{host_failed};
ghost use Rattle.sn_base.specs.Faults.{Rose, HasCause};
ghost use Rattle.host_node.specs.Order.{IsAscending, names_of};
ghost use Rattle.host_node.specs.Told.{Closed as NotOpen, told_after_open, kept, TellsAttr, CanList, TellsListing, CanLend};
ghost use Rattle.host_node.specs.Told.{LacksChild, TellsLent, after_lend, CanOpen, CanRead, ReadsAt, CanTakeBack};
ghost use Rattle.host_node.specs.Told.{TakesBack};
ghost use Rattle.host_node.specs.Tree.{attr_of, file_bytes, child_of, faults_of, kind_of, is_lent};
ghost use Rattle.host_memory.specs.Access.{opened_as};
ghost use Rattle.host_memory.specs.InMemory.{is_to_fail, after_call_of, after_open_of, lent_below, after_lend_of};
ghost use Rattle.host_memory.specs.InMemory.{with_back};
ghost use Rattle.host_memory.specs.Plans.{fails, after_call, lines_below, lines_after, place_below, failed_once};
ghost use Rattle.host_memory.specs.Plans.{FailsAsPlanned};
ghost use Rattle.host_memory.specs.declared.node.NodeAccess.TheVariants.{Closed as NotOpened};
ghost use Rattle.host_memory.specs.declared.plan.Op.TheVariants.{Stat, List as Listed, Lend, Open, ReadAt};

use crate::plan::{Op, Plan};
use crate::reading::copy_from;
use host_node::{Attr, HostErr, HostNode, Kind, Listing, Tree};
use sn_base::Memory;
use sn_text::{Name, Route};
use std::alloc::Global;
use std::marker::Model;

/// How a node stands to its file (open(2)).
#[derive(Clone, Copy, Debug, PartialEq, Eq)]
pub enum NodeAccess {
    /// Not opened.
    Closed,
    /// Opened for reading.
    Reading,
    /// Opened for reading and writing.
    Writing,
}

/// A node of a host in memory. It tells its tree. Contracts see it as the record `NodeInMemory` of `tree`, `access`,
/// `place` and `plan`.
pub struct MemoryNode {
    alloc: Global,
    tree: Tree,
    access: NodeAccess,
    place: Route,
    plan: Plan,
}

/// Lets all of it go. Who owns a node lets go of it by this one call, at each exit.
impl Drop for MemoryNode {
    fn drop(self) {
        let MemoryNode {
            alloc: _,
            tree: _,
            access: _,
            place: _,
            plan: _,
        } = self;
    }
}

impl Model for MemoryNode {
    ghost use Rattle.std.specs.Prelude.{◌≡◌, false};
    ghost use Rattle.host_node.specs.Tree.{is_lent};
    ghost use Rattle.std.specs.Coded.{codes};
    ghost use Rattle.host_node.specs.laws.TreeCode.{coded_shape};
    ghost use Rattle.host_memory.specs.InMemory.{NodeInMemory};

    ghost Value = { NodeInMemory };

    ghost coded = { Prim.hlevel (codes, coded_shape) };

    ghost view = { λ a. record { tree = a.tree; access = a.access; place = a.place; plan = a.plan } };

    ghost invariant = { λ a. is_lent a.tree ≡ false };
}

impl MemoryNode {
    /// The node of a tree that stands here, in a place of the host, not opened, with the calls of it and of
    /// what is below it that are to fail.
    pub fn new(alloc: Global, tree: Tree, place: Route, plan: Plan) -> MemoryNode
        requires { is_lent tree ≡ false }
        ensures tree { result.tree ≡ tree }
        ensures access { result.access ≡ NotOpened }
        ensures place { result.place ≡ place }
        ensures plan { result.plan ≡ plan }
    {
        MemoryNode {
            alloc,
            tree,
            access: NodeAccess::Closed,
            place,
            plan,
        }
    }

    /// The node's tree, and the calls that are to fail.
    pub(crate) fn into_parts(self) -> (Tree, Plan)
        ensures tree { result.0 ≡ self.tree }
        ensures plan { result.1 ≡ self.plan }
    {
        let MemoryNode {
            alloc: _,
            tree,
            access: _,
            place: _,
            plan,
        } = self;
        (tree, plan)
    }

    /// Counts a call of a method, and answers whether it is to fail. If so, it counts a failed call too.
    fn meets(&mut self, op: Op) -> bool
        ensures planned { result ≡ fails self.old.place op self.old.plan }
        ensures rose { OnTrue result (Rose (faults_of self.old.tree) (faults_of self.new.tree)) }
        ensures tree { self.new.tree ≡ (if result then failed_once self.old.tree else self.old.tree) }
        ensures access { self.new.access ≡ self.old.access }
        ensures place { self.new.place ≡ self.old.place }
        ensures plan { self.new.plan ≡ after_call self.old.place op self.old.plan }
    {
        let planned = self.plan.meet(&self.place, op);
        if planned {
            // What is read here shows that the count fits.
            let _count = self.tree.faults();
            self.tree.count_fault();
        }
        planned
    }

    /// The place of what stands under a name.
    fn place_below(&self, name: &Name) -> Result<Route, Memory>
        ensures { IfOk result (λ place. place ≡ place_below self.now.place name.now) }
    {
        let mut place = self.place.copy(self.alloc)?;
        place.push(name.copy(self.alloc)?)?;
        Ok(place)
    }
}

impl HostNode for MemoryNode {
    ghost count = { λ n. faults_of n.tree };

    ghost told = { λ n. Some n.tree };

    ghost what = { λ n. kind_of n.tree };

    ghost opened = { λ n. opened_as n.access };

    fn faults(&self) -> u64 {
        self.tree.faults()
    }

    fn kind(&self) -> Kind {
        self.tree.kind()
    }

    fn stat(&mut self, _route: &Route) -> Result<Attr, HostErr>
        ensures attr { IfOk result (TellsAttr (Some self.old.tree)) }
        ensures mode { IfOk result (λ attr. attr.mode ≤ 511) }
        ensures kind { IfOk result (λ attr. attr.kind ≡ kind_of self.old.tree) }
        ensures faults { HasCause (host_failed result) (faults_of self.old.tree) (faults_of self.new.tree) }
        ensures tells { Some self.new.tree ≡ kept (faults_of self.new.tree) (Some self.old.tree) }
        ensures what { kind_of self.new.tree ≡ kind_of self.old.tree }
        ensures opened { opened_as self.new.access ≡ opened_as self.old.access }
        ensures planned { FailsAsPlanned (fails self.old.place Stat self.old.plan) result
            (faults_of self.old.tree) (faults_of self.new.tree) }
        ensures plan { self.new.plan ≡ after_call self.old.place Stat self.old.plan }
        ensures place { self.new.place ≡ self.old.place }
        ensures answer { result ≡ (if is_to_fail Stat self.old then Err Failed else Ok (attr_of self.old.tree)) }
        ensures after { self.new ≡ after_call_of Stat self.old }
    {
        if self.meets(Op::Stat) {
            return Err(HostErr::Failed);
        }
        Ok(self.tree.attr())
    }

    fn list(&mut self, _route: &Route, out: &mut Listing) -> Result<(), HostErr>
        requires { CanList (Some self.old.tree) }
        ensures entries { OnOk result (TellsListing (Some self.old.tree) out.new) }
        ensures ordered { OnOk result (IsAscending (names_of out.new)) }
        ensures err { OnErr result (out.new ≡ out.old) }
        ensures faults { HasCause (host_failed result) (faults_of self.old.tree) (faults_of self.new.tree) }
        ensures tells { Some self.new.tree ≡ kept (faults_of self.new.tree) (Some self.old.tree) }
        ensures what { kind_of self.new.tree ≡ kind_of self.old.tree }
        ensures opened { opened_as self.new.access ≡ opened_as self.old.access }
        ensures planned { FailsAsPlanned (fails self.old.place Listed self.old.plan) result
            (faults_of self.old.tree) (faults_of self.new.tree) }
        ensures plan { self.new.plan ≡ after_call self.old.place Listed self.old.plan }
        ensures place { self.new.place ≡ self.old.place }
        ensures after { self.new ≡ after_call_of Listed self.old }
    {
        if self.meets(Op::List) {
            return Err(HostErr::Failed);
        }
        self.tree.listing(out)?;
        Ok(())
    }

    fn lend(&mut self, _route: &Route, name: &Name) -> Result<Option<Self>, HostErr>
        requires { CanLend name.now (Some self.old.tree) }
        ensures none { IfOk result (λ lent. IfNone lent (LacksChild name.now (Some self.old.tree))) }
        ensures node { IfOk result (λ lent. IfSome lent (λ node.
            TellsLent name.now (Some self.old.tree) (Some node.tree) (faults_of node.tree) (kind_of node.tree))) }
        ensures closed { IfOk result (λ lent. IfSome lent (λ node. opened_as node.access ≡ NotOpen)) }
        ensures faults { HasCause (host_failed result) (faults_of self.old.tree) (faults_of self.new.tree) }
        ensures tells { Some self.new.tree ≡ after_lend result name.now (faults_of self.new.tree) (Some self.old.tree) }
        ensures what { kind_of self.new.tree ≡ kind_of self.old.tree }
        ensures opened { opened_as self.new.access ≡ opened_as self.old.access }
        ensures planned { FailsAsPlanned (fails self.old.place Lend self.old.plan) result
            (faults_of self.old.tree) (faults_of self.new.tree) }
        ensures plan { self.new.plan ≡ lines_after result (place_below self.old.place name.now)
            (after_call self.old.place Lend self.old.plan) }
        ensures place { self.new.place ≡ self.old.place }
        ensures node_plan { IfOk result (λ lent. IfSome lent (λ node. node.plan ≡
            lines_below (place_below self.old.place name.now) (after_call self.old.place Lend self.old.plan))) }
        ensures node_place { IfOk result (λ lent. IfSome lent (λ node.
            node.place ≡ place_below self.old.place name.now)) }
        ensures lent { IfOk result (λ lent. IfSome lent (λ node.
            Some node ≡ option_map (lent_below self.old name.now) (child_of name.now self.old.tree))) }
        ensures lacks { child_of name.now self.old.tree ≡ None → is_to_fail Lend self.old ≡ false →
            result ≡ Ok None }
        ensures after { self.new ≡ after_lend_of result name.now self.old }
    {
        if self.meets(Op::Lend) {
            return Err(HostErr::Failed);
        }
        if self.tree.find(name).is_none() {
            return Ok(None);
        }
        let place = self.place_below(name)?;
        match self.tree.take(name) {
            None => Ok(None),
            Some(tree) => {
                let plan = self.plan.take_below(&place);
                Ok(Some(MemoryNode::new(self.alloc, tree, place, plan)))
            }
        }
    }

    fn open(&mut self, _route: &Route, write: bool) -> Result<(), HostErr>
        requires { CanOpen write (Some self.old.tree) }
        ensures opened { opened_as self.new.access ≡ told_after_open result write (opened_as self.old.access) }
        ensures faults { HasCause (host_failed result) (faults_of self.old.tree) (faults_of self.new.tree) }
        ensures tells { Some self.new.tree ≡ kept (faults_of self.new.tree) (Some self.old.tree) }
        ensures what { kind_of self.new.tree ≡ kind_of self.old.tree }
        ensures planned { FailsAsPlanned (fails self.old.place Open self.old.plan) result
            (faults_of self.old.tree) (faults_of self.new.tree) }
        ensures plan { self.new.plan ≡ after_call self.old.place Open self.old.plan }
        ensures place { self.new.place ≡ self.old.place }
        ensures answer { result ≡ (if is_to_fail Open self.old then Err Failed else Ok tt) }
        ensures after { self.new ≡ after_open_of write self.old }
    {
        if self.meets(Op::Open) {
            return Err(HostErr::Failed);
        }
        self.access = if write {
            NodeAccess::Writing
        } else {
            NodeAccess::Reading
        };
        Ok(())
    }

    fn read_at(&mut self, at: u64, buf: &mut [u8]) -> Result<usize, HostErr>
        requires { CanRead (Some self.old.tree) (opened_as self.old.access) }
        ensures within { IfOk result (λ n. n ≤ length buf.old) }
        ensures bytes { IfOk result (λ n. ReadsAt at (Some self.old.tree) n buf.old buf.new) }
        ensures faults { HasCause (host_failed result) (faults_of self.old.tree) (faults_of self.new.tree) }
        ensures tells { Some self.new.tree ≡ kept (faults_of self.new.tree) (Some self.old.tree) }
        ensures what { kind_of self.new.tree ≡ kind_of self.old.tree }
        ensures opened { opened_as self.new.access ≡ opened_as self.old.access }
        ensures planned { FailsAsPlanned (fails self.old.place ReadAt self.old.plan) result
            (faults_of self.old.tree) (faults_of self.new.tree) }
        ensures plan { self.new.plan ≡ after_call self.old.place ReadAt self.old.plan }
        ensures place { self.new.place ≡ self.old.place }
        ensures answer { result ≡ (if is_to_fail ReadAt self.old then Err Failed
            else Ok (min (length buf.old) (length (file_bytes self.old.tree) - at))) }
        ensures after { self.new ≡ after_call_of ReadAt self.old }
        ensures err { OnErr result (buf.new ≡ buf.old) }
    {
        if self.meets(Op::ReadAt) {
            return Err(HostErr::Failed);
        }
        Ok(copy_from(self.tree.bytes(), at, buf))
    }

    fn take_back(&mut self, name: &Name, node: Self)
        requires { CanTakeBack name.now (Some self.old.tree) }
        ensures tells { TakesBack name.now (Some self.old.tree) (Some node.tree) (Some self.new.tree) }
        ensures faults { faults_of self.new.tree ≡ faults_of self.old.tree }
        ensures what { kind_of self.new.tree ≡ kind_of self.old.tree }
        ensures opened { opened_as self.new.access ≡ opened_as self.old.access }
        ensures plan { self.new.plan ≡ self.old.plan ++ node.plan }
        ensures place { self.new.place ≡ self.old.place }
        ensures after { self.new ≡ with_back name.now node self.old }
    {
        let (tree, plan) = node.into_parts();
        self.tree.give(name, tree);
        self.plan.join(plan);
    }

    ghost use Rattle.std.specs.Prelude.{refl};

    ghost tells_itself = { λ n. (refl, refl) };
}
