//! A descriptor table and its calls.

ghost use Rattle.std.specs.Prelude.{◌≡◌, ◌≢◌, ◌≤◌, ◌↔◌, Err, IfOk, IfErr, OnOk, OnErr, IsSome, ok_or, None};
ghost use Rattle.std.specs.FinMap as map;
ghost use Rattle.std.specs.Result.{result_err};
ghost use Rattle.fd_table.specs.Tables.{IsFullFrom, IsLowestFree, IsWithinLimit, closed_on_exec, dup3_fault};
ghost use Rattle.fd_table.specs.Tables.{duplicated, marked, open_fault};

use crate::slots::{
    closed_on_exec, count_open, descriptor_at, fill, first_free, open_numbers, vacate,
};
use crate::{Descriptor, FdErr};
use sn_base::{List, Memory};
use std::alloc::Global;
use std::marker::Model;

/// How many numbers a table has: getrlimit(2), RLIMIT_NOFILE.
pub const OPEN_MAX: usize = 256;

/// A descriptor table. Contracts see it as a finite map from the numbers that are open to their descriptors.
#[derive(Debug, Drop)]
pub struct FdTable {
    /// The descriptor of each number, at its place.
    slots: Vec<Option<Descriptor>>,
}

impl Model for FdTable {
    ghost use Rattle.std.specs.Prelude.{◌≡◌, length};
    ghost use Rattle.std.specs.Coded.{coded_ℕ};
    ghost use Rattle.std.specs.FinMap.{code};
    ghost use Rattle.fd_table.specs.contracts.descriptor.Descriptor as of_descriptor;
    ghost use Rattle.fd_table.specs.Tables.{Table};
    ghost use Rattle.fd_table.specs.Slots.{table_of};
    ghost use Rattle.fd_table.specs.declared.table.TheConstants.{OPEN_MAX};

    ghost Value = { Table };

    ghost coded = { code coded_ℕ of_descriptor.the_row.coded };

    ghost view = { λ a. table_of a.slots.items };

    ghost invariant = { λ a. length a.slots.items ≡ OPEN_MAX };
}

impl FdTable {
    /// A table in which nothing is open. It takes the room for all its descriptors.
    pub fn new(alloc: Global) -> Result<FdTable, Memory>
        ensures { IfOk result (λ table. table ≡ map.empty) }
    {
        let slots = vec![in alloc; None; OPEN_MAX]?;
        Ok(FdTable { slots })
    }

    /// The descriptor of a number, or `None` where it isn't open.
    pub fn get(&self, fd: u32) -> Option<Descriptor>
        ensures value { result ≡ map.get self.now fd }
        ensures within { IsWithinLimit self.now }
    {
        descriptor_at(&self.slots, fd)
    }

    /// How many numbers are open.
    pub fn len(&self) -> usize
        ensures value { result ≡ map.len self.now }
        ensures few { map.len self.now ≤ OPEN_MAX }
    {
        count_open(&self.slots)
    }

    /// Opens the lowest free number at or above another. It takes no memory.
    pub fn install(&mut self, from: u32, descriptor: Descriptor) -> Result<u32, FdErr>
        ensures lowest { IfOk result (λ fd. IsLowestFree self.old from fd) }
        ensures ok { IfOk result (λ fd. self.new ≡ map.insert self.old fd descriptor) }
        ensures full { (result ≡ Err FdErr.Full) ↔ IsFullFrom self.old from }
        ensures all { from ≡ 0 → (result ≡ Err FdErr.Full) ↔ (map.len self.old ≡ OPEN_MAX) }
        ensures only { IfErr result (λ e. e ≡ FdErr.Full) }
        ensures err { OnErr result (self.new ≡ self.old) }
    {
        let fd = first_free(&self.slots, from).ok_or(FdErr::Full)?;
        fill(&mut self.slots, fd, descriptor);
        Ok(fd)
    }

    /// Opens the lowest free number at or above another, with the description of an open one. It takes no memory.
    pub fn dup(&mut self, old: u32, from: u32, cloexec: bool) -> Result<u32, FdErr>
        ensures bad_fd { (result ≡ Err FdErr.BadFd) ↔ (map.get self.old old ≡ None) }
        ensures full { (result ≡ Err FdErr.Full) ↔ (IsSome (map.get self.old old) × IsFullFrom self.old from) }
        ensures only { result ≢ Err FdErr.Same }
        ensures lowest { IfOk result (λ fd. IsLowestFree self.old from fd) }
        ensures ok { IfOk result (λ fd. self.new ≡ duplicated self.old old fd cloexec) }
        ensures err { OnErr result (self.new ≡ self.old) }
    {
        let descriptor = self.get(old).ok_or(FdErr::BadFd)?;
        self.install(from, descriptor.with_cloexec(cloexec))
    }

    /// Gives a number the description of an open one, and answers the descriptor whose place it took, if there was one.
    /// It takes no memory.
    pub fn dup3(&mut self, old: u32, new: u32, cloexec: bool) -> Result<Option<Descriptor>, FdErr>
        ensures fault { result_err result ≡ dup3_fault self.old old new }
        ensures replaced { IfOk result (λ before. before ≡ map.get self.old new) }
        ensures ok { OnOk result (self.new ≡ duplicated self.old old new cloexec) }
        ensures err { OnErr result (self.new ≡ self.old) }
    {
        if old == new {
            return Err(FdErr::Same);
        }
        let descriptor = self.get(old).ok_or(FdErr::BadFd)?;
        if new as usize >= OPEN_MAX {
            return Err(FdErr::BadFd);
        }
        let replaced = self.get(new);
        fill(&mut self.slots, new, descriptor.with_cloexec(cloexec));
        Ok(replaced)
    }

    /// Frees a number, and answers what it had. It takes no memory.
    pub fn close(&mut self, fd: u32) -> Result<Descriptor, FdErr>
        ensures answer { result ≡ ok_or (map.get self.old fd) FdErr.BadFd }
        ensures ok { OnOk result (self.new ≡ map.remove self.old fd) }
        ensures err { OnErr result (self.new ≡ self.old) }
    {
        let descriptor = self.get(fd).ok_or(FdErr::BadFd)?;
        vacate(&mut self.slots, fd);
        Ok(descriptor)
    }

    /// Sets whether execve(2) closes a number. It takes no memory.
    pub fn set_cloexec(&mut self, fd: u32, cloexec: bool) -> Result<(), FdErr>
        ensures fault { result_err result ≡ open_fault self.old fd }
        ensures ok { OnOk result (self.new ≡ marked self.old fd cloexec) }
        ensures err { OnErr result (self.new ≡ self.old) }
    {
        let descriptor = self.get(fd).ok_or(FdErr::BadFd)?;
        fill(&mut self.slots, fd, descriptor.with_cloexec(cloexec));
        Ok(())
    }

    /// A table of its own with the same descriptors, as fork(2) makes one.
    pub fn copy(&self, alloc: Global) -> Result<FdTable, Memory>
        ensures { IfOk result (λ table. table ≡ self.now) }
    {
        let slots = self.slots.to_vec(alloc)?;
        Ok(FdTable { slots })
    }

    /// The numbers that are open, ascending.
    pub fn numbers(&self, alloc: Global) -> Result<List<u32>, Memory>
        ensures { IfOk result (λ numbers. numbers ≡ map.keys self.now) }
    {
        Ok(List::from_vec(open_numbers(alloc, &self.slots)?))
    }

    /// The numbers that execve(2) closes, ascending.
    pub fn on_exec(&self, alloc: Global) -> Result<List<u32>, Memory>
        ensures { IfOk result (λ numbers. numbers ≡ closed_on_exec self.now) }
    {
        Ok(List::from_vec(closed_on_exec(alloc, &self.slots)?))
    }
}
