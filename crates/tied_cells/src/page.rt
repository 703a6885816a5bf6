//! Pages, and looks at them.

ghost use Rattle.std.specs.Prelude.{◌≡◌, ◌<◌, ◌^◌, Some, IfSome, IfOk, IsSome};
ghost use Rattle.std.specs.Option.{ForSome};
ghost use Rattle.std.specs.Fn.{FnOnceReturnsAt};
ghost use Rattle.std.specs.Sync.Mutex.{mutex_guard_value};
ghost use Rattle.tied_cells.specs.Machines.{replay, times};

use crate::log::Wires;
use crate::machine::Machine;
use hist_count::{Front, OfHistory};
use sn_ties::{OfTies, Share};
use std::sync::{Mutex, MutexGuard, Wait};

/// What lies behind a page's lock. Its content is away while a change has it.
#[derive(Drop)]
pub struct Cell<M: Machine, J: OfHistory + OfTies> {
    pub share: Share<u64, J>,
    pub front: Front<M::Entry, J>,
    pub content: Option<M::Part>,
    ghost small: { share.0 < 2 ^ 63 },
    ghost version: { share.1 ≡ times M.rules share.0 front },
    ghost told: { ForSome content (λ c. c ≡ replay M.rules front share.0) },
}

/// A page.
#[derive(Drop)]
pub struct Page<M: Machine, J: OfHistory + OfTies> {
    pub key: u64,
    pub cell: Mutex<Cell<M, J>>,
}

/// A look at a page: by which entries its part held then what it held. What that was follows from these: nothing of it
/// is kept.
#[derive(Drop)]
pub struct Look<M: Machine, J: OfHistory + OfTies> {
    pub key: u64,
    pub version: u64,
    pub front: Front<M::Entry, J>,
    ghost small: { key < 2 ^ 63 },
    ghost counted: { version ≡ times M.rules key front },
}

impl<M: Machine, J: OfHistory + OfTies> Page<M, J> {
    /// Locks the page. The lock of a page whose cell has another key would never be had; there is none.
    pub(crate) fn lock<R: Wait>(&self, rt: &R) -> MutexGuard<'_, Cell<M, J>>
        ensures key { (mutex_guard_value result).share.0 ≡ self.now.key }
        ensures there { IsSome (mutex_guard_value result).content }
    {
        let mut guard = self.cell.lock(rt);
        for _ in rt.forever() {
            if guard.share.key() == self.key && guard.content.is_some() {
                break;
            }
            drop(guard);
            guard = self.cell.lock(rt);
        }
        guard
    }

    /// Looks at the page: what is read of it, with what says when. It copies no more than is read.
    pub fn look<R: Wait, T, F: FnOnce(&M::Part) -> T>(
        &self,
        rt: &R,
        wires: &Wires<M, J>,
        read: F,
    ) -> (Look<M, J>, T)
        requires { F.IsAlwaysCallable read }
        ensures key { result.0.key ≡ self.now.key }
        ensures read { FnOnceReturnsAt F.FnOnce read (replay M.rules result.0.front result.0.key) result.1 }
    {
        let mut guard = self.lock(rt);
        let cell = &mut *guard;
        let front = wires.history.split(&mut cell.front);
        let look = Look {
            key: cell.share.key(),
            version: *cell.share.value(),
            front,
        };
        match &cell.content {
            Some(content) => (look, read(content)),
            None => unreachable!(),
        }
    }
}
