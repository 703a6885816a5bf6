//! How a book begins: with its pages and its seats.

ghost use Rattle.std.specs.Prelude.{◌⊎◌, IfNone, ◌≡◌, ◌+◌, ◌<◌, ◌≤◌, ◌^◌, [], ℕ, Some, None, IfOk, IfSome, slice_index_or};
ghost use Rattle.std.specs.Vec.{vec_len};
ghost use Rattle.sn_ties.specs.Tied.{value_at};
ghost use Rattle.tied_cells.specs.Machines.{own_key};

use crate::log::{Log, Seat, Wires};
use crate::machine::Machine;
use crate::page::{Cell, Page};
use crate::round::Book;
use hist_count::{OfHistory, Pen};
use sn_base::Map;
use sn_ties::{Knot, OfTies};
use std::alloc::Global;
use std::sync::Mutex;

/// A book before its first entry.
#[derive(Drop)]
pub struct Setup<M: Machine, J: OfHistory + OfTies> {
    pub wires: Wires<M, J>,
    pub pen: Pen<M::Entry, J>,
    pub knot: Knot<u64, J>,
    pub free: u64,
    pub tasks: u64,
    ghost none: { pen ≡ [] },
    ghost few: { free ≤ 2 ^ 63 },
    ghost few_tasks: { tasks ≤ 2 ^ 32 },
    ghost noughts: { (k x : ℕ) → value_at k knot ≡ Some x → x ≡ 0 },
    ghost fresh: { (k : ℕ) → free ≤ k → k < 2 ^ 63 → value_at k knot ≡ None },
    ghost fresh_own: { (t : ℕ) → tasks ≤ t → value_at (own_key t) knot ≡ None },
}

impl<M: Machine, J: OfHistory + OfTies> Setup<M, J> {
    /// No page, no seat.
    pub fn new(history: hist_count::Opened<M::Entry>, ties: sn_ties::Opened<u64>) -> Setup<M, J>
        requires history { history.table.shared.table_id ≡ J.history }
        requires ties { ties.table.shared.table_id ≡ J.ties }
        ensures { result.free ≡ 0 }
    {
        let (history, pen) = history.named::<J>();
        let (ties, knot) = ties.named::<J>();
        Setup {
            wires: Wires { history, ties },
            pen,
            knot,
            free: 0,
            tasks: 0,
        }
    }

    /// A page with a key above those of all pages before, and below 2^63. `None`: its key is another.
    pub fn page(&mut self, key: u64, content: M::Part) -> Option<Page<M, J>>
        requires { content ≡ M.rules.opening key }
        ensures page { IfSome result (λ page. page.key ≡ key) }
        ensures next { IfSome result (λ _. self.new.free ≡ key + 1) }
        ensures none { IfNone result ((key < self.old.free) ⊎ (2 ^ 63 ≤ key)) }
    {
        if key < self.free || key >= 1 << 63 {
            return None;
        }
        let share = self.wires.ties.add(&mut self.knot, key, 0);
        self.free = key + 1;
        let front = self.wires.history.front(&mut self.pen);
        let cell = Cell {
            share,
            front,
            content: Some(content),
        };
        Some(Page {
            key,
            cell: Mutex::new(cell),
        })
    }

    /// The next task's seat.
    pub fn seat(&mut self) -> Option<Seat<M, J>>
        ensures seat { IfSome result (λ seat. seat.front ≡ []) }
        ensures same { self.new.free ≡ self.old.free }
    {
        if self.tasks >= 1 << 32 {
            return None;
        }
        let task = self.tasks;
        let share = self.wires.ties.add(&mut self.knot, (1 << 63) + task, 0);
        self.tasks = task + 1;
        let front = self.wires.history.front(&mut self.pen);
        Some(Seat { task, front, share })
    }

    /// The book.
    pub fn book(self, alloc: Global, limit: u64) -> Book<M, J>
        requires { limit + 1 < 2 ^ 62 }
    {
        let Setup {
            wires,
            pen,
            knot,
            free,
            ..
        } = self;
        let log = Log {
            entries: Vec::new(alloc),
            counts: Map::new(alloc),
            pen,
            knot,
            free,
        };
        Book {
            wires,
            limit,
            log: Mutex::new(log),
        }
    }
}
