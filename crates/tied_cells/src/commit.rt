//! An entry is appended.

ghost use Rattle.std.specs.Prelude.{◌≡◌, ◌+◌, ◌<◌, ◌≤◌, ◌^◌, ◌∷◌, ◌++◌, [], ℕ, List, length, true};
ghost use Rattle.std.specs.Vec.{vec_len, vec_capacity};
ghost use mathlib.Core.List.{IsPrefix};
ghost use Rattle.tied_cells.specs.Machines.{own_key, replay, times, is_history};
ghost use Rattle.tied_cells.specs.Counts.{HaveRoom, keys_of};
ghost use Rattle.tied_cells.specs.Rounds.{Pairs, LentTo, KeptParts, Agrees, behind, changed_in, sights};

use crate::held::HeldPart;
use crate::lending::settle_all;
use crate::log::{Log, Seat, Wires};
use crate::machine::Machine;
use crate::page::Cell;
use hist_count::OfHistory;
use sn_ties::OfTies;
use std::collections::VecDeque;
use std::sync::MutexGuard;

impl<M: Machine, J: OfHistory + OfTies> Log<M, J> {
    /// Appends an entry of the seat's task, with what it leaves of what is held.
    pub(crate) fn commit(
        &mut self,
        wires: &Wires<M, J>,
        seat: &mut Seat<M, J>,
        held: VecDeque<MutexGuard<'_, Cell<M, J>>>,
        parts: VecDeque<HeldPart<M::Part>>,
        entry: M::Entry,
    )
        requires room { vec_len self.old.entries < vec_capacity self.old.entries }
        requires long { length self.old.pen + 1 < 2 ^ 62 }
        requires seat { seat.old.share.1 ≡ times M.rules (own_key seat.old.task) self.old.pen }
        requires task { M.rules.task entry ≡ seat.old.task }
        requires fits { M.rules.fits (length self.old.pen) (replay M.rules self.old.pen) entry ≡ true }
        requires touches { (key : ℕ) → M.rules.touches (replay M.rules self.old.pen) entry key
            ≡ changed_in parts.items key }
        requires lent { (lent : List _) × Pairs (λ c p. LentTo M.rules self.old.pen c.share c.front p)
            (behind held.items) lent × KeptParts lent parts.items }
        requires rooms { HaveRoom self.old.counts (keys_of parts.items) }
        requires after { Agrees (M.rules.after (length self.old.pen) (replay M.rules self.old.pen) entry)
            (sights parts.items) }
        ensures pen { self.new.pen ≡ self.old.pen ++ entry ∷ [] }
        ensures seat { seat.new.front ≡ self.old.pen ++ entry ∷ [] }
        ensures task { seat.new.task ≡ seat.old.task }
    {
        wires.history.append(&mut self.pen, &entry);
        let mine = *seat.share.value() + 1;
        wires.ties.set(&mut self.knot, &mut seat.share, mine);
        seat.front = wires.history.front(&mut self.pen);
        settle_all(
            wires,
            &mut self.pen,
            &mut self.knot,
            &mut self.counts,
            held,
            parts,
        );
        self.entries.push_reserved(entry);
    }
}
