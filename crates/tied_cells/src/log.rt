//! What lies under the book's lock: the entries, how many of them touch each part, the pen and the knot.

ghost use Rattle.std.specs.Prelude.{◌≡◌, ◌≢◌, ◌⊎◌, ◌+◌, ◌<◌, ◌≤◌, ◌^◌, ◌∷◌, ◌++◌, [], ℕ, length, true, false, Some, None, IfSome, IfNone, map};
ghost use mathlib.Core.List.{IsPrefix};
ghost use Rattle.sn_ties.specs.Tied.{value_at};
ghost use Rattle.tied_cells.specs.Machines.{own_key, replay, times, is_history};
ghost use Rattle.tied_cells.specs.Counts.{count_in};
ghost use Rattle.tied_cells.specs.Rounds.{Agrees, AllBegin, AreHad, begun, seen_of};

use crate::ended::Stale;
use crate::machine::Machine;
use crate::page::Look;
use hist_count::{Front, History, OfHistory, Pen};
use sn_base::Map;
use sn_ties::{Knot, OfTies, Share, Ties};
use std::collections::VecDeque;

/// What all share without a lock: the history's count, and the ties.
#[derive(Drop)]
pub struct Wires<M: Machine, J: OfHistory + OfTies> {
    pub history: History<M::Entry, J>,
    pub ties: Ties<u64, J>,
}

/// The book's inside: its entries, how many of them touch each part, the pen, the knot, and the least key above those
/// of the pages that there were at the beginning. The book's lock guards it.
#[derive(Drop)]
pub struct Log<M: Machine, J: OfHistory + OfTies> {
    pub entries: Vec<M::Entry>,
    pub counts: Map<u64>,
    pub pen: Pen<M::Entry, J>,
    pub knot: Knot<u64, J>,
    pub free: u64,
    ghost same: { pen ≡ entries.items },
    ghost history: { is_history M.rules pen ≡ true },
    ghost tied: { (k x : ℕ) → value_at k knot ≡ Some x → x ≡ times M.rules k pen },
    ghost counted: { (k : ℕ) → k < 2 ^ 63 → count_in counts k ≡ times M.rules k pen },
    ghost had: { AreHad M.rules free pen knot },
}

/// A task's seat: what it has seen of the book, and its share, whose value is the number of the task's entries. Its
/// task alone has it.
#[derive(Drop)]
pub struct Seat<M: Machine, J: OfHistory + OfTies> {
    pub task: u64,
    pub front: Front<M::Entry, J>,
    pub share: Share<u64, J>,
    ghost key: { share.0 ≡ own_key task },
    ghost counted: { share.1 ≡ times M.rules (own_key task) front },
}

impl<M: Machine, J: OfHistory + OfTies> Log<M, J> {
    /// Who has a share and a front has seen a beginning, and the share has the count of now.
    pub(crate) fn meet(
        &mut self,
        wires: &Wires<M, J>,
        share: &mut Share<u64, J>,
        front: &mut Front<M::Entry, J>,
    )
        ensures begins { IsPrefix front.old self.old.pen }
        ensures counted { share.old.1 ≡ times M.rules share.old.0 self.old.pen }
        ensures same { (self.new.pen ≡ self.old.pen) × (share.new ≡ share.old) × (front.new ≡ front.old) }
        ensures kept { (self.new.entries ≡ self.old.entries) × (self.new.counts ≡ self.old.counts) }
    {
        let note = wires.history.split(front);
        wires.history.join(&mut self.pen, note);
        wires.ties.check(&mut self.knot, share);
    }

    /// Whether a look is true now: the part holds what was seen. Otherwise says how many entries touch it.
    pub(crate) fn fresh(&mut self, wires: &Wires<M, J>, look: Look<M, J>) -> Option<Stale>
        ensures same { (self.new.pen ≡ self.old.pen) × (self.new.entries ≡ self.old.entries)
            × (self.new.counts ≡ self.old.counts) }
        ensures begins { IsPrefix look.front self.old.pen }
        ensures fresh { IfNone result (replay M.rules self.old.pen look.key ≡ replay M.rules look.front look.key) }
        ensures again { IfSome result (λ s. (s.has ≡ times M.rules s.key self.old.pen) × (s.saw ≢ s.has)) }
    {
        let Look {
            key,
            version,
            front,
        } = look;
        wires.history.join(&mut self.pen, front);
        let has = counted(&self.counts, key);
        if has == version {
            None
        } else {
            Some(Stale {
                key,
                saw: version,
                has,
            })
        }
    }

    /// Whether the book surely has no page of a key: it is above those of the pages that there were at the beginning,
    /// and below 2^63, and no entry touches it.
    pub fn lacks(&self, key: u64) -> bool
        ensures lacks { result ≡ true → value_at key self.now.knot ≡ None }
        ensures touched { result ≡ false → (key < self.now.free) ⊎ (2 ^ 63 ≤ key)
            ⊎ (0 < times M.rules key self.now.pen) }
    {
        if key < self.free || key >= 1 << 63 {
            return false;
        }
        counted(&self.counts, key) == 0
    }

    /// Whether all looks are true now. All are gone through, so that the pen meets all that was seen.
    pub(crate) fn all_fresh(
        &mut self,
        wires: &Wires<M, J>,
        mut looks: VecDeque<Look<M, J>>,
    ) -> Option<Stale>
        ensures same { (self.new.pen ≡ self.old.pen) × (self.new.entries ≡ self.old.entries)
            × (self.new.counts ≡ self.old.counts) }
        ensures begins { AllBegin (begun (map (λ l. (l.key, l.front)) looks.items)) self.old.pen }
        ensures fresh { IfNone result (Agrees (replay M.rules self.old.pen)
            (seen_of M.rules (map (λ l. (l.key, l.front)) looks.items))) }
        ensures again { IfSome result (λ s. (s.has ≡ times M.rules s.key self.old.pen) × (s.saw ≢ s.has)) }
    {
        match looks.pop_front() {
            None => None,
            Some(look) => {
                let first = self.fresh(wires, look);
                let others = self.all_fresh(wires, looks);
                match first {
                    Some(stale) => Some(stale),
                    None => others,
                }
            }
        }
    }
}

/// How many entries touch the part of a key.
fn counted(counts: &Map<u64>, key: u64) -> u64
    ensures { result ≡ count_in counts.now key }
{
    match counts.get(key) {
        Some(count) => *count,
        None => 0,
    }
}
