//! What is held is lent to a change, and comes back.

ghost use Rattle.std.specs.Prelude.{◌≡◌, ◌≢◌, ◌+◌, ◌<◌, ◌≤◌, ◌^◌, ◌∷◌, ◌++◌, [], ℕ, List, length, true, false, Some, None, IfSome, IsTrue, OnOk, map};
ghost use Rattle.std.specs.FinMap as table;
ghost use Rattle.std.specs.Sync.Mutex.{mutex_guard_value};
ghost use Rattle.std.specs.Vec.{vec_len, vec_capacity};
ghost use Rattle.std.specs.VecDeque.{deque_len, deque_capacity};
ghost use mathlib.Core.List.{IsPrefix};
ghost use Rattle.sn_ties.specs.Tied.{value_at};
ghost use Rattle.tied_cells.specs.Machines.{own_key, replay, times, is_history};
ghost use Rattle.tied_cells.specs.Counts.{HaveRoom, count_in, in_counts, keys_of};
ghost use Rattle.tied_cells.specs.Rounds.{Agrees, AllBegin, AreHad, Pairs, LentTo, DueTo, Owing, in_knot, changed_in, lent_of, behind};

use crate::held::HeldPart;
use crate::log::{Log, Wires};
use crate::machine::Machine;
use crate::page::Cell;
use hist_count::{OfHistory, Pen};
use sn_base::{Map, Memory};
use sn_ties::{Knot, OfTies};
use std::collections::VecDeque;
use std::sync::MutexGuard;

impl<M: Machine, J: OfHistory + OfTies> Cell<M, J> {
    /// Lends the content.
    pub(crate) fn lend(&mut self) -> Option<HeldPart<M::Part>>
        ensures lent { IfSome result (λ p. (self.old.content ≡ Some p.content) × (p.key ≡ self.old.share.0)
            × (p.changed ≡ false) × (p.content ≡ replay M.rules self.old.front self.old.share.0)) }
        ensures same { (self.new.share ≡ self.old.share) × (self.new.front ≡ self.old.front) }
    {
        let content = self.content.take()?;
        Some(HeldPart {
            key: self.share.key(),
            content,
            changed: false,
        })
    }

    /// Takes a content back that is as it was.
    pub(crate) fn take_back(&mut self, part: HeldPart<M::Part>)
        requires { part.content ≡ replay M.rules self.old.front self.old.share.0 }
    {
        self.content = Some(part.content);
    }

    /// Takes a content back, behind an entry that was appended.
    #[tactic(auto, using(crate::proofs::Rooms::rooms_stay, crate::proofs::Rooms::owing_counts, crate::proofs::Rooms::owing_kept))]
    pub(crate) fn settle(
        &mut self,
        wires: &Wires<M, J>,
        pen: &mut Pen<M::Entry, J>,
        knot: &mut Knot<u64, J>,
        counts: &mut Map<u64>,
        part: HeldPart<M::Part>,
    )
        requires due { DueTo M.rules pen.old self.old.share self.old.front part }
        requires room { IsTrue (table.contains_key counts.old part.key) }
        ensures pen { pen.new ≡ pen.old }
        ensures rooms { (keys : List _) → HaveRoom counts.old keys → HaveRoom counts.new keys }
        ensures knot { (rest : List _) → Owing M.rules pen.old (in_knot knot.old) (part ∷ rest)
            → Owing M.rules pen.old (in_knot knot.new) rest }
        ensures counts { (rest : List _) → Owing M.rules pen.old (in_counts counts.old) (part ∷ rest)
            → Owing M.rules pen.old (in_counts counts.new) rest }
        ensures had { (free : ℕ) → AreHad M.rules free pen.old knot.old → AreHad M.rules free pen.old knot.new }
    {
        let HeldPart {
            key,
            content,
            changed,
        } = part;
        if changed {
            let version = *self.share.value() + 1;
            wires.ties.set(knot, &mut self.share, version);
            counts.replace(key, version);
            self.front = wires.history.front(pen);
        }
        self.content = Some(content);
    }
}

impl<M: Machine, J: OfHistory + OfTies> Log<M, J> {
    /// Takes room for the counts of all that is held. Each count stays.
    pub(crate) fn make_room(&mut self, held: &[MutexGuard<'_, Cell<M, J>>]) -> Result<(), Memory>
        ensures same { (self.new.pen ≡ self.old.pen) × (self.new.entries ≡ self.old.entries) }
        ensures more { (keys : List _) → HaveRoom self.old.counts keys → HaveRoom self.new.counts keys }
        ensures rooms { OnOk result (HaveRoom self.new.counts (map (λ c. c.share.0) (behind held.now))) }
    {
        match held {
            [first, rest @ ..] => {
                let key = first.share.key();
                make_room_for(&mut self.counts, key)?;
                self.make_room(rest)
            }
            [] => Ok(()),
        }
    }

    /// What is held is let go, once the pen has met all that its pages had seen.
    pub(crate) fn let_go(
        &mut self,
        wires: &Wires<M, J>,
        mut held: VecDeque<MutexGuard<'_, Cell<M, J>>>,
    )
        ensures same { (self.new.pen ≡ self.old.pen) × (self.new.entries ≡ self.old.entries)
            × (self.new.counts ≡ self.old.counts) }
        ensures begins { AllBegin (map (λ c. c.front) (behind held.entry.items)) self.old.pen }
    {
        if let Some(mut guard) = held.pop_front() {
            let cell = &mut *guard;
            self.meet(wires, &mut cell.share, &mut cell.front);
            drop(guard);
            self.let_go(wires, held);
        }
    }

    /// Lends all that is held, with what it holds now. `false`: something isn't there.
    pub(crate) fn lend_all<'a>(
        &mut self,
        wires: &Wires<M, J>,
        mut held: VecDeque<MutexGuard<'a, Cell<M, J>>>,
        kept: &mut VecDeque<MutexGuard<'a, Cell<M, J>>>,
        parts: &mut Vec<HeldPart<M::Part>>,
    ) -> bool
        requires kept { deque_len kept.old + deque_len held ≤ deque_capacity kept.old }
        requires parts { vec_len parts.old + deque_len held ≤ vec_capacity parts.old }
        ensures same { self.new.pen ≡ self.old.pen }
        ensures kept { (self.new.entries ≡ self.old.entries) × (self.new.counts ≡ self.old.counts) }
        ensures begins { AllBegin (map (λ c. c.front) (behind held.entry.items)) self.old.pen }
        ensures lent { result ≡ true → (lent : List _) × (cells : List _)
            × (parts.new.items ≡ parts.old.items ++ lent)
            × (kept.new.items ≡ kept.old.items ++ cells)
            × (lent ≡ lent_of (map (λ c. (c.share.0, c.content)) (behind held.entry.items)))
            × Pairs (λ c p. LentTo M.rules self.old.pen c.share c.front p) (behind cells) lent }
    {
        match held.pop_front() {
            Some(mut guard) => {
                let cell = &mut *guard;
                self.meet(wires, &mut cell.share, &mut cell.front);
                match cell.lend() {
                    Some(part) => {
                        parts.push_reserved(part);
                        kept.push_back_reserved(guard);
                        self.lend_all(wires, held, kept, parts)
                    }
                    None => {
                        let _ = self.lend_all(wires, held, kept, parts);
                        false
                    }
                }
            }
            None => true,
        }
    }
}

/// Takes room for a key's count, which is 0 where none is noted.
fn make_room_for(counts: &mut Map<u64>, key: u64) -> Result<(), Memory>
    ensures same { (k : ℕ) → count_in counts.new k ≡ count_in counts.old k }
    ensures more { (keys : List _) → HaveRoom counts.old keys → HaveRoom counts.new keys }
    ensures room { OnOk result (IsTrue (table.contains_key counts.new key)) }
{
    if !counts.contains(key) {
        counts.insert(key, 0)?;
    }
    Ok(())
}

/// What was lent comes back as it was.
pub(crate) fn take_back_all<M: Machine, J: OfHistory + OfTies>(
    mut held: VecDeque<MutexGuard<'_, Cell<M, J>>>,
    mut parts: VecDeque<HeldPart<M::Part>>,
)
    requires { Pairs (λ c p. p.content ≡ replay M.rules c.front c.share.0) (behind held.items) parts.items }
{
    if let Some(mut guard) = held.pop_front() {
        if let Some(part) = parts.pop_front() {
            let cell = &mut *guard;
            cell.take_back(part);
            take_back_all(held, parts);
        }
    }
}

/// What was lent comes back, behind an entry that was appended.
pub(crate) fn settle_all<M: Machine, J: OfHistory + OfTies>(
    wires: &Wires<M, J>,
    pen: &mut Pen<M::Entry, J>,
    knot: &mut Knot<u64, J>,
    counts: &mut Map<u64>,
    mut held: VecDeque<MutexGuard<'_, Cell<M, J>>>,
    mut parts: VecDeque<HeldPart<M::Part>>,
)
    requires due { Pairs (λ c p. DueTo M.rules pen.old c.share c.front p) (behind held.items) parts.items }
    requires room { length pen.old < 2 ^ 62 }
    requires knot { Owing M.rules pen.old (in_knot knot.old) parts.items }
    requires counts { Owing M.rules pen.old (in_counts counts.old) parts.items }
    requires rooms { HaveRoom counts.old (keys_of parts.items) }
    ensures pen { pen.new ≡ pen.old }
    ensures knot { Owing M.rules pen.old (in_knot knot.new) [] }
    ensures counts { Owing M.rules pen.old (in_counts counts.new) [] }
    ensures had { (free : ℕ) → AreHad M.rules free pen.old knot.old → AreHad M.rules free pen.old knot.new }
{
    if let Some(mut guard) = held.pop_front() {
        if let Some(part) = parts.pop_front() {
            let cell = &mut *guard;
            cell.settle(wires, pen, knot, counts, part);
            settle_all(wires, pen, knot, counts, held, parts);
        }
    }
}
