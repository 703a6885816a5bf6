//! How an instruction reaches memory: exactly, or by what is at hand.

ghost use Rattle.std.specs.Prelude.{◌≡◌, ◌≢◌, ℕ, ◌/◌, ◌↔◌, Bool, true, false, IfSome, IsTrue, is_some};
ghost use Rattle.std.specs.Bool.{OnTrue, OnFalse};
ghost use Rattle.rv_table.specs.Words.{IsWidth};
ghost use Rattle.rv_table.specs.Bytes.{AllowsAs, Shared, Value, loaded};
ghost use Rattle.rv_exec.specs.Execution.{both};
ghost use Rattle.rv_exec.specs.Flows.{GivesAs, LetsAs, RefusesAs};
ghost use Rattle.rv_exec.specs.Loads.{refused_by};
ghost use Rattle.rv_exec.specs.Writes.{Stores, Reserves, all_after, conditional_writes};
ghost use Rattle.rv_exec.specs.declared.outcome.Step.{Step as Outcome};
ghost use Rattle.rv_exec.specs.declared.outcome.Step.TheVariants as outcomes;

use crate::load::refused;
use crate::{Mem, Step};
use rv_table::{Area, MemErr};

/// A way to reach memory. Its answers carry nothing wide: why an access was refused stands in what made it.
pub(crate) trait Access {
    /// Whether a refusal has its cause; else an access may be refused for none.
    ghost is_exact: { Bool };

    /// Why the last refused access was.
    ghost why: { Self → Outcome };

    /// The page into which nothing is stored, where it isn't exact.
    ghost page: { Self → ℕ };

    /// The number of so many bytes at an address, each of which may be read.
    fn load<M: Mem>(&mut self, mem: &mut M, at: u64, width: u8) -> Option<u64>
        requires { IsWidth width }
        ensures number { GivesAs is_exact (why self.new) (loaded (M.seen (M.told mem.old)).data_ at width) result }
        ensures lean { M.takes_memory ≡ false → why self.old ≢ Step.Memory → why self.new ≢ Step.Memory }
        ensures same { M.told mem.new ≡ M.told mem.old }
        ensures page { page self.new ≡ page self.old };

    /// The number of so many bytes at an address, each of which may be read, and, where it is exact, written.
    fn operand<M: Mem>(&mut self, mem: &mut M, at: u64, width: u8) -> Option<u64>
        requires { IsWidth width }
        ensures number { IfSome result (λ n. loaded (M.seen (M.told mem.old)).data_ at width ≡ Value n) }
        ensures exact { is_exact ≡ true → GivesAs true (why self.new)
            (both (loaded (M.seen (M.told mem.old)).data_ at width) (loaded (M.seen (M.told mem.old)).room at width))
            result }
        ensures lean { M.takes_memory ≡ false → why self.old ≢ Step.Memory → why self.new ≢ Step.Memory }
        ensures same { M.told mem.new ≡ M.told mem.old }
        ensures page { page self.new ≡ page self.old };

    /// Stores so many of a number's bytes at an address, each of which may be written.
    fn store<M: Mem>(&mut self, mem: &mut M, at: u64, width: u8, value: u64) -> bool
        requires { IsWidth width }
        ensures room { LetsAs is_exact (why self.new) (loaded (M.seen (M.told mem.old)).room at width) result }
        ensures lean { M.takes_memory ≡ false → why self.old ≢ Step.Memory → why self.new ≢ Step.Memory }
        ensures ok { OnTrue result (M.told mem.new ≡ M.after (Stores at width value) (M.told mem.old)) }
        ensures unchanged { OnFalse result (M.told mem.new ≡ M.told mem.old) }
        ensures row { is_exact ≡ false →
            M.instrs (M.told mem.new) (page self.old) ≡ M.instrs (M.told mem.old) (page self.old) }
        ensures page { page self.new ≡ page self.old };

    /// Ends the task's reservation, and stores so many of a number's bytes at an address, each of which may be written,
    /// where that was of just that address and so many bytes; and answers whether it was. A refusal leaves it.
    fn conditional<M: Mem>(&mut self, mem: &mut M, at: u64, width: u8, value: u64) -> Option<bool>
        requires { IsWidth width }
        ensures room { LetsAs is_exact (why self.new)
            (loaded (M.seen (M.told mem.old)).room at width) (is_some result) }
        ensures lean { M.takes_memory ≡ false → why self.old ≢ Step.Memory → why self.new ≢ Step.Memory }
        ensures held { IfSome result (λ held. held ≡ (M.seen (M.told mem.old)).reserves at width) }
        ensures done { IfSome result (λ held.
            M.told mem.new ≡ all_after M.after (conditional_writes held at width value) (M.told mem.old)) }
        ensures unchanged { is_some result ≡ false → M.told mem.new ≡ M.told mem.old }
        ensures row { is_exact ≡ false →
            M.instrs (M.told mem.new) (page self.old) ≡ M.instrs (M.told mem.old) (page self.old) }
        ensures page { page self.new ≡ page self.old };

    /// Puts the task's reservation of an address and so many bytes in the place of the one that it had.
    fn reserve<M: Mem>(&mut self, mem: &mut M, at: u64, width: u8) -> bool
        requires { IsWidth width }
        ensures why { OnFalse result (is_exact ≡ true → why self.new ≡ Step.Memory) }
        ensures lean { M.takes_memory ≡ false → why self.old ≢ Step.Memory → why self.new ≢ Step.Memory }
        ensures ok { OnTrue result (M.told mem.new ≡ M.after (Reserves at width) (M.told mem.old)) }
        ensures unchanged { OnFalse result (M.told mem.new ≡ M.told mem.old) }
        ensures row { M.instrs (M.told mem.new) (page self.old) ≡ M.instrs (M.told mem.old) (page self.old) }
        ensures page { page self.new ≡ page self.old };
}

/// Exact accesses, which keep why the last one was refused.
#[derive(Debug, Drop)]
pub(crate) struct Exact {
    pub(crate) why: Step,
}

impl Exact {
    /// Whether each of so many bytes at an address may be written. Where it is so, a store there takes no memory.
    fn writable<M: Mem>(&mut self, mem: &mut M, at: u64, width: u8) -> bool
        requires { IsWidth width }
        ensures room { LetsAs true self.new.why (loaded (M.seen (M.told mem.old)).room at width) result }
        ensures ready { OnTrue result (M.is_ready mem.new at width ≡ true) }
        ensures lean { M.takes_memory ≡ false → self.old.why ≢ Step.Memory → self.new.why ≢ Step.Memory }
        ensures same { M.told mem.new ≡ M.told mem.old }
    {
        match mem.writable(at, width) {
            Ok(()) => true,
            Err(refusal) => {
                self.refuse(refusal);
                false
            }
        }
    }

    /// Keeps why an access was refused.
    fn refuse(&mut self, refusal: MemErr)
        ensures { self.new.why ≡ refused_by refusal }
    {
        self.why = refused(refusal);
    }

    /// Keeps why an access that reads and writes was refused, of which a byte to be read lies in a shared area: a byte
    /// that may not be written goes first.
    fn refuse_shared<M: Mem>(&mut self, mem: &mut M, at: u64, width: u8, area: Area)
        requires { IsWidth width }
        ensures cause { RefusesAs (both (Shared area) (loaded (M.seen (M.told mem.old)).room at width)) self.new.why }
        ensures lean { M.takes_memory ≡ false → self.new.why ≢ Step.Memory }
        ensures same { M.told mem.new ≡ M.told mem.old }
    {
        match mem.writable(at, width) {
            Ok(()) => self.why = Step::Shared(area),
            Err(refusal) => self.refuse(refusal),
        }
    }
}

impl Access for Exact {
    ghost is_exact = { true };

    ghost why = { λ exact. exact.why };

    ghost page = { λ exact. 0 };

    fn load<M: Mem>(&mut self, mem: &mut M, at: u64, width: u8) -> Option<u64> {
        match mem.load(at, width) {
            Ok(value) => Some(value),
            Err(refusal) => {
                self.refuse(refusal);
                None
            }
        }
    }

    fn operand<M: Mem>(&mut self, mem: &mut M, at: u64, width: u8) -> Option<u64> {
        match mem.load(at, width) {
            Ok(value) => {
                if self.writable(mem, at, width) {
                    Some(value)
                } else {
                    None
                }
            }
            Err(MemErr::Shared(area)) => {
                self.refuse_shared(mem, at, width, area);
                None
            }
            Err(refusal) => {
                self.refuse(refusal);
                None
            }
        }
    }

    fn conditional<M: Mem>(&mut self, mem: &mut M, at: u64, width: u8, value: u64) -> Option<bool> {
        if !self.writable(mem, at, width) {
            return None;
        }
        Some(store_if_reserved(mem, at, width, value))
    }

    fn store<M: Mem>(&mut self, mem: &mut M, at: u64, width: u8, value: u64) -> bool {
        match mem.store(at, width, value) {
            Ok(()) => true,
            Err(refusal) => {
                self.refuse(refusal);
                false
            }
        }
    }

    fn reserve<M: Mem>(&mut self, mem: &mut M, at: u64, width: u8) -> bool {
        match mem.reserve(at, width) {
            Ok(()) => true,
            Err(_) => {
                self.why = Step::Memory;
                false
            }
        }
    }
}

/// Accesses to what is at hand, but for stores into the page that runs. Each other access is refused, whatever it is.
#[derive(Debug, Drop)]
pub(crate) struct Near {
    pub(crate) page: u64,
}

impl Near {
    /// Whether an address lies in the page that runs.
    #[inline(always)]
    fn is_own(&self, at: u64) -> bool
        ensures { IsTrue result ↔ (self.now.page ≡ at / 4096) }
    {
        at / 4096 == self.page
    }
}

impl Access for Near {
    ghost is_exact = { false };

    ghost why = { λ near. outcomes.Next };

    ghost page = { λ near. near.page };

    #[inline(always)]
    fn load<M: Mem>(&mut self, mem: &mut M, at: u64, width: u8) -> Option<u64> {
        mem.load_near(at, width)
    }

    #[inline(always)]
    fn operand<M: Mem>(&mut self, mem: &mut M, at: u64, width: u8) -> Option<u64> {
        mem.load_near(at, width)
    }

    #[inline(always)]
    fn conditional<M: Mem>(&mut self, mem: &mut M, at: u64, width: u8, value: u64) -> Option<bool> {
        if self.is_own(at) {
            return None;
        }
        mem.conditional_near(at, width, value)
    }

    #[inline(always)]
    fn store<M: Mem>(&mut self, mem: &mut M, at: u64, width: u8, value: u64) -> bool {
        if self.is_own(at) {
            return false;
        }
        mem.store_near(at, width, value)
    }

    fn reserve<M: Mem>(&mut self, mem: &mut M, at: u64, width: u8) -> bool {
        mem.reserve(at, width).is_ok()
    }
}

/// Stores at an address where a store is sure to take no memory, if it is reserved, and ends the reservation. Answers
/// whether it was reserved.
fn store_if_reserved<M: Mem>(mem: &mut M, at: u64, width: u8, value: u64) -> bool
    requires width { IsWidth width }
    requires room { AllowsAs (loaded (M.seen (M.told mem.old)).room at width) (Ok tt) }
    requires ready { M.is_ready mem.old at width ≡ true }
    ensures held { result ≡ (M.seen (M.told mem.old)).reserves at width }
    ensures done { M.told mem.new ≡ all_after M.after (conditional_writes result at width value) (M.told mem.old) }
{
    let is_reserved = mem.take(at, width);
    if !is_reserved {
        return false;
    }
    mem.store(at, width, value).is_ok()
}
