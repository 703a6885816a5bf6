//! clock_gettime and sched_yield.

ghost use Rattle.std.specs.Prelude.{◌≡◌, ℕ, IfOk, OnErr};
ghost use Rattle.futex_core.specs.Waiters.{FutexList};
ghost use Rattle.task_table.specs.Table.{TaskTable};
ghost use Rattle.mm_space.specs.Spaces.{AddressSpace};
ghost use Rattle.kernel_model.specs.declared.caller.Caller.{Caller as ACaller};
ghost use Rattle.kernel_model.specs.declared.kernel.Kernel.{Kernel as AKernel};
ghost use Rattle.kernel_model.specs.calls.Callers.{context_of};
ghost use Rattle.kernel_model.specs.calls.Time.{clock_gettime_row, sched_yield_row, time_at, timespec};
ghost use Rattle.kernel_calls.specs.Prepared.{Answers, HasSpace, IsCalling};
ghost use Rattle.kernel_calls.specs.declared.prepared.Effect.TheVariants.{Nothing};

use crate::calls::refused;
use crate::filling::fill;
use crate::memory::replied;
use crate::{Context, Prepared};
use kernel_model::{GuestArea, GuestSpace, Named};
use sn_base::Memory;
use sn_errno::Errno;
use std::alloc::Global;

/// The clock of the greatest number: CLOCK_REALTIME is 0, and CLOCK_MONOTONIC 1.
const LAST_CLOCK: u64 = 1;

/// How many nanoseconds an entry takes.
const NANOSECONDS_OF_ENTRY: u64 = 1_000;

/// How many entries a second has.
const ENTRIES_OF_SECOND: u64 = 1_000_000;

/// clock_gettime(id, buffer): the time of the call's entry, by both clocks alike. All 64 bits of `id` count.
///
/// EINVAL: another clock; EFAULT: a byte of the buffer that may not be written.
pub(crate) fn clock_gettime(
    alloc: Global,
    context: &Context<'_>,
    id: u64,
    buffer: u64,
    space: &mut GuestSpace,
    areas: &mut Named<GuestArea>,
) -> Result<Prepared, Memory>
    ensures row { IfOk result (λ p.
        (c : ACaller) (k : AKernel) (list : TaskTable) (waiting : FutexList) (console : ℕ) →
        IsCalling c k context.now space.old areas.old list waiting console →
        Answers (clock_gettime_row (context_of k) id buffer c) p c k space.new areas.new) }
    ensures effect { IfOk result (λ p. p.effect ≡ Nothing) }
    ensures err { OnErr result ((space.new ≡ space.old) × (areas.new ≡ areas.old)) }
{
    if id > LAST_CLOCK {
        return Ok(refused(Errno::EINVAL));
    }
    let time = timespec(context.place);
    fill(alloc, context, space, areas, buffer, &time, 0)
}

/// The time of a place: whole seconds, and the nanoseconds beside them, each in 8 bytes, the lowest first.
#[tactic(auto, using(crate::proofs::TimeRows::seconds_of, crate::proofs::TimeRows::nanoseconds_of))]
fn timespec(place: u64) -> [u8; 16]
    ensures { result ≡ timespec (time_at place) }
{
    let seconds = place / ENTRIES_OF_SECOND;
    let nanoseconds = place % ENTRIES_OF_SECOND * NANOSECONDS_OF_ENTRY;
    let [a, b, c, d, e, f, g, h] = seconds.to_le_bytes();
    let [i, j, k, l, m, n, o, p] = nanoseconds.to_le_bytes();
    [a, b, c, d, e, f, g, h, i, j, k, l, m, n, o, p]
}

/// sched_yield(): which task goes on is no matter of the call.
#[tactic(auto, using(crate::proofs::Answering::answers_told))]
pub(crate) fn sched_yield() -> Prepared
    ensures row { (c : ACaller) (k : AKernel) (own : AddressSpace) → HasSpace c k own →
        Answers sched_yield_row result c k own k.areas }
    ensures effect { result.effect ≡ Nothing }
{
    replied(0)
}
