//! A call that fills its caller's buffer.

ghost use Rattle.std.specs.Prelude.{◌≡◌, ℕ, IfOk, OnErr};
ghost use Rattle.futex_core.specs.Waiters.{FutexList};
ghost use Rattle.task_table.specs.Table.{TaskTable};
ghost use Rattle.kernel_model.specs.declared.caller.Caller.{Caller as ACaller};
ghost use Rattle.kernel_model.specs.declared.kernel.Kernel.{Kernel as AKernel};
ghost use Rattle.kernel_model.specs.calls.Buffers.{fills};
ghost use Rattle.kernel_calls.specs.Prepared.{Answers, IsCalling};
ghost use Rattle.kernel_calls.specs.declared.prepared.Effect.TheVariants.{Nothing};

use crate::calls::refused;
use crate::memory::replied;
use crate::{Context, Prepared};
use guest_access::write;
use kernel_model::{GuestArea, GuestSpace, Named};
use sn_base::Memory;
use sn_errno::Errno;
use std::alloc::Global;

/// A call that puts bytes into its caller's buffer, and replies a number.
///
/// EFAULT: a byte of the buffer that may not be written.
pub(crate) fn fill(
    alloc: Global,
    context: &Context<'_>,
    space: &mut GuestSpace,
    areas: &mut Named<GuestArea>,
    at: u64,
    bytes: &[u8],
    reply: u32,
) -> Result<Prepared, Memory>
    ensures row { IfOk result (λ p.
        (c : ACaller) (k : AKernel) (list : TaskTable) (waiting : FutexList) (console : ℕ) →
        IsCalling c k context.now space.old areas.old list waiting console →
        Answers (fills c at bytes.now reply) p c k space.new areas.new) }
    ensures effect { IfOk result (λ p. p.effect ≡ Nothing) }
    ensures err { OnErr result ((space.new ≡ space.old) × (areas.new ≡ areas.old)) }
{
    if write(alloc, context.task, space, areas, at, bytes)? {
        Ok(replied(i64::from(reply)))
    } else {
        Ok(refused(Errno::EFAULT))
    }
}
