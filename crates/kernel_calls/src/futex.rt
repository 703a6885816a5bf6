//! futex.

ghost use Rattle.std.specs.Prelude.{◌≡◌, ◌==◌, ◌&&◌, ◌||◌, not, ℕ, option_map, if◌then◌else◌, IfOk};
ghost use Rattle.std.specs.Int.{from_le_bytes, w32};
ghost use Rattle.mm_space.specs.Handed.{AreaState};
ghost use Rattle.mm_space.specs.Spaces.{AddressSpace};
ghost use Rattle.task_table.specs.Table.{TaskTable};
ghost use Rattle.kernel_model.specs.Names.{NamedMap};
ghost use Rattle.kernel_model.specs.declared.caller.Caller.{Caller as ACaller};
ghost use Rattle.kernel_model.specs.declared.kernel.Kernel.{Kernel as AKernel};
ghost use Rattle.kernel_model.specs.machine.FutexWords.{key_at};
ghost use Rattle.kernel_model.specs.calls.Futex.{futex_row, is_wait, is_wake, sleeps_on, wakes_on};
ghost use Rattle.kernel_model.specs.entries.Areas.{bytes_read};
ghost use Rattle.kernel_model.specs.entries.Parts.{Parts, outcome_in};
ghost use Rattle.guest_access.specs.Lending.{AreThose};
ghost use Rattle.kernel_calls.specs.Prepared.{AnswersKept, Comes, EndsCaller, EndsTheirs, HasRoomFor, HasSpace};
ghost use Rattle.kernel_calls.specs.Prepared.{IfWaits};
ghost use Rattle.kernel_calls.specs.Prepared.{IsCalling};
ghost use Rattle.kernel_calls.specs.declared.prepared.Effect.TheVariants.{Wakes};

use crate::Context;
use crate::calls::refused;
use crate::prepared::{Called, Effect, Prepared};
use futex_core::{FutexKey, Owner, Waiters};
use guest_access::read;
use kernel_model::{Args, GuestArea, GuestSpace, Named};
use mm_space::AreaByte;
use sn_base::{Made, Memory};
use sn_errno::Errno;
use std::alloc::Global;

/// futex(address, operation, value, timeout): FUTEX_WAIT puts the caller to sleep on the word at an address, where that
/// is what the caller expects, and FUTEX_WAKE wakes the first who sleep on it, and replies how many. Operation and
/// value are the low 32 bits. Memory stays as it is.
///
/// ENOSYS: another operation; EINVAL: an address that is no multiple of 4; ENOSYS: a timeout of a FUTEX_WAIT; EFAULT: a
/// byte of the word that may not be read; EAGAIN: a word that is another value than a FUTEX_WAIT expects.
pub(crate) fn futex(
    alloc: Global,
    context: &Context<'_>,
    args: &Args,
    space: &GuestSpace,
    areas: &mut Named<GuestArea>,
    sleepers: &Waiters,
) -> Result<Called, Memory>
    ensures row { IfOk result (λ d. (c : ACaller) (k : AKernel) (list : TaskTable) (console : ℕ) →
        IsCalling c k context.now space.now areas.old list sleepers.now console →
        Comes (futex_row args.now.a0 args.now.a1 args.now.a2 args.now.a3 c) d c k space.now areas.old) }
    ensures own { IfOk result (λ d. EndsCaller d context.now.task) }
    ensures ended { IfOk result (λ d. (task group : ℕ) (list : TaskTable) → EndsTheirs d task group list) }
    ensures goes { IfOk result (λ d. IfWaits d (λ awaited. ⊥)) }
    ensures room { IfOk result (λ d. (list : TaskTable) → HasRoomFor d list) }
    ensures kept { areas.new ≡ areas.old }
{
    let Args {
        a0: address,
        a1: operation,
        a2: value,
        a3: timeout,
        ..
    } = *args;
    let operation = (operation % (1 << 32)) as u32;
    let value = (value % (1 << 32)) as u32;
    if !is_known(operation) {
        return Ok(Called::Replies(refused(Errno::ENOSYS)));
    }
    if address % 4 != 0 {
        return Ok(Called::Replies(refused(Errno::EINVAL)));
    }
    if has_timeout(operation, timeout) {
        return Ok(Called::Replies(refused(Errno::ENOSYS)));
    }
    match word_at(alloc, space, areas, address)? {
        Some(word) => {
            let key = key_at(context.memory, space, address);
            Ok(by_word(key, operation, word, value, sleepers))
        }
        None => Ok(Called::Replies(refused(Errno::EFAULT))),
    }
}

/// Whether the kernel has an operation.
fn is_known(operation: u32) -> bool
    ensures { result ≡ (is_wait operation || is_wake operation) }
{
    is_wait(operation) || is_wake(operation)
}

/// Whether a FUTEX_WAIT has a timeout. A FUTEX_WAKE may have anything there.
fn has_timeout(operation: u32, timeout: u64) -> bool
    ensures { result ≡ (is_wait operation && not (timeout == 0)) }
{
    is_wait(operation) && timeout != 0
}

/// FUTEX_WAIT, also with FUTEX_PRIVATE_FLAG.
fn is_wait(operation: u32) -> bool
    ensures { result ≡ is_wait operation }
{
    operation == 0 || operation == 128
}

/// FUTEX_WAKE, also with FUTEX_PRIVATE_FLAG.
fn is_wake(operation: u32) -> bool
    ensures { result ≡ is_wake operation }
{
    operation == 1 || operation == 129
}

/// The name of the word at an address of a memory.
pub(crate) fn key_at(memory: Made, space: &GuestSpace, address: u64) -> FutexKey
    ensures { result ≡ key_at memory space.now address }
{
    match space.space.area_byte(address) {
        Some(AreaByte { name, offset }) => FutexKey {
            owner: Owner::Area {
                place: name.place,
                index: name.index,
            },
            address: offset,
        },
        None => FutexKey {
            owner: Owner::Memory {
                place: memory.place,
                index: memory.index,
            },
            address,
        },
    }
}

/// The word at an address, or `None` where one of its bytes may not be read. The areas stay as they are.
fn word_at(
    alloc: Global,
    space: &GuestSpace,
    areas: &mut Named<GuestArea>,
    address: u64,
) -> Result<Option<u32>, Memory>
    ensures word { IfOk result (λ word. (s : Parts) → AreThose s areas.old →
        option_map (from_le_bytes w32) (outcome_in s (bytes_read space.now address 4)) ≡ word) }
    ensures kept { areas.new ≡ areas.old }
{
    let Some(bytes) = read(alloc, space, areas, address, 4)? else {
        return Ok(None);
    };
    match bytes.as_slice() {
        [a, b, c, d] => Ok(Some(u32::from_le_bytes([*a, *b, *c, *d]))),
        _ => unreachable!(),
    }
}

/// What is done by a word that holds this: its task sleeps, or is told that it differs, or those who sleep on it are
/// woken.
fn by_word(key: FutexKey, operation: u32, word: u32, value: u32, sleepers: &Waiters) -> Called
    ensures row { (c : ACaller) (k : AKernel) (own : AddressSpace) (shared : NamedMap AreaState) →
        HasSpace c k own → k.areas ≡ shared → k.sleepers ≡ sleepers.now →
        Comes (if is_wait operation then sleeps_on c.task key word value else wakes_on key value) result c k own
        shared }
    ensures own { (task : ℕ) → EndsCaller result task }
    ensures ended { (task group : ℕ) (list : TaskTable) → EndsTheirs result task group list }
    ensures goes { IfWaits result (λ awaited. ⊥) }
    ensures room { (list : TaskTable) → HasRoomFor result list }
{
    if !is_wait(operation) {
        return Called::Replies(woken(key, value, sleepers));
    }
    if word != value {
        return Called::Replies(refused(Errno::EAGAIN));
    }
    Called::Sleeps(key)
}

/// A FUTEX_WAKE of so many at most.
#[tactic(auto, using(crate::proofs::Answering::answers_woken))]
fn woken(key: FutexKey, most: u32, sleepers: &Waiters) -> Prepared
    ensures row { (c : ACaller) (k : AKernel) → k.sleepers ≡ sleepers.now →
        AnswersKept (wakes_on key most) result c.group k }
    ensures effect { result.effect ≡ Wakes key most }
{
    let count = u64::from(most).min(sleepers.count_on(key)) as u32;
    Prepared {
        reply: i64::from(count),
        effect: Effect::Wakes { key, most },
    }
}
