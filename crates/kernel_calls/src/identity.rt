//! getpid, getppid, gettid, the user and the group of a task, and uname.

ghost use Rattle.std.specs.Prelude.{◌≡◌, ℕ, ◌≤◌, ◌++◌, [], length, IfOk, OnOk, OnErr};
ghost use Rattle.futex_core.specs.Waiters.{FutexList};
ghost use Rattle.task_table.specs.Table.{TaskTable};
ghost use Rattle.mm_space.specs.Spaces.{AddressSpace};
ghost use Rattle.kernel_model.specs.declared.caller.Caller.{Caller as ACaller};
ghost use Rattle.kernel_model.specs.declared.kernel.Kernel.{Kernel as AKernel};
ghost use Rattle.kernel_model.specs.calls.Identity.{getpid_row, getppid_row, gettid_row, name_field, owner_row};
ghost use Rattle.kernel_model.specs.calls.Identity.{parent_of};
ghost use Rattle.kernel_model.specs.calls.Identity.{uname_row, utsname};
ghost use Rattle.kernel_calls.specs.Prepared.{Answers, HasSpace, IsCalling};
ghost use Rattle.kernel_calls.specs.declared.prepared.Effect.TheVariants.{Nothing};

use crate::filling::fill;
use crate::memory::replied;
use crate::{Context, Prepared};
use kernel_model::{GuestArea, GuestSpace, Named};
use sn_base::{List, Memory};
use stat_layout::OWNER;
use std::alloc::Global;
use task_table::Tasks;

/// The bytes of a field of struct utsname.
const FIELD: usize = 65;

/// getpid(): the number of the caller's thread group.
#[tactic(auto, using(crate::proofs::Answering::answers_told))]
pub(crate) fn getpid(context: &Context<'_>) -> Prepared
    ensures row { (c : ACaller) (k : AKernel) (own : AddressSpace) → HasSpace c k own →
        c.group ≡ context.now.group → Answers (getpid_row c) result c k own k.areas }
    ensures effect { result.effect ≡ Nothing }
{
    replied(i64::from(context.group))
}

/// gettid(): the caller's task number.
#[tactic(auto, using(crate::proofs::Answering::answers_told))]
pub(crate) fn gettid(context: &Context<'_>) -> Prepared
    ensures row { (c : ACaller) (k : AKernel) (own : AddressSpace) → HasSpace c k own →
        c.task ≡ context.now.task → Answers (gettid_row c) result c k own k.areas }
    ensures effect { result.effect ≡ Nothing }
{
    replied(i64::from(context.task))
}

/// getppid(): the number of the parent of the caller's thread group, or 0 where it has none.
#[tactic(auto, using(crate::proofs::Answering::answers_told))]
pub(crate) fn getppid(context: &Context<'_>, tasks: &Tasks) -> Prepared
    ensures row { (c : ACaller) (k : AKernel) (own : AddressSpace) → HasSpace c k own →
        c.group ≡ context.now.group → k.tasks ≡ tasks.now → Answers (getppid_row c) result c k own k.areas }
    ensures effect { result.effect ≡ Nothing }
{
    replied(i64::from(parent_of(tasks, context.group)))
}

/// The number of a thread group's parent, or 0 where it has none.
fn parent_of(tasks: &Tasks, group: u32) -> u32
    ensures { result ≡ parent_of tasks.now.groups group }
{
    match tasks.group(group) {
        Some(found) => found.parent,
        None => 0,
    }
}

/// getuid(), geteuid(), getgid() and getegid().
#[tactic(auto, using(crate::proofs::Answering::answers_told))]
pub(crate) fn owner() -> Prepared
    ensures row { (c : ACaller) (k : AKernel) (own : AddressSpace) → HasSpace c k own →
        Answers owner_row result c k own k.areas }
    ensures effect { result.effect ≡ Nothing }
{
    replied(i64::from(OWNER))
}

/// uname(buffer): six fields that say which system this is.
///
/// EFAULT: a byte of the buffer that may not be written.
pub(crate) fn uname(
    alloc: Global,
    context: &Context<'_>,
    buffer: u64,
    space: &mut GuestSpace,
    areas: &mut Named<GuestArea>,
) -> Result<Prepared, Memory>
    ensures row { IfOk result (λ p.
        (c : ACaller) (k : AKernel) (list : TaskTable) (waiting : FutexList) (console : ℕ) →
        IsCalling c k context.now space.old areas.old list waiting console →
        Answers (uname_row buffer c) p c k space.new areas.new) }
    ensures effect { IfOk result (λ p. p.effect ≡ Nothing) }
    ensures err { OnErr result ((space.new ≡ space.old) × (areas.new ≡ areas.old)) }
{
    let names = utsname(alloc)?;
    fill(alloc, context, space, areas, buffer, names.as_slice(), 0)
}

/// The six fields of struct utsname: sysname, nodename, release, version, machine and domainname.
fn utsname(alloc: Global) -> Result<List<u8>, Memory>
    ensures { IfOk result (λ names. names ≡ utsname) }
{
    let mut names = List::new(alloc);
    add_names(&mut names)?;
    Ok(names)
}

/// Puts the fields into an empty list.
#[tactic(auto, unfolding(kernel_model::specs::calls::Identity::utsname))]
fn add_names(names: &mut List<u8>) -> Result<(), Memory>
    requires { names.old ≡ [] }
    ensures { OnOk result (names.new ≡ utsname) }
{
    add_field(names, b"Linux")?;
    add_field(names, b"sentry")?;
    add_field(names, b"5.15.0")?;
    add_field(names, b"#1")?;
    add_field(names, b"riscv64")?;
    add_field(names, b"(none)")
}

/// Puts a field behind others: a text, filled up with zeros.
fn add_field(names: &mut List<u8>, text: &[u8]) -> Result<(), Memory>
    requires { length text.now ≤ 65 }
    ensures { OnOk result (names.new ≡ names.old ++ name_field text.now) }
{
    let zeros = [0; FIELD];
    names.extend_from_slice(text)?;
    names.extend_from_slice(&zeros[text.len()..])
}
