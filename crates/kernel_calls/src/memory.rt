//! brk, mmap, munmap and mprotect.

ghost use Rattle.std.specs.Prelude.{◌≡◌, false, IfOk, OnErr};
ghost use Rattle.kernel_model.specs.declared.caller.Caller.{Caller as ACaller};
ghost use Rattle.kernel_model.specs.declared.kernel.Kernel.{Kernel as AKernel};
ghost use Rattle.kernel_model.specs.calls.Memory.{area_errno, brk_row, is_no_protection, mprotect_row, munmap_row};
ghost use Rattle.kernel_model.specs.calls.Memory.{rights_in};
ghost use Rattle.kernel_calls.specs.Prepared.{Answers, HasSpace};
ghost use Rattle.kernel_calls.specs.declared.prepared.Effect.TheVariants.{Nothing};

use crate::calls::refused;
use crate::prepared::{Effect, Prepared};
use kernel_model::GuestSpace;
use mm_areas::{AreaErr, AreaFault, Rights};
use sn_base::Memory;
use sn_errno::Errno;
use std::alloc::Global;

/// brk(address): the break after it, which is the one before where it can't be put there.
pub(crate) fn brk(alloc: Global, address: u64, space: &mut GuestSpace) -> Result<Prepared, Memory>
    ensures row { IfOk result (λ p. (c : ACaller) (k : AKernel) → HasSpace c k space.old →
        Answers (brk_row address c) p c k space.new k.areas) }
    ensures effect { IfOk result (λ p. p.effect ≡ Nothing) }
    ensures err { OnErr result (space.new ≡ space.old) }
{
    let program_break = space.space.brk(alloc, address)?;
    Ok(replied(program_break.cast_signed()))
}

/// munmap(address, length): the pages of a range are taken out, also where some of them aren't mapped.
///
/// EINVAL: an address that is no multiple of 4,096, no length, an end above 2^38.
pub(crate) fn munmap(address: u64, length: u64, space: &mut GuestSpace) -> Result<Prepared, Memory>
    ensures row { IfOk result (λ p. (c : ACaller) (k : AKernel) → HasSpace c k space.old →
        Answers (munmap_row address length c) p c k space.new k.areas) }
    ensures effect { IfOk result (λ p. p.effect ≡ Nothing) }
    ensures err { OnErr result (space.new ≡ space.old) }
{
    match space.space.unmap(address, length) {
        Ok(()) => Ok(replied(0)),
        Err(AreaErr::Memory) => Err(Memory),
        Err(AreaErr::Fault(fault)) => Ok(refused(area_errno(fault))),
    }
}

/// mprotect(address, length, protection): the pages of a range get other rights, where all of them are mapped.
///
/// EINVAL: a protection above 7, an address that is no multiple of 4,096, an end above 2^38; ENOMEM: a page that isn't
/// mapped.
pub(crate) fn mprotect(
    address: u64,
    length: u64,
    protection: u64,
    space: &mut GuestSpace,
) -> Prepared
    ensures row { (c : ACaller) (k : AKernel) → HasSpace c k space.old →
        Answers (mprotect_row address length protection c) result c k space.new k.areas }
    ensures effect { result.effect ≡ Nothing }
{
    if is_no_protection(protection) {
        return refused(Errno::EINVAL);
    }
    match space.space.protect(address, length, rights_in(protection)) {
        Ok(()) => replied(0),
        Err(fault) => refused(area_errno(fault)),
    }
}

/// Whether a protection has other bits than those of read, write and execute.
pub(crate) fn is_no_protection(protection: u64) -> bool
    ensures { result ≡ is_no_protection protection }
{
    protection > 7
}

/// The rights that a protection is.
pub(crate) fn rights_in(protection: u64) -> Rights
    requires { is_no_protection protection ≡ false }
    ensures { result ≡ rights_in protection }
{
    Rights::of(
        protection % 2 == 1,
        protection / 2 % 2 == 1,
        protection / 4 % 2 == 1,
    )
}

/// The error of a change of what is mapped that is refused.
pub(crate) fn area_errno(fault: AreaFault) -> Errno
    ensures { result ≡ area_errno fault }
{
    match fault {
        AreaFault::Invalid => Errno::EINVAL,
        AreaFault::Hole => Errno::ENOMEM,
        AreaFault::Limit => Errno::ENOMEM,
        AreaFault::NoRange => Errno::ENOMEM,
    }
}

/// A call that replies a value, and leaves nothing to be done.
pub(crate) fn replied(reply: i64) -> Prepared
    ensures reply { result.reply ≡ reply }
    ensures effect { result.effect ≡ Nothing }
{
    Prepared {
        reply,
        effect: Effect::Nothing,
    }
}
