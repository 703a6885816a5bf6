//! mmap.

ghost use Rattle.std.specs.Prelude.{◌≡◌, ◌+◌, None, Some, IfOk, OnOk, OnErr, option_copied};
ghost use Rattle.mm_areas.specs.Mappings.{map_fault, pages_in};
ghost use Rattle.mm_space.specs.Changes.{mapped_in};
ghost use Rattle.mm_space.specs.Handed.{zero_area};
ghost use Rattle.kernel_model.specs.Names.{get_named, with_named};
ghost use Rattle.kernel_model.specs.declared.caller.Caller.{Caller as ACaller};
ghost use Rattle.kernel_model.specs.declared.kernel.Kernel.{Kernel as AKernel};
ghost use Rattle.kernel_model.specs.calls.Callers.{context_of};
ghost use Rattle.kernel_model.specs.calls.Memory.{address_in, area_made_at, asked_place, file_errno, file_refusal};
ghost use Rattle.kernel_model.specs.calls.Memory.{is_anonymous, is_fixed, is_of_one_kind, is_private, is_shared};
ghost use Rattle.kernel_model.specs.calls.Memory.{map_refusal, maps, mmap_row};
ghost use Rattle.kernel_model.specs.entries.Parts.{done, outcome_in, parts};
ghost use Rattle.guest_access.specs.Lending.{AreAlike};
ghost use Rattle.kernel_calls.specs.Prepared.{Answers, HasSpace, HasTable};
ghost use Rattle.kernel_calls.specs.declared.prepared.Effect.TheVariants.{Nothing};

use crate::Context;
use crate::calls::refused;
use crate::memory::{area_errno, is_no_protection, replied, rights_in};
use crate::prepared::Prepared;
use fd_table::FdTable;
use kernel_model::{Args, GuestArea, GuestSpace, Named};
use mm_areas::{AreaErr, AreaFault, Backing, Rights};
use rv_table::Area;
use sn_base::Memory;
use sn_errno::Errno;
use std::alloc::Global;

/// What is to be mapped: where, if that is asked for, how many bytes, and with which rights.
#[derive(Clone, Copy)]
struct MapRequest {
    place: Option<u64>,
    length: u64,
    rights: Rights,
}

/// mmap(address, length, protection, flags, fd, offset), of anonymous memory: private, or shared, which makes a shared
/// area of the entry's place. The answer is the address.
///
/// EINVAL: a protection above 7, not just one of MAP_SHARED and MAP_PRIVATE, an offset that is no multiple of 4,096, no
/// length or one that passes 2^63 in whole pages, with MAP_FIXED an address below 4,096 or no multiple of 4,096, or an
/// end above 2^38. Without MAP_ANONYMOUS: ENODEV for a descriptor that is open, and EBADF. ENOMEM: more than 16,384
/// pages, or no free range.
pub(crate) fn mmap(
    alloc: Global,
    context: &Context<'_>,
    args: &Args,
    space: &mut GuestSpace,
    areas: &mut Named<GuestArea>,
    numbers: Option<&FdTable>,
) -> Result<Prepared, Memory>
    ensures row { IfOk result (λ p. (c : ACaller) (k : AKernel) → HasSpace c k space.old → k.areas ≡ areas.old →
        k.entries + 1 ≡ context.now.place → HasTable c k (option_copied numbers.entry) →
        Answers (mmap_row (context_of k) args.now.a0 args.now.a1 args.now.a2 args.now.a3 args.now.a4 args.now.a5 c)
        p c k space.new areas.new) }
    ensures effect { IfOk result (λ p. p.effect ≡ Nothing) }
    ensures err { OnErr result (space.new ≡ space.old) }
    ensures err_areas { OnErr result (AreAlike areas.new areas.old) }
{
    let Args {
        a3: flags,
        a4: fd,
        ..
    } = *args;
    let file = file_refusal(flags, fd, numbers);
    map(alloc, context.place, args, file, space, areas)
}

/// The same, with why a file can't be mapped, where one is asked for.
fn map(
    alloc: Global,
    place: u64,
    args: &Args,
    file: Option<Errno>,
    space: &mut GuestSpace,
    areas: &mut Named<GuestArea>,
) -> Result<Prepared, Memory>
    ensures row { IfOk result (λ p. (c : ACaller) (k : AKernel) → HasSpace c k space.old → k.areas ≡ areas.old →
        k.entries + 1 ≡ place → Answers (done (maps (context_of k) c args.now.a0 args.now.a1 args.now.a2 args.now.a3
        args.now.a5 file)) p c k space.new areas.new) }
    ensures effect { IfOk result (λ p. p.effect ≡ Nothing) }
    ensures err { OnErr result (space.new ≡ space.old) }
    ensures err_areas { OnErr result (AreAlike areas.new areas.old) }
{
    if let Some(errno) = refusal(space, args, file) {
        return Ok(refused(errno));
    }
    let Args {
        a0: hint,
        a1: length,
        a2: protection,
        a3: flags,
        ..
    } = *args;
    let asked = MapRequest {
        place: asked_place(hint, flags),
        length,
        rights: rights_in(protection),
    };
    let address = if is_shared(flags) {
        map_shared(alloc, place, asked, space, areas)?
    } else {
        map_over(alloc, asked, Backing::Zeros, space)?
    };
    Ok(replied(address.cast_signed()))
}

/// Why a mapping is refused.
fn refusal(space: &GuestSpace, args: &Args, file: Option<Errno>) -> Option<Errno>
    ensures { result ≡ map_refusal space.now args.now.a0 args.now.a1 args.now.a2 args.now.a3 args.now.a5 file }
{
    let Args {
        a0: hint,
        a1: length,
        a2: protection,
        a3: flags,
        a5: offset,
        ..
    } = *args;
    let place = space
        .space
        .areas()
        .place_of(asked_place(hint, flags), length);
    if is_no_protection(protection)
        || !is_of_one_kind(flags)
        || offset % 4096 != 0
        || place == Err(AreaFault::Invalid)
    {
        return Some(Errno::EINVAL);
    }
    if file.is_some() {
        return file;
    }
    match place {
        Ok(_) => None,
        Err(fault) => Some(area_errno(fault)),
    }
}

/// Maps pages of their own or of an area, where nothing refuses that.
fn map_over(
    alloc: Global,
    asked: MapRequest,
    backing: Backing,
    space: &mut GuestSpace,
) -> Result<u64, Memory>
    requires { map_fault space.old.mapping asked.place asked.length ≡ None }
    ensures address { IfOk result (λ address. address ≡ address_in space.old asked.place asked.length) }
    ensures mapped { IfOk result (λ address.
        space.new ≡ mapped_in space.old address asked.length asked.rights backing) }
    ensures err { OnErr result (space.new ≡ space.old) }
{
    match space
        .space
        .map(alloc, asked.place, asked.length, asked.rights, backing)
    {
        Ok(address) => Ok(address),
        Err(AreaErr::Memory) => Err(Memory),
        Err(AreaErr::Fault(_)) => unreachable!(),
    }
}

/// Makes a shared area and maps its pages. The area is made first, and is taken out again where memory is wanting for
/// the rest.
fn map_shared(
    alloc: Global,
    place: u64,
    asked: MapRequest,
    space: &mut GuestSpace,
    areas: &mut Named<GuestArea>,
) -> Result<u64, Memory>
    requires { map_fault space.old.mapping asked.place asked.length ≡ None }
    ensures address { IfOk result (λ address. address ≡ address_in space.old asked.place asked.length) }
    ensures mapped { IfOk result (λ address.
        space.new ≡ mapped_in space.old address asked.length asked.rights (Backing.Of (area_made_at place))) }
    ensures made { OnOk result (areas.new ≡ with_named areas.old place 0 (zero_area (pages_in asked.length))) }
    ensures err { OnErr result (space.new ≡ space.old) }
    ensures err_areas { OnErr result (AreAlike areas.new areas.old) }
{
    let backing = Backing::Of(Area { place, index: 0 });
    let area = GuestArea::zeros(alloc, asked.length.div_ceil(4096) as usize)?;
    if areas.contains(place, 0) {
        let address = map_over(alloc, asked, backing, space)?;
        areas.replace(place, 0, area);
        return Ok(address);
    }
    areas.insert(alloc, place, 0, area)?;
    match map_over(alloc, asked, backing, space) {
        Ok(address) => Ok(address),
        Err(error) => {
            let _ = areas.remove(place, 0);
            Err(error)
        }
    }
}

/// The address that is asked for: with MAP_FIXED, bit 4; else the address is a hint, which is ignored.
fn asked_place(address: u64, flags: u64) -> Option<u64>
    ensures { result ≡ asked_place address flags }
{
    if is_fixed(flags) { Some(address) } else { None }
}

/// MAP_FIXED.
fn is_fixed(flags: u64) -> bool
    ensures { result ≡ is_fixed flags }
{
    flags / 16 % 2 == 1
}

/// MAP_SHARED.
fn is_shared(flags: u64) -> bool
    ensures { result ≡ is_shared flags }
{
    flags % 2 == 1
}

/// MAP_PRIVATE.
fn is_private(flags: u64) -> bool
    ensures { result ≡ is_private flags }
{
    flags / 2 % 2 == 1
}

/// MAP_ANONYMOUS.
fn is_anonymous(flags: u64) -> bool
    ensures { result ≡ is_anonymous flags }
{
    flags / 32 % 2 == 1
}

/// Just one of MAP_SHARED and MAP_PRIVATE.
fn is_of_one_kind(flags: u64) -> bool
    ensures { result ≡ is_of_one_kind flags }
{
    is_shared(flags) != is_private(flags)
}

/// Why a file can't be mapped, where one is asked for.
fn file_refusal(flags: u64, fd: u64, numbers: Option<&FdTable>) -> Option<Errno>
    ensures { (c : ACaller) (k : AKernel) → HasTable c k (option_copied numbers.entry) →
        outcome_in (parts k) (file_refusal flags fd c) ≡ result }
{
    if is_anonymous(flags) {
        None
    } else {
        Some(file_errno(fd, numbers))
    }
}

/// The error of a mapping of a file: nothing that is open can be mapped so far.
fn file_errno(fd: u64, numbers: Option<&FdTable>) -> Errno
    ensures { result ≡ file_errno fd (option_copied numbers.entry) }
{
    match numbers {
        Some(numbers) => open_errno(numbers, fd),
        None => Errno::EBADF,
    }
}

/// The same, of a table that is there.
fn open_errno(numbers: &FdTable, fd: u64) -> Errno
    ensures { result ≡ file_errno fd (Some numbers.now) }
{
    if numbers.get((fd % (1 << 32)) as u32).is_some() {
        Errno::ENODEV
    } else {
        Errno::EBADF
    }
}
