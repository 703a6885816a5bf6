//! Shared areas that are handed in with what touches them, and taken back behind it.

ghost use Rattle.std.specs.Prelude.{◌≡◌, ◌⊎◌, true, None, IfOk, OnErr, is_some};
ghost use Rattle.std.specs.Bool.{OnTrue, OnFalse};
ghost use Rattle.mm_space.specs.Handed.{area_in, hand_of};
ghost use Rattle.kernel_model.specs.Names.{get_named};
ghost use Rattle.guest_access.specs.Lending.{AreThere, IsLent, with_hand};

use kernel_model::{GuestArea, Named};
use mm_space::{Handed, HandedArea};
use rv_table::Area;
use sn_base::Memory;
use std::alloc::Global;

/// The most areas that an instruction or a call asks for: 17 pages have a buffer of 65,536 bytes, and four an
/// instruction.
pub(crate) const MOST_AREAS: u32 = 17;

/// Hands in the area of a name, and answers whether it has: the area is there, and isn't in hand. Until it is taken
/// back one without a page is in its place.
#[tactic(auto, using(kernel_model::proofs::NamedMaps::with_same))]
pub(crate) fn hand_in(
    alloc: Global,
    areas: &mut Named<GuestArea>,
    handed: &mut Handed,
    name: Area,
) -> Result<bool, Memory>
    ensures lent { IfOk result (λ b. OnTrue b
        (IsLent name (hand_of handed.old) (hand_of handed.new) areas.old areas.new)) }
    ensures lacking { IfOk result (λ b. OnFalse b ((is_some (area_in name (hand_of handed.old)) ≡ true)
        ⊎ (get_named areas.old name.place name.index ≡ None))) }
    ensures kept { IfOk result (λ b. OnFalse b
        ((areas.new ≡ areas.old) × (hand_of handed.new ≡ hand_of handed.old))) }
    ensures err { OnErr result ((areas.new ≡ areas.old) × (hand_of handed.new ≡ hand_of handed.old)) }
{
    if handed.get(name).is_some() {
        return Ok(false);
    }
    match areas.get_mut(name.place, name.index) {
        Some(area) => {
            handed.lend(alloc, name, &mut area.area)?;
            Ok(true)
        }
        None => Ok(false),
    }
}

/// Takes back all areas that are in hand.
#[tactic(auto, using(crate::proofs::Lendings::back_last, crate::proofs::Lendings::there_rest))]
pub(crate) fn take_back(areas: &mut Named<GuestArea>, handed: &mut Handed)
    requires { AreThere (hand_of handed.old) areas.old }
    ensures { areas.new ≡ with_hand (hand_of handed.old) areas.old }
{
    if let Some(HandedArea { name, area }) = handed.take_back() {
        areas.replace(name.place, name.index, GuestArea { area });
        take_back(areas, handed);
    }
}
