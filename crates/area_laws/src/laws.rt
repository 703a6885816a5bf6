//! What is tried with one area more, again and again.

ghost use Rattle.std.specs.Prelude.{◌≡◌, ℕ, ◌≤◌, List as Items, Option as Maybe, is_some, IfSome};
ghost use Rattle.rv_table.specs.Bytes.{loaded};
ghost use Rattle.mm_areas.specs.declared.rights.Rights.{Rights as SomeRights};
ghost use Rattle.mm_space.specs.Accesses.{byte_at};
ghost use Rattle.mm_space.specs.Handed.{InHand};
ghost use Rattle.mm_space.specs.Spaces.{AddressSpace};
ghost use Rattle.kernel_model.specs.declared.caller.Caller.{Caller as ACaller};
ghost use Rattle.kernel_model.specs.machine.Instructions.{next_of};
ghost use Rattle.kernel_model.specs.machine.Spaces.{acting_with, reach_with};
ghost use Rattle.kernel_model.specs.entries.Areas.{Stands, access_row, access_tried, next_row, next_tried, trying};
ghost use Rattle.kernel_model.specs.entries.Parts.{Parts, outcome_in};
ghost use Rattle.area_laws.specs.Whole.{AreAll, HasAreas, is_value};

/// The law of areas that are tried one after another, of each state that has the areas of what is mapped in an address
/// space. It does nothing.
///
/// - `buffer`: a buffer of at most 65,536 bytes may be accessed exactly where it may be over all areas at once.
/// - `suffices`: with the areas that are in hand then each of its bytes may be.
/// - `buffer_asks`: what is said for an area that is lacking is never told of it.
/// - `instruction`: an instruction does what it does over all areas at once.
/// - `instruction_asks`: what is said for an area that is lacking is never told of it.
pub fn trying()
    ensures buffer { (s : Parts) (right : SomeRights) (space : AddressSpace) (at count : ℕ) (all : Items InHand) →
        HasAreas s space → AreAll s all → count ≤ 65536 →
        is_some (outcome_in s (access_row right space at count))
        ≡ is_value (loaded (byte_at right (reach_with space all)) at count) }
    ensures suffices { (s : Parts) (right : SomeRights) (space : AddressSpace) (at count : ℕ) (all : Items InHand) →
        HasAreas s space → AreAll s all → count ≤ 65536 →
        IfSome (outcome_in s (access_row right space at count)) (λ hand.
        loaded (byte_at right (reach_with space hand)) at count
        ≡ loaded (byte_at right (reach_with space all)) at count) }
    ensures buffer_asks { (s : Parts) (right : SomeRights) (space : AddressSpace) (at count : ℕ) (all : Items InHand)
        (lacking : Maybe (Items InHand)) → HasAreas s space → AreAll s all → count ≤ 65536 →
        outcome_in s (trying (access_tried right space at count) lacking)
        ≡ outcome_in s (access_row right space at count) }
    ensures instruction { (s : Parts) (c : ACaller) (all : Items InHand) → HasAreas s c.space → AreAll s all →
        (outcome_in s (next_row c)).next ≡ next_of (acting_with c.task c.space all) c.registers }
    ensures instruction_asks { (s : Parts) (c : ACaller) (all : Items InHand) (lacking : Stands) →
        HasAreas s c.space → AreAll s all →
        outcome_in s (trying (next_tried c) lacking) ≡ outcome_in s (next_row c) }
{}
