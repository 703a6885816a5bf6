//! The words that a program finds from the stack pointer up.

ghost use Rattle.std.specs.Prelude.{◌≡◌, ◌+◌, ◌^◌, ◌<◌, ◌≤◌, All, [], ◌∷◌, ◌++◌, OnOk};
ghost use Rattle.std.specs.List.{flat_map};
ghost use Rattle.sn_bytes.specs.Fields.{little_bytes};
ghost use Rattle.image_load.specs.Stacks.{addresses, auxiliary_vector, pointer_words, strings_length};

use crate::stack::{Auxiliary, STACK_TOP};
use elf_image::PROGRAM_HEADER_SIZE;
use mm_areas::PAGE_SIZE;
use sn_base::{List, Memory};
use sn_bytes::put_u64;
use sn_text::Text;

/// The size of a program header: `AT_PHENT`.
const HEADER_SIZE: u64 = PROGRAM_HEADER_SIZE as u64;

/// Adds the number of arguments, where they stand and a 0, and where the environment stands and a 0.
#[tactic(auto, using(crate::proofs::Stacks::pointers_put))]
pub(crate) fn put_pointers(
    out: &mut List<u8>,
    args: &[Text],
    env: &[Text],
    args_address: u64,
    env_address: u64,
) -> Result<(), Memory>
    requires args { args_address + strings_length args.now ≤ 2 ^ 38 }
    requires env { env_address + strings_length env.now ≤ 2 ^ 38 }
    ensures { OnOk result (out.new ≡ out.old
        ++ flat_map (little_bytes 8) (pointer_words args_address env_address args.now env.now)) }
{
    put_u64(out, args.len() as u64)?;
    put_addresses(out, args, args_address)?;
    put_addresses(out, env, env_address)
}

/// Adds where strings stand of which the first is at an address, and a 0 behind them.
fn put_addresses(out: &mut List<u8>, strings: &[Text], first: u64) -> Result<(), Memory>
    requires { first + strings_length strings.now ≤ 2 ^ 38 }
    ensures { OnOk result (out.new ≡ out.old ++ flat_map (little_bytes 8) (addresses first strings.now ++ 0 ∷ [])) }
{
    let mut address = first;
    for string in strings {
        put_u64(out, address)?;
        address += string.as_bytes().len() as u64 + 1;
    }
    put_u64(out, 0)
}

/// Adds the auxiliary vector.
#[tactic(auto, using(crate::proofs::StackReads::auxiliary_fits))]
pub(crate) fn put_auxiliary(out: &mut List<u8>, auxiliary: &Auxiliary) -> Result<(), Memory>
    ensures ok { OnOk result (out.new ≡ out.old ++ flat_map (little_bytes 8) (auxiliary_vector auxiliary.now)) }
    ensures fits { All (λ word. word < 2 ^ 64) (auxiliary_vector auxiliary.now) }
{
    #[rattlefmt::skip]
    let entries = [
        3, auxiliary.headers,
        4, HEADER_SIZE,
        5, auxiliary.header_count,
        6, PAGE_SIZE,
        9, auxiliary.entry,
        25, STACK_TOP - 16,
        0, 0,
    ];
    for word in entries {
        put_u64(out, word)?;
    }
    Ok(())
}
