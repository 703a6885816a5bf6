//! The decoded words of a page.

ghost use Rattle.std.specs.Prelude.{◌≡◌, ◌<◌, ◌*◌, ◌^◌, IfOk, IfSome, Some};
ghost use Rattle.machine_cases.specs.Pages.{page_instrs};

use crate::bytes::{Bytes, Reached, access};
use rv_table::{Instr, decode};
use std::alloc::{AllocFailed, Global};

/// The decoded words of a page, where each may be executed.
#[rattlefmt::skip]
#[tactic(auto, using(crate::proofs::Words::no_words, crate::proofs::Words::no_instrs, crate::proofs::Words::next_word,
    crate::proofs::Words::next_instr, crate::proofs::Words::whole_page,))]
pub fn row_of(
    alloc: Global,
    code: &Reached<4096>,
    page: u64,
) -> Result<Option<Vec<Instr>>, AllocFailed<Instr>>
    requires { page < 2 ^ 52 }
    ensures { IfOk result (λ row.
        IfSome row (λ row. page_instrs (⟦<Reached<4096> as Bytes>⟧.byte_at code.now) page ≡ Some row.items)) }
{
    let mut row = Vec::new(alloc);
    for place in 0..1024 {
        match access(code, 4096 * page + 4 * place, 4) {
            Ok(word) => row.push(decode(word as u32))?,
            Err(_) => return Ok(None),
        }
    }
    Ok(Some(row))
}
