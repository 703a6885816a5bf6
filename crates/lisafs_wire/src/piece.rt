//! What is put for a field, at the end of bytes.

ghost use Rattle.std.specs.Prelude.{◌≡◌, ◌++◌, OnOk, OnErr};
ghost use Rattle.lisafs_wire.specs.Pieces.{DoAllFit, DoesFit, Grows, piece_bytes, pieces_bytes};

use sn_base::{List, Memory};
use sn_bytes::{put_u8, put_u16, put_u32, put_u64};
use sn_text::Name;

/// What is put for a field: nothing where there is none, a number, a name behind its length in two bytes, or data
/// behind its length in four.
#[derive(Clone, Copy)]
pub(crate) enum Piece<'a> {
    Nothing,
    Byte(u8),
    Word(u32),
    DoubleWord(u64),
    Name(&'a Name),
    Data(&'a [u8]),
}

/// Puts it at the end. An `Err` leaves what there was at the front.
#[tactic(auto, using(crate::proofs::Growth::grown, crate::proofs::Growth::grown_behind, crate::proofs::Values::name_size,))]
pub(crate) fn put(out: &mut List<u8>, piece: Piece<'_>) -> Result<(), Memory>
    requires { DoesFit piece }
    ensures ok { OnOk result (out.new ≡ out.old ++ piece_bytes piece.entry) }
    ensures err { OnErr result (Grows out.old out.new) }
{
    match piece {
        Piece::Nothing => Ok(()),
        Piece::Byte(number) => put_u8(out, number),
        Piece::Word(number) => put_u32(out, number),
        Piece::DoubleWord(number) => put_u64(out, number),
        Piece::Name(name) => {
            let bytes = name.as_bytes();
            put_u16(out, bytes.len() as u16)?;
            out.extend_from_slice(bytes)
        }
        Piece::Data(bytes) => {
            put_u32(out, bytes.len() as u32)?;
            out.extend_from_slice(bytes)
        }
    }
}

/// Puts each of them at the end, in order.
#[tactic(auto, using(crate::proofs::Growth::grown, crate::proofs::Growth::grown_behind))]
pub(crate) fn put_all(out: &mut List<u8>, pieces: &[Piece<'_>]) -> Result<(), Memory>
    requires { DoAllFit pieces.now }
    ensures ok { OnOk result (out.new ≡ out.old ++ pieces_bytes pieces.now) }
    ensures err { OnErr result (Grows out.old out.new) }
{
    match pieces {
        [] => Ok(()),
        [piece, rest @ ..] => {
            put(out, *piece)?;
            put_all(out, rest)
        }
    }
}
