//! The answer to a request without lists, by its number.

ghost use Rattle.std.specs.Prelude.{◌≡◌, ◌↔◌, ℕ, ◌+◌, ◌<◌, true, IfOk, Ok};
ghost use Rattle.lisafs_wire.specs.Grammar.{is_plain};
ghost use Rattle.lisafs_wire.specs.Messages.{plain_answered};
ghost use Rattle.lisafs_wire.specs.Spelling.{Message};
ghost use Rattle.lisafs_session.specs.Operations.{IsReplyTo, plainly};
ghost use Rattle.lisafs_session.specs.Replies.{HasNoReply, TellsErrno, is_mismatch};
ghost use Rattle.lisafs_session.specs.Spelled.{Spells};

use crate::refusal::Refusal;
use lisafs_wire::{PlainAnswer, decode_plain_answer};

/// The answer that the bytes spell to a request of that number, and no error.
pub(crate) fn reply(number: u16, bytes: &[u8]) -> Result<PlainAnswer<'_>, Refusal>
    requires { is_plain (32768 + number) ≡ true }
    ensures value { IfOk result (λ x.
        Spells bytes.now (plain_answered x) × ((plain_answered x).number ≡ 32768 + number)) }
    ensures sole { IfOk result (λ x. (answer : Message) → IsReplyTo (plainly number) answer → Spells bytes.now answer
        → answer ≡ plain_answered x) }
    ensures errno { TellsErrno bytes.now result }
    ensures mismatch { (is_mismatch result ≡ true) ↔ HasNoReply (plainly number) bytes.now }
{
    match decode_plain_answer(bytes) {
        Ok(PlainAnswer::Error { errno }) => Err(Refusal::Errno(errno)),
        Ok(answer) if answer.number() - 0x8000 == number => Ok(answer),
        _ => Err(Refusal::Mismatch),
    }
}
