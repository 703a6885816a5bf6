//! Messages read from all of some bytes.

ghost use Rattle.std.specs.Prelude.{◌≡◌, ℕ, true, [], ◌++◌, IfOk, List, Ok};
ghost use Rattle.lisafs_wire.specs.Grammar.{answer_table, is_plain, plain_table, request_table};
ghost use Rattle.lisafs_wire.specs.Messages.{answered, decoded, plain_answered};
ghost use Rattle.lisafs_wire.specs.Reading.{Gives, GivesIfRoom, message_at};
ghost use Rattle.lisafs_wire.specs.Spelling.{IsMessageOf, Message, spelling};

use crate::answer::{Answer, PlainAnswer};
use crate::answers::{answer_at, plain_answer_at};
use crate::fault::{DecodeError, WireFault};
use crate::header::{answer_header, is_whole, plain_header, request_header};
use crate::request::Request;
use crate::requests::request_at;
use std::alloc::Global;

#[tactic(auto, unfolding(crate::specs::Reading::message_at))]
fn request_of(alloc: Global, bytes: &[u8]) -> Result<Request<'_>, DecodeError>
    ensures { GivesIfRoom decoded result (message_at request_table bytes.now) }
{
    let header = request_header(bytes)?;
    let (request, rest) = request_at(alloc, header.number, header.body)?;
    if !is_whole(rest, header.more) {
        return Err(DecodeError::Fault(WireFault::Trailing));
    }
    Ok(request)
}

#[tactic(auto, unfolding(crate::specs::Reading::message_at))]
fn answer_of(alloc: Global, bytes: &[u8]) -> Result<Answer<'_>, DecodeError>
    ensures { GivesIfRoom answered result (message_at answer_table bytes.now) }
{
    let header = answer_header(bytes)?;
    let (answer, rest) = answer_at(alloc, header.number, header.body)?;
    if !is_whole(rest, header.more) {
        return Err(DecodeError::Fault(WireFault::Trailing));
    }
    Ok(answer)
}

#[tactic(auto, unfolding(crate::specs::Reading::message_at))]
fn plain_answer_of(bytes: &[u8]) -> Result<PlainAnswer<'_>, WireFault>
    ensures { Gives plain_answered result (message_at plain_table bytes.now) }
{
    let header = plain_header(bytes)?;
    let (answer, rest) = plain_answer_at(header.number, header.body)?;
    if !is_whole(rest, header.more) {
        return Err(WireFault::Trailing);
    }
    Ok(answer)
}

/// The request that the bytes spell, all of the bytes. What a request writes or a link's text is stands in the bytes.
pub fn decode(alloc: Global, bytes: &[u8]) -> Result<Request<'_>, DecodeError>
    // What is read is spelled so.
    ensures found { IfOk result (λ r.
        IsMessageOf request_table (decoded r) × (bytes.now ≡ spelling request_table (decoded r))) }
    // What is spelled so is read, unless memory runs out.
    ensures only { (m : Message) → IsMessageOf request_table m → bytes.now ≡ spelling request_table m
        → GivesIfRoom decoded result (Ok m) }
    // Which fault it is.
    ensures fault { GivesIfRoom decoded result (message_at request_table bytes.now) }
{
    request_of(alloc, bytes)
}

/// The answer that the bytes spell, all of the bytes. What was read, or a link's text, stands in the bytes.
pub fn decode_answer(alloc: Global, bytes: &[u8]) -> Result<Answer<'_>, DecodeError>
    // What is read is spelled so.
    ensures found { IfOk result (λ r.
        IsMessageOf answer_table (answered r) × (bytes.now ≡ spelling answer_table (answered r))) }
    // What is spelled so is read, unless memory runs out.
    ensures only { (m : Message) → IsMessageOf answer_table m → bytes.now ≡ spelling answer_table m
        → GivesIfRoom answered result (Ok m) }
    // Which fault it is.
    ensures fault { GivesIfRoom answered result (message_at answer_table bytes.now) }
{
    answer_of(alloc, bytes)
}

/// The answer without lists that the bytes spell, all of the bytes; to this, the number of one with lists is unknown.
/// It takes no memory. What was read, or a link's text, stands in the bytes.
pub fn decode_plain_answer(bytes: &[u8]) -> Result<PlainAnswer<'_>, WireFault>
    // What is read is spelled so.
    ensures found { IfOk result (λ r.
        IsMessageOf answer_table (plain_answered r) × (bytes.now ≡ spelling answer_table (plain_answered r))) }
    // What is spelled so, and has no list, is read.
    ensures only { (m : Message) → IsMessageOf answer_table m → is_plain m.number ≡ true
        → bytes.now ≡ spelling answer_table m → Gives plain_answered result (Ok m) }
    // Which fault it is.
    ensures fault { Gives plain_answered result (message_at plain_table bytes.now) }
{
    plain_answer_of(bytes)
}

/// No spelling of a message begins that of another, and no two messages have one spelling.
pub fn one_spelling()
    ensures of_requests { (a b : Message) (more : List ℕ) → IsMessageOf request_table a → IsMessageOf request_table b
        → spelling request_table a ++ more ≡ spelling request_table b → (a ≡ b) × (more ≡ []) }
    ensures of_answers { (a b : Message) (more : List ℕ) → IsMessageOf answer_table a → IsMessageOf answer_table b
        → spelling answer_table a ++ more ≡ spelling answer_table b → (a ≡ b) × (more ≡ []) }
{}
