//! Answers that are lists: the nodes of a walk, and the names of a directory.

ghost use Rattle.std.specs.Prelude.{◌≡◌, ◌<◌, ◌^◌, true, length, IfOk};
ghost use Rattle.lisafs_wire.specs.declared.answer.Answer.TheVariants as answers;
ghost use Rattle.lisafs_wire.specs.Messages.{answered, end_number};
ghost use Rattle.lisafs_session.specs.Operations.{does_end, list, walk};
ghost use Rattle.lisafs_session.specs.Replies.{TellsListErrno, TellsMismatch};
ghost use Rattle.lisafs_session.specs.Spelled.{Spells};

use crate::control_fd::ControlFd;
use crate::made::{Listed, Walked};
use crate::open_fd::OpenFd;
use crate::refusal::{ListError, Refusal};
use lisafs_wire::{Answer, DecodeError, PlainAnswer, WalkEnd, decode_answer};
use std::alloc::Global;

/// Whether a walk of so many names may end so, with so many nodes.
fn may_end(asked: usize, end: WalkEnd, count: usize) -> bool
    ensures { result ≡ does_end asked (end_number end) count }
{
    match end {
        WalkEnd::All => count == asked,
        WalkEnd::Missing => count < asked,
        WalkEnd::Link => 0 < count && count <= asked,
    }
}

impl ControlFd {
    /// The nodes that a walk of so many names found, and how it ended. Want of memory is told where the list of nodes,
    /// or that of another answer, finds none.
    pub fn read_walk(alloc: Global, asked: usize, bytes: &[u8]) -> Result<Walked, ListError>
        ensures value { IfOk result (λ walked. Spells bytes.now (answered (answers.Walk walked.end walked.nodes))) }
        ensures ends { IfOk result (λ walked.
            does_end asked (end_number walked.end) (length walked.nodes) ≡ true) }
        ensures errno { TellsListErrno bytes.now result }
        ensures mismatch { TellsMismatch (walk asked) bytes.now result }
    {
        match decode_answer(alloc, bytes) {
            Ok(Answer::Walk { end, nodes }) => {
                if !may_end(asked, end, nodes.len()) {
                    return Err(ListError::Refused(Refusal::Mismatch));
                }
                Ok(Walked { end, nodes })
            }
            Ok(Answer::Plain(PlainAnswer::Error { errno })) => Err(ListError::Refused(
                Refusal::Errno(errno),
            )),
            Ok(_) => Err(ListError::Refused(Refusal::Mismatch)),
            Err(DecodeError::Fault(_)) => Err(ListError::Refused(Refusal::Mismatch)),
            Err(DecodeError::Memory) => Err(ListError::Memory),
        }
    }
}

impl OpenFd {
    /// A part of the directory's names, and whether it is the last. Want of memory is told where the list of names, or
    /// that of another answer, finds none.
    pub fn read_list(alloc: Global, bytes: &[u8]) -> Result<Listed, ListError>
        ensures value { IfOk result (λ part.
            Spells bytes.now (answered (answers.Getdents64 part.is_last part.names))) }
        ensures errno { TellsListErrno bytes.now result }
        ensures mismatch { TellsMismatch list bytes.now result }
    {
        match decode_answer(alloc, bytes) {
            Ok(Answer::Getdents64 { is_last, names }) => Ok(Listed { is_last, names }),
            Ok(Answer::Plain(PlainAnswer::Error { errno })) => Err(ListError::Refused(
                Refusal::Errno(errno),
            )),
            Ok(_) => Err(ListError::Refused(Refusal::Mismatch)),
            Err(DecodeError::Fault(_)) => Err(ListError::Refused(Refusal::Mismatch)),
            Err(DecodeError::Memory) => Err(ListError::Memory),
        }
    }
}
