//! The opening execve of one program, and its record.

ghost use Rattle.std.specs.Prelude.{◌≡◌, ℕ, List as Items, [], length, true, IfOk, OnErr};
ghost use Rattle.host_node.specs.Tree.{Shape};
ghost use Rattle.sn_errno.specs.declared.errno.Errno.TheVariants.{E2BIG};
ghost use Rattle.kernel_model.specs.entries.Given.{numbers_of};
ghost use Rattle.kernel_model.specs.opening.Arguments.{is_too_long};
ghost use Rattle.image_walk.specs.Executing.{Executes};
ghost use Rattle.image_walk.specs.Granted.{told_of};
ghost use Rattle.image_walk.specs.Loading.{is_roomy};
ghost use Rattle.image_walk.specs.Standing.{IsNumbering, StandsLent};
ghost use Rattle.image_walk.specs.Walking.{IsGrant, IsSilent, NumbersNext};

use host_node::HostNode;
use image_walk::{Granted, ImageAnswer, OpeningExecve, execve};
use kernel_model::OpenedTask;
use mount_file::Program;
use sn_base::{List, Memory};
use sn_text::Text;
use std::alloc::Global;

/// An opening execve that was done: its record, and what it answers.
#[derive(Drop)]
pub(crate) struct Done {
    pub(crate) opened: OpenedTask,
    pub(crate) answer: ImageAnswer,
    ghost pages: { is_roomy answer ≡ true },
}

fn copied_words(alloc: Global, words: &[Text]) -> Result<List<Text>, Memory>
    ensures { IfOk result (λ ws. ws ≡ words.now) }
{
    let mut copies = List::new(alloc);
    for word in words {
        copies.push(word.copy(alloc)?)?;
    }
    Ok(copies)
}

/// Does the opening execve of a program over a granted folder. An `Err` leaves the folder as it was.
pub(crate) fn execute<N: HostNode>(
    alloc: Global,
    granted: &mut Granted<N>,
    program: &Program,
) -> Result<Done, Memory>
    requires numbers { IsNumbering granted.old.numbers }
    requires grant { IsGrant granted.old.numbers (N.told granted.old.root) (told_of N.told granted.old.lent.items) }
    ensures same { granted.new.numbers ≡ granted.old.numbers }
    ensures words { IfOk result (λ d. d.opened.words ≡ program.now.args) }
    ensures executes { IfOk result (λ d. (t : Shape) (names : Items (Items ℕ)) →
        StandsLent granted.old.numbers t names [] (N.told granted.old.root) (told_of N.told granted.old.lent.items) →
        Executes granted.old.numbers (is_too_long program.now.args program.now.env) t names program.now.name
        d.opened.given d.answer (N.told granted.new.root) (told_of N.told granted.new.lent.items)) }
    ensures numbers { IfOk result (λ d. NumbersNext granted.old.numbers (numbers_of d.opened.given.fresh)
        (length granted.old.lent.items) (length granted.new.lent.items)) }
    ensures silent { IsSilent (N.told granted.old.root) (told_of N.told granted.old.lent.items) →
        IsSilent (N.told granted.new.root) (told_of N.told granted.new.lent.items) }
    ensures long { IfOk result (λ d. is_too_long program.now.args program.now.env ≡ true →
        d.answer ≡ ImageAnswer.Refuses E2BIG) }
    ensures err { OnErr result (N.told granted.new.root ≡ N.told granted.old.root) }
    ensures err_lent { OnErr result (told_of N.told granted.new.lent.items ≡ told_of N.told granted.old.lent.items) }
{
    let words = copied_words(alloc, program.args.as_slice())?;
    let OpeningExecve { given, answer } = execve(alloc, granted, program)?;
    Ok(Done {
        opened: OpenedTask { words, given },
        answer,
    })
}
