//! The clear words of tasks that end.

ghost use Rattle.std.specs.Prelude.{◌≡◌, ◌==◌, false, true, IfOk, OnOk, OnErr};
ghost use Rattle.kernel_model.specs.declared.caller.Caller.{Caller as ACaller};
ghost use Rattle.kernel_model.specs.calls.ClearWords.{nothing_cleared, word_cleared, words_cleared};
ghost use Rattle.kernel_model.specs.entries.Parts.{Parts, outcome_in};
ghost use Rattle.kernel_calls.specs.ClearWords.{Clears, IsCleared, has_few, has_word};
ghost use Rattle.guest_access.specs.Lending.{AreThose};

use crate::Context;
use crate::futex::key_at;
use futex_core::FutexKey;
use guest_access::write;
use kernel_model::{GuestArea, GuestSpace, Named};
use sn_base::{List, Memory};
use std::alloc::Global;
use task_table::EndedTask;

/// Clears the clear words of tasks that end, in their order, each as a store of the caller, and answers the names of
/// those that were cleared. A word that may not be written stays. An `Err` changes nothing: one word is written or not,
/// and more of them are written to copies first.
///
/// set_tid_address(2).
pub(crate) fn clear_words(
    alloc: Global,
    context: &Context<'_>,
    ended: &[EndedTask],
    space: &mut GuestSpace,
    areas: &mut Named<GuestArea>,
) -> Result<List<FutexKey>, Memory>
    ensures cleared { IfOk result (λ keys. (c : ACaller) (s : Parts) → c.task ≡ context.now.task →
        c.memory ≡ context.now.memory → c.space ≡ space.old → AreThose s areas.old →
        IsCleared (outcome_in s (words_cleared c ended.now (nothing_cleared c.space))) areas.old space.new areas.new
        keys) }
    ensures err { OnErr result ((space.new ≡ space.old) × (areas.new ≡ areas.old)) }
{
    let mut keys = List::new(alloc);
    if has_few(ended) {
        clear_each(alloc, context, ended, space, areas, &mut keys)?;
    } else {
        clear_copies(alloc, context, ended, space, areas, &mut keys)?;
    }
    Ok(keys)
}

/// Whether no more than one of the tasks has a clear word.
fn has_few(ended: &[EndedTask]) -> bool
    ensures { result ≡ has_few ended.now }
{
    match ended {
        [first, rest @ ..] => {
            if first.clear == 0 {
                has_few(rest)
            } else {
                !has_word(rest)
            }
        }
        [] => true,
    }
}

/// Whether any of the tasks has a clear word.
fn has_word(ended: &[EndedTask]) -> bool
    ensures { result ≡ has_word ended.now }
{
    match ended {
        [first, rest @ ..] => first.clear != 0 || has_word(rest),
        [] => false,
    }
}

/// Clears the words in copies of the address space and of the areas, which then take their places.
fn clear_copies(
    alloc: Global,
    context: &Context<'_>,
    ended: &[EndedTask],
    space: &mut GuestSpace,
    areas: &mut Named<GuestArea>,
    keys: &mut List<FutexKey>,
) -> Result<(), Memory>
    ensures cleared { OnOk result (Clears context.now (λ c x. words_cleared c ended.now x)
        space.old areas.old keys.old space.new areas.new keys.new) }
    ensures err { OnErr result ((space.new ≡ space.old) × (areas.new ≡ areas.old)) }
{
    let mut own = space.copy(alloc)?;
    let mut shared = areas.copy(alloc)?;
    clear_each(alloc, context, ended, &mut own, &mut shared, keys)?;
    *space = own;
    *areas = shared;
    Ok(())
}

/// Clears the words of the tasks, and adds their names. Where no more than one of them has a word, an `Err` leaves
/// memory as it was.
fn clear_each(
    alloc: Global,
    context: &Context<'_>,
    ended: &[EndedTask],
    space: &mut GuestSpace,
    areas: &mut Named<GuestArea>,
    keys: &mut List<FutexKey>,
) -> Result<(), Memory>
    ensures cleared { OnOk result (Clears context.now (λ c x. words_cleared c ended.now x)
        space.old areas.old keys.old space.new areas.new keys.new) }
    ensures some { OnErr result (has_word ended.now ≡ true) }
    ensures few { OnErr result (has_few ended.now ≡ true → (space.new ≡ space.old) × (areas.new ≡ areas.old)) }
{
    if let [first, rest @ ..] = ended {
        clear(alloc, context, *first, space, areas, keys)?;
        clear_each(alloc, context, rest, space, areas, keys)?;
    }
    Ok(())
}

/// Clears the word of a task, where it has one that may be written, and adds its name. Otherwise, and on `Err`, memory
/// stays as it was.
fn clear(
    alloc: Global,
    context: &Context<'_>,
    ended: EndedTask,
    space: &mut GuestSpace,
    areas: &mut Named<GuestArea>,
    keys: &mut List<FutexKey>,
) -> Result<(), Memory>
    ensures cleared { OnOk result (Clears context.now (λ c x. word_cleared c ended x)
        space.old areas.old keys.old space.new areas.new keys.new) }
    ensures some { OnErr result ((ended.clear == 0) ≡ false) }
    ensures none { (ended.clear == 0) ≡ true → (space.new ≡ space.old) × (areas.new ≡ areas.old) }
    ensures err { OnErr result ((space.new ≡ space.old) × (areas.new ≡ areas.old)) }
{
    if ended.clear == 0 {
        return Ok(());
    }
    let before = keys.len();
    keys.push(key_at(context.memory, space, ended.clear))?;
    if !write(alloc, context.task, space, areas, ended.clear, &[0; 4])? {
        keys.truncate(before);
    }
    Ok(())
}
