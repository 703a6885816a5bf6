//! The end of an opening task's stack: its strings, and the words that tell where they stand.

ghost use Rattle.std.specs.Prelude.{◌≡◌, ◌+◌, ◌%◌, ◌^◌, ◌<◌, ◌≤◌, ◌++◌, length, replicate, IfOk, IfErr, OnOk};
ghost use Rattle.image_load.specs.Stacks.{IsStackFaultOf, IsStackOf, IsTooBig, ProgramStart, args_address, stack_bytes};
ghost use Rattle.image_load.specs.Stacks.{started, stack_pointer, strings_room, words_length};
ghost use Rattle.image_load.specs.declared.stack.LoadErr.TheVariants.{Memory as WantOfMemory};

use crate::strings::{MOST_STRING_BYTES, MOST_STRINGS, is_too_big, put_strings, strings_length};
use crate::words::{put_auxiliary, put_pointers};
use sn_base::{List, Memory};
use sn_text::Text;
use std::alloc::Global;
use std::marker::Model;

/// What the auxiliary vector tells of an image.
///
/// getauxval(3).
#[derive(Clone, Copy, Debug, PartialEq, Eq)]
pub struct Auxiliary {
    /// Where the table of program headers stands, or 0 where no segment has it: `AT_PHDR`.
    pub headers: u64,
    /// How many program headers there are: `AT_PHNUM`.
    pub header_count: u64,
    /// Where the program begins: `AT_ENTRY`.
    pub entry: u64,
}

/// What a program is given. Contracts see it with the bytes of its strings (`ProgramGiven`).
///
/// execve(2); getauxval(3).
#[derive(Debug, Drop)]
pub struct ProgramInput<'a> {
    /// The arguments, in order.
    pub args: &'a [Text],
    /// The environment, in order.
    pub env: &'a [Text],
    /// What it finds by `AT_RANDOM`.
    pub random: [u8; 16],
}

impl<'a> Model for ProgramInput<'a> {
    ghost use Rattle.image_load.specs.Stacks.{ProgramGiven};

    ghost Value = { ProgramGiven };

    ghost view = { λ a. record { args = a.args.now; env = a.env.now; random = a.random } };
}

/// What stands at the end of a stack, which is at 2^38.
#[derive(Debug, Drop)]
pub struct OpeningStack {
    /// Where it begins: the stack pointer.
    pub sp: u64,
    /// The bytes from there to the end.
    pub bytes: List<u8>,
}

/// Why a program can't be loaded.
#[derive(Clone, Copy, Debug, PartialEq, Eq)]
pub enum LoadErr {
    /// Its strings are too many, or too long.
    TooBig,
    /// It has more pages than there may be.
    Limit,
    /// There was no memory for it.
    Memory,
}

impl From<Memory> for LoadErr {
    ghost from_gives = { λ _ e. e ≡ WantOfMemory };

    fn from(_e: Memory) -> LoadErr {
        LoadErr::Memory
    }
}

/// The first address above the stack.
pub(crate) const STACK_TOP: u64 = 1 << 38;

/// What stands at the end of the stack of a program that begins: its strings and its random bytes, and below them the
/// words that tell where they stand.
///
/// `TooBig` comes before `Memory`, and nothing is allocated for what is refused.
pub fn opening_stack(
    alloc: Global,
    program: &ProgramInput<'_>,
    auxiliary: &Auxiliary,
) -> Result<OpeningStack, LoadErr>
    ensures sp { IfOk result (λ stack. stack.sp ≡ stack_pointer (started program.now auxiliary.now)) }
    ensures bytes { IfOk result (λ stack. stack.bytes ≡ stack_bytes (started program.now auxiliary.now)) }
    ensures aligned { IfOk result (λ stack. stack.sp % 16 ≡ 0) }
    ensures room { let start = started program.now auxiliary.now in
        IfOk result (λ stack. stack.sp + words_length start ≤ args_address start) }
    ensures greatest { let start = started program.now auxiliary.now in
        IfOk result (λ stack. args_address start < stack.sp + words_length start + 16) }
    ensures top { IfOk result (λ stack. stack.sp + length stack.bytes ≡ 2 ^ 38) }
    ensures read { IfOk result (IsStackOf (started program.now auxiliary.now)) }
    ensures fault { IfErr result (IsStackFaultOf program.now.args program.now.env) }
    ensures faulty { IsTooBig program.now.args program.now.env → result ≡ Err LoadErr.TooBig }
{
    if is_too_big(program.args, program.env) {
        return Err(LoadErr::TooBig);
    }
    let stack = laid_out(alloc, program.args, program.env, &program.random, auxiliary)?;
    Ok(stack)
}

/// The end of the stack, of strings that aren't too big.
pub(crate) fn laid_out(
    alloc: Global,
    args: &[Text],
    env: &[Text],
    random: &[u8; 16],
    auxiliary: &Auxiliary,
) -> Result<OpeningStack, Memory>
    requires strings { length args.now + length env.now ≤ MOST_STRINGS }
    requires room { strings_room args.now + strings_room env.now ≤ MOST_STRING_BYTES }
    ensures sp { let start : ProgramStart =
        record { args = args.now; env = env.now; random = random.now; auxiliary = auxiliary.now } in
        IfOk result (λ stack. stack.sp ≡ stack_pointer start) }
    ensures bytes { let start : ProgramStart =
        record { args = args.now; env = env.now; random = random.now; auxiliary = auxiliary.now } in
        IfOk result (λ stack. stack.bytes ≡ stack_bytes start) }
    ensures top { IfOk result (λ stack. stack.sp + length stack.bytes ≡ 2 ^ 38) }
    ensures read { let start : ProgramStart =
        record { args = args.now; env = env.now; random = random.now; auxiliary = auxiliary.now } in
        IfOk result (IsStackOf start) }
{
    let args_length = strings_length(args);
    let args_address = STACK_TOP - 16 - (args_length + strings_length(env));
    let words_end = args_address - 8 * (args.len() + env.len() + 17) as u64;
    let sp = words_end / 16 * 16;
    let mut bytes = List::with_capacity(alloc, (STACK_TOP - sp) as usize)?;
    put_pointers(
        &mut bytes,
        args,
        env,
        args_address,
        args_address + args_length,
    )?;
    put_auxiliary(&mut bytes, auxiliary)?;
    put_zeros(&mut bytes, (words_end - sp) as usize)?;
    put_strings(&mut bytes, args)?;
    put_strings(&mut bytes, env)?;
    bytes.extend_from_slice(random)?;
    Ok(OpeningStack { sp, bytes })
}

/// Adds zeros at the end, at most 16.
#[tactic(auto, using(crate::proofs::Stacks::some_zeros))]
fn put_zeros(out: &mut List<u8>, count: usize) -> Result<(), Memory>
    requires { count ≤ 16 }
    ensures { OnOk result (out.new ≡ out.old ++ replicate count 0) }
{
    let zeros = [0; 16];
    out.extend_from_slice(&zeros[..count])
}
