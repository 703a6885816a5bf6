//! Random bytes: words of the ChaCha20 stream whose key is the mount file's seed.

ghost use Rattle.std.specs.Prelude.{◌≡◌, ℕ, ◌<◌, ◌≤◌, ◌%◌, min, slice_index, IfOk, OnErr};
ghost use Rattle.futex_core.specs.Waiters.{FutexList};
ghost use Rattle.task_table.specs.Table.{TaskTable};
ghost use Rattle.kernel_model.specs.declared.caller.Caller.{Caller as ACaller};
ghost use Rattle.kernel_model.specs.declared.kernel.Kernel.{Kernel as AKernel};
ghost use Rattle.kernel_model.specs.calls.Callers.{context_of};
ghost use Rattle.kernel_model.specs.calls.RandomBytes.{getrandom_row};
ghost use Rattle.kernel_model.specs.machine.Random.{opening_random, random_at, random_bytes, stream_words};
ghost use Rattle.kernel_calls.specs.Prepared.{Answers, IsCalling};
ghost use Rattle.kernel_calls.specs.declared.prepared.Effect.TheVariants.{Nothing};

use crate::calls::refused;
use crate::filling::fill;
use crate::{Context, Prepared};
use kernel_model::{GuestArea, GuestSpace, MOST_RANDOM, Named};
use rand_chacha::ChaCha20Rng;
use rand_core::SeedableRng;
use rand_core::utils::NextWord;
use sn_base::{List, Memory};
use sn_errno::Errno;
use std::alloc::Global;

/// getrandom(buffer, count, flags): the first of the random bytes of the entry's place, at most as many as one
/// call gives. Flags are the low 32 bits of their register.
///
/// EINVAL: flags above 7; EFAULT: a byte of the buffer that may not be written.
pub(crate) fn getrandom(
    alloc: Global,
    context: &Context<'_>,
    buffer: u64,
    count: u64,
    flags: u64,
    space: &mut GuestSpace,
    areas: &mut Named<GuestArea>,
) -> Result<Prepared, Memory>
    ensures row { IfOk result (λ p.
        (c : ACaller) (k : AKernel) (list : TaskTable) (waiting : FutexList) (console : ℕ) →
        IsCalling c k context.now space.old areas.old list waiting console →
        Answers (getrandom_row (context_of k) buffer count flags c) p c k space.new areas.new) }
    ensures effect { IfOk result (λ p. p.effect ≡ Nothing) }
    ensures err { OnErr result ((space.new ≡ space.old) × (areas.new ≡ areas.old)) }
{
    if flags % (1 << 32) > 7 {
        return Ok(refused(Errno::EINVAL));
    }
    let count = count.min(MOST_RANDOM);
    let bytes = random_at(alloc, context.seed, context.place, count)?;
    fill(
        alloc,
        context,
        space,
        areas,
        buffer,
        bytes.as_slice(),
        count as u32,
    )
}

/// So many random bytes for the entry of a place.
#[tactic(auto, using(crate::proofs::RandomWords::random_by_words))]
fn random_at(alloc: Global, seed: &[u8], place: u64, count: u64) -> Result<List<u8>, Memory>
    requires { count ≤ MOST_RANDOM }
    ensures { IfOk result (λ bytes. bytes ≡ random_at seed.now place count) }
{
    let words = words_of(alloc, &key_of(seed), place, count.div_ceil(4))?;
    List::from_slice(alloc, &words.as_slice()[..count as usize])
}

/// So many words of a stream, from its first on, each with its lowest byte first.
#[tactic(auto, using(crate::proofs::RandomWords::no_words, crate::proofs::RandomWords::words_more))]
fn words_of(alloc: Global, seed: &[u8; 32], stream: u64, count: u64) -> Result<List<u8>, Memory>
    requires { count ≤ 64 }
    ensures { IfOk result (λ bytes. bytes ≡ stream_words seed.now stream count) }
{
    let mut words = ChaCha20Rng::from_seed(*seed);
    words.set_stream(stream);
    words.set_word_pos(0);
    let mut bytes = List::new(alloc);
    for _word in 0..count {
        bytes.extend_from_slice(&words.next_word().to_le_bytes())?;
    }
    Ok(bytes)
}

/// The sixteen random bytes that the opening task of that number finds by `AT_RANDOM`: the first four words of the
/// stream 2^32 plus its number, each with its lowest byte first. The seed is the mount file's, 32 bytes, and a shorter
/// one is filled up with zeros.
///
/// getauxval(3), AT_RANDOM.
#[tactic(auto, using(crate::proofs::Keys::same_bytes))]
pub fn opening_random(seed: &[u8], task: u32) -> [u8; 16]
    ensures { result ≡ opening_random seed.now task }
{
    random_bytes(&key_of(seed), (1 << 32) + u64::from(task))
}

/// The first 32 bytes of a seed, filled up with zeros.
fn key_of(seed: &[u8]) -> [u8; 32]
    ensures { (k : ℕ) → k < 32 → slice_index result k ≡ slice_index seed.now k }
{
    let mut key = [0; 32];
    for place in 0..32 {
        key[place] = if place < seed.len() { seed[place] } else { 0 };
    }
    key
}

/// The first sixteen bytes of a stream.
fn random_bytes(seed: &[u8; 32], stream: u64) -> [u8; 16]
    ensures { result ≡ random_bytes seed.now stream }
{
    let mut words = ChaCha20Rng::from_seed(*seed);
    words.set_stream(stream);
    words.set_word_pos(0);
    let [a, b, c, d] = words.next_word().to_le_bytes();
    let [e, f, g, h] = words.next_word().to_le_bytes();
    let [i, j, k, l] = words.next_word().to_le_bytes();
    let [m, n, o, p] = words.next_word().to_le_bytes();
    [a, b, c, d, e, f, g, h, i, j, k, l, m, n, o, p]
}
