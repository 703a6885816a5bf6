//! Bytes by their addresses, and what accesses to them come to.

ghost use Rattle.std.specs.Prelude.{◌≡◌, ◌≢◌, ◌<◌, ◌≤◌, ◌+◌, ◌%◌, ◌^◌, nat_eq, ℕ, IfOk, Option, Some, length};
ghost use Rattle.std.specs.Prelude.{slice_index, if◌then◌else◌};
ghost use Rattle.std.specs.Option.{option_or};
ghost use Rattle.rv_table.specs.Words.{IsWidth};
ghost use Rattle.rv_table.specs.Bytes.{AnswersAs, Byte, Holds, first_area, first_barred, loaded, number_from, or_area};
ghost use Rattle.rv_table.specs.Bytes.{or_barred, value_in};
ghost use Rattle.rv_exec.specs.Writes.{stored_byte};
ghost use Rattle.machine_cases.specs.Places.{allows};

use rv_table::{Area, MemErr};

/// Bytes by their addresses.
pub trait Bytes {
    ghost byte_at: { Self → ℕ → Byte };

    /// Whether the byte at an address may not be accessed.
    fn is_barred(&self, at: u64) -> bool
        ensures { (rest : Option ℕ) → or_barred (byte_at self.now at) at rest ≡ (if result then Some at else rest) };

    /// The shared area in which it lies, if it does.
    fn area(&self, at: u64) -> Option<Area>
        ensures { (rest : Option Area) → or_area (byte_at self.now at) rest ≡ option_or result rest };

    /// What it holds, and 0 where it holds nothing that may be read.
    fn value(&self, at: u64) -> u8
        ensures { result ≡ value_in (byte_at self.now at) };
}

/// So many bytes from an address on, going round at 2^64, which hold what they hold or all lie in a shared area.
#[derive(Clone, Copy, PartialEq, Eq)]
pub struct Stretch<const N: usize> {
    pub from: u64,
    pub bytes: [u8; N],
    pub area: Option<Area>,
}

impl<const N: usize> Bytes for Stretch<N> {
    ghost use Rattle.machine_cases.specs.Places.{in_stretch};

    ghost byte_at = { λ stretch. in_stretch stretch.from N stretch.area stretch.bytes };

    fn is_barred(&self, at: u64) -> bool {
        at.wrapping_sub(self.from) >= N as u64
    }

    fn area(&self, at: u64) -> Option<Area> {
        if at.wrapping_sub(self.from) < N as u64 {
            self.area
        } else {
            None
        }
    }

    fn value(&self, at: u64) -> u8 {
        let place = at.wrapping_sub(self.from);
        if place < N as u64 && self.area.is_none() {
            self.bytes[place as usize]
        } else {
            0
        }
    }
}

impl<const N: usize> Stretch<N> {
    /// Stores so many of a number's bytes, the lowest first, at an address, where bytes of the stretch lie there.
    #[tactic(auto, using(crate::proofs::Stores::stored_stretch))]
    pub fn put(&mut self, at: u64, width: u8, value: u64)
        requires { IsWidth width }
        ensures { ⟦<Stretch<N> as Bytes>⟧.byte_at self.new ≡
            (λ address. stored_byte nat_eq at width value address (⟦<Stretch<N> as Bytes>⟧.byte_at self.old address)) }
    {
        put(&mut self.bytes, self.from, at, width, value);
    }
}

/// The right to a stretch's bytes.
#[derive(Clone, Copy, PartialEq, Eq)]
pub enum Right {
    /// To each of them.
    Each,
    /// To none.
    Nothing,
    /// To each but that at an address.
    But(u64),
    /// To the four at an address.
    Word(u64),
}

impl Right {
    /// Whether it is one to the byte at an address.
    fn allows(&self, at: u64) -> bool
        ensures { result ≡ allows self.now at }
    {
        match *self {
            Right::Each => true,
            Right::Nothing => false,
            Right::But(lacking) => lacking != at,
            Right::Word(first) => at.wrapping_sub(first) < 4,
        }
    }
}

/// A stretch's bytes, as far as there is a right to them.
#[derive(Clone, Copy, PartialEq, Eq)]
pub struct Reached<const N: usize> {
    pub stretch: Stretch<N>,
    pub right: Right,
}

impl<const N: usize> Bytes for Reached<N> {
    ghost use Rattle.machine_cases.specs.Places.{reached};

    ghost byte_at = { λ bytes.
        reached bytes.right (⟦<Stretch<N> as Bytes>⟧.byte_at bytes.stretch) };

    fn is_barred(&self, at: u64) -> bool {
        !self.right.allows(at) || self.stretch.is_barred(at)
    }

    fn area(&self, at: u64) -> Option<Area> {
        if self.right.allows(at) {
            self.stretch.area(at)
        } else {
            None
        }
    }

    fn value(&self, at: u64) -> u8 {
        if self.right.allows(at) {
            self.stretch.value(at)
        } else {
            0
        }
    }
}

/// Stores so many of a number's bytes, the lowest first, at an address, into the bytes from another address on.
fn put(bytes: &mut [u8], from: u64, at: u64, width: u8, value: u64)
    requires { IsWidth width }
    ensures { (k : ℕ) → k < length bytes.old → Holds (slice_index bytes.new k) ≡
        stored_byte nat_eq at width value ((from + k) % 2 ^ 64) (Holds (slice_index bytes.old k)) }
{
    for (place, byte) in bytes.iter_mut().enumerate() {
        *byte = put_byte(*byte, from.wrapping_add(place as u64), at, width, value);
    }
}

/// What a byte at an address holds after a store at another address.
#[tactic(auto, using(crate::proofs::Accesses::stored_step, crate::proofs::Accesses::stored_none))]
fn put_byte(byte: u8, address: u64, at: u64, width: u8, value: u64) -> u8
    ensures { Holds result ≡ stored_byte nat_eq at width value address (Holds byte) }
{
    if width == 0 {
        return byte;
    }
    if at == address {
        (value % 256) as u8
    } else {
        put_byte(byte, address, at.wrapping_add(1), width - 1, value / 256)
    }
}

/// The first of so many bytes from an address on that may not be accessed.
#[tactic(auto, using(crate::proofs::Accesses::first_barred_step), unfolding(rv_table::specs::Bytes::first_barred))]
fn first_barred<B: Bytes>(bytes: &B, at: u64, count: u8) -> Option<u64>
    ensures { result ≡ first_barred (B.byte_at bytes.now) at count }
{
    if count == 0 {
        return None;
    }
    if bytes.is_barred(at) {
        Some(at)
    } else {
        first_barred(bytes, at.wrapping_add(1), count - 1)
    }
}

/// The area of the first of so many bytes that lies in one.
#[tactic(auto, using(crate::proofs::Accesses::first_area_step), unfolding(rv_table::specs::Bytes::first_area))]
fn first_area<B: Bytes>(bytes: &B, at: u64, count: u8) -> Option<Area>
    ensures { result ≡ first_area (B.byte_at bytes.now) at count }
{
    if count == 0 {
        return None;
    }
    match bytes.area(at) {
        Some(area) => Some(area),
        None => first_area(bytes, at.wrapping_add(1), count - 1),
    }
}

/// The number that so many bytes are, the lowest first.
#[tactic(auto, using(crate::proofs::Accesses::number_from_step), unfolding(rv_table::specs::Bytes::number_from))]
fn number<B: Bytes>(bytes: &B, at: u64, count: u8) -> u64
    requires { count ≤ 8 }
    ensures number { result ≡ number_from (B.byte_at bytes.now) at count }
    ensures below { result < 256 ^ count }
{
    if count == 0 {
        return 0;
    }
    let low = u64::from(bytes.value(at));
    low + 256 * number(bytes, at.wrapping_add(1), count - 1)
}

/// What an access to so many bytes comes to.
#[tactic(auto, unfolding(rv_table::specs::Bytes::loaded))]
pub fn access<B: Bytes>(bytes: &B, at: u64, count: u8) -> Result<u64, MemErr>
    requires { count ≤ 8 }
    ensures answer { AnswersAs (loaded (B.byte_at bytes.now) at count) result }
    ensures below { IfOk result (λ value. value < 256 ^ count) }
    ensures lean { result ≢ Err MemErr.Memory }
{
    if let Some(addr) = first_barred(bytes, at, count) {
        return Err(MemErr::Fault { addr });
    }
    match first_area(bytes, at, count) {
        Some(area) => Err(MemErr::Shared(area)),
        None => Ok(number(bytes, at, count)),
    }
}
