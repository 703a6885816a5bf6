//! What is wrong with bytes that are no message, and why a message wasn't read.

ghost use Rattle.std.specs.Prelude.{◌≡◌};
ghost use Rattle.lisafs_wire.specs.declared.fault.DecodeError.TheVariants as errors;

use sn_base::Memory;

/// Why bytes are no message. Of the faults that bytes have, the first in their order is told.
#[derive(Clone, Copy, Debug, PartialEq, Eq)]
pub enum WireFault {
    /// The bytes end before the header does, or before the message's length is reached.
    Short,
    /// The length is below that of a header, or a field passes it.
    Length,
    /// No message has the number.
    Unknown,
    /// The zero of the header is none, or what stands in a field may not stand there.
    Field,
    /// Bytes stand behind the last field.
    Trailing,
}

/// Why a message wasn't read: the bytes are none, or memory for a name or a list was refused.
#[derive(Clone, Copy, Debug, PartialEq, Eq)]
pub enum DecodeError {
    Fault(WireFault),
    Memory,
}

impl From<WireFault> for DecodeError {
    ghost from_gives = { λ fault e. e ≡ errors.Fault fault };

    fn from(fault: WireFault) -> DecodeError {
        DecodeError::Fault(fault)
    }
}

impl From<Memory> for DecodeError {
    ghost from_gives = { λ _ e. e ≡ errors.Memory };

    fn from(_e: Memory) -> DecodeError {
        DecodeError::Memory
    }
}
