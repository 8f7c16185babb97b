//! What is wrong with a text, and where.

ghost use Rattle.std.specs.Prelude.{◌≡◌};
ghost use Rattle.sexpr_text.specs.declared.fault.LexFault.TheVariants.{Memory};

use std::alloc::{AllocError, AllocFailed};

/// What is wrong with a text, at the byte where it is, counted from 0.
#[derive(Clone, Copy, Debug, PartialEq, Eq)]
pub enum LexFault {
    /// A run of bytes that spells nothing begins here.
    Byte(u32),
    /// The list that opens here is never closed, and lies in no other such list.
    Open(u32),
    /// The parenthesis here closes no list.
    Close(u32),
    /// The list that opens here lies in 64 others.
    Deep(u32),
    /// A name of more than 64 bytes begins here, or its prefix.
    LongName(u32),
    /// A run that begins here as a number is none, or has more than 18 digits.
    Number(u32),
    /// Memory ran out.
    Memory,
}

impl From<AllocError> for LexFault {
    ghost from_gives = { λ _ e. e ≡ Memory };

    fn from(_: AllocError) -> Self {
        LexFault::Memory
    }
}

impl<T: Drop> From<AllocFailed<T>> for LexFault {
    ghost from_gives = { λ _ e. e ≡ Memory };

    fn from(_: AllocFailed<T>) -> Self {
        LexFault::Memory
    }
}
