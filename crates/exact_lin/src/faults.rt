//! Why a call failed, beyond a number that is too wide.

use crate::scalars::Wide;
use std::alloc::{AllocError, AllocFailed};

/// There was no memory left.
#[derive(Clone, Copy, Debug, PartialEq, Eq)]
pub struct NoMemory;

impl From<AllocError> for NoMemory {
    fn from(_error: AllocError) -> NoMemory {
        NoMemory
    }
}

impl<T: Drop> From<AllocFailed<T>> for NoMemory {
    fn from(_error: AllocFailed<T>) -> NoMemory {
        NoMemory
    }
}

/// Why a sum of forms was not made.
#[derive(Clone, Copy, Debug, PartialEq, Eq)]
pub enum FormFault {
    /// A part of the reckoning is past the limit of the width.
    Wide,

    /// There was no memory left.
    Memory,
}

impl From<Wide> for FormFault {
    ghost use Rattle.std.specs.Prelude.{◌≡◌};
    ghost use Rattle.exact_lin.specs.declared.faults.FormFault.TheVariants.{Wide as wide_fault};

    ghost from_gives = { λ _ fault. fault ≡ wide_fault };

    fn from(_wide: Wide) -> FormFault {
        FormFault::Wide
    }
}

impl From<NoMemory> for FormFault {
    ghost use Rattle.std.specs.Prelude.{◌≡◌};
    ghost use Rattle.exact_lin.specs.declared.faults.FormFault.TheVariants.{Memory as memory_fault};

    ghost from_gives = { λ _ fault. fault ≡ memory_fault };

    fn from(_memory: NoMemory) -> FormFault {
        FormFault::Memory
    }
}
