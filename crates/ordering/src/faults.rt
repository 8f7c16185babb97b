//! Why an ordering takes no step or pair, or isn't closed.

use exact_lin::NoMemory;

/// Why an ordering refuses a step or a pair, or isn't closed. Steps count from 1.
#[derive(Clone, Copy, Debug, Drop, PartialEq, Eq)]
pub enum OrderFault {
    /// There is no step of this number.
    UnknownStep,
    /// A start of an action that runs.
    Running,
    /// An end of an action that doesn't run.
    EndWithoutStart,
    /// The first start that has no end.
    OpenAction(u32),
    /// A timed step isn't there.
    TilMissing,
    /// A timed step that isn't the next one.
    TilOrder,
    /// A pair whose second step doesn't come later than the first.
    Cycle,
    /// More plan steps than an ordering may have.
    Limit,
    /// There was no memory left.
    Memory,
}

impl From<NoMemory> for OrderFault {
    ghost use Rattle.std.specs.Prelude.{◌≡◌};
    ghost use Rattle.ordering.specs.declared.faults.OrderFault.TheVariants.{Memory as memory_fault};

    ghost from_gives = { λ _ fault. fault ≡ memory_fault };

    fn from(_memory: NoMemory) -> OrderFault {
        OrderFault::Memory
    }
}
