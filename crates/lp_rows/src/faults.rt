//! Why the rows of an ordering were not made.

use crate::origins::Place;
use exact_lin::NoMemory;
use task_types::Blocked;

/// An ordering is blocked, a reckoning of its rows is past the limit of the width, or there was no memory left.
#[derive(Clone, Copy, Drop)]
pub enum RowsFault {
    Blocked(Blocked),
    Wide(Place),
    Memory,
}

impl From<NoMemory> for RowsFault {
    ghost use Rattle.std.specs.Prelude.{◌≡◌};
    ghost use Rattle.lp_rows.specs.declared.faults.RowsFault.TheVariants.{Memory as memory_fault};

    ghost from_gives = { λ _ fault. fault ≡ memory_fault };

    fn from(_memory: NoMemory) -> RowsFault {
        RowsFault::Memory
    }
}
