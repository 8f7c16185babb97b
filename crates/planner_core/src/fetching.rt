//! The fetch of a file for a command.

ghost use Rattle.std.specs.Prelude.{◌≡◌, ◌<◌, ◌^◌, ◌-◌, IfErr};
ghost use Rattle.outside.specs.Fetching.{MayAnswer, desk_after};
ghost use Rattle.planner_core.specs.Sessions.{stopped};
ghost use Rattle.planner_core.specs.declared.fetching.Stop.TheVariants.{Memory};
ghost use Rattle.planner_core.specs.Stops.{answer_seen, why_of, stop_said};

use crate::reply::{Role, read_fault_text};
use exact_lin::NoMemory;
use outside::{Desk, Fetch};
use std::alloc::Global;

/// Why a command ends before its texts are answered.
#[derive(Drop)]
pub enum Stop {
    /// A fetch failed. The text of the reply that says so.
    Fault(Vec<u8>),
    /// A file is too long; this many of its bytes were taken.
    Long(Role, u64),
    Memory,
}

impl From<NoMemory> for Stop {
    ghost from_gives = { λ _ stop. stop ≡ Memory };

    fn from(_: NoMemory) -> Self {
        Stop::Memory
    }
}

/// Fetches a file of the command. The memory for the text of a read fault is taken before the
/// fetch, so that a fault can always be told.
pub fn fetch_file<D: Desk>(
    alloc: Global,
    desk: &mut D,
    role: Role,
    name: &str,
) -> Result<Vec<u8>, Stop>
    requires { (D.told desk.old).faults < 2 ^ 64 - 1 }
    ensures answer { MayAnswer (D.told desk.old).files name.now (answer_seen result) }
    ensures after { D.told desk.new ≡ desk_after (D.told desk.old) name.now (answer_seen result) }
    ensures stop { IfErr result (λ stop. stop_said stop ≡ stopped role name.now (why_of stop)) }
{
    let text = read_fault_text(alloc, name)?;
    match desk.fetch(alloc, name) {
        Ok(bytes) => Ok(bytes),
        Err(Fetch::Failed) => Err(Stop::Fault(text)),
        Err(Fetch::Long(count)) => Err(Stop::Long(role, count)),
        Err(Fetch::Memory) => Err(Stop::Memory),
    }
}
