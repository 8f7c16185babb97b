//! Desks: what hands over whole files by their names.

ghost use Rattle.std.specs.Prelude.{◌≡◌, ◌<◌, ◌^◌, ◌-◌};
ghost use Rattle.outside.specs.Fetching.{DeskView, answer_of, MayAnswer, desk_after};
ghost use Rattle.outside.specs.declared.desk.Fetch.TheVariants.{Memory};

use std::alloc::{AllocError, Global};

/// The most bytes that a fetch hands over.
pub const LONGEST_FILE: usize = 1_048_576;

/// Why a fetch handed over no bytes.
#[derive(Clone, Copy, Debug, PartialEq, Eq)]
pub enum Fetch {
    /// The file is missing, or a read of it failed.
    Failed,
    /// The file is longer than [`LONGEST_FILE`]; this many of its bytes were taken.
    Long(u64),
    /// The memory for the bytes was refused.
    Memory,
}

impl From<AllocError> for Fetch {
    ghost from_gives = { λ _ why. why ≡ Memory };

    fn from(_: AllocError) -> Self {
        Fetch::Memory
    }
}

/// Hands over whole files by their names.
pub trait Desk {
    /// The files where the desk tells them, how often a fetch has failed, and the name of the last that did.
    ghost told: { Self → DeskView };

    /// The bytes of the file of this name. A fetch that answers [`Fetch::Failed`] is counted as a
    /// fault and its name is kept; any other leaves the desk as it was.
    fn fetch(&mut self, alloc: Global, name: &str) -> Result<Vec<u8>, Fetch>
        requires { (told self.old).faults < 2 ^ 64 - 1 }
        ensures answer { MayAnswer (told self.old).files name.now (answer_of result) }
        ensures after { told self.new ≡ desk_after (told self.old) name.now (answer_of result) };
}
