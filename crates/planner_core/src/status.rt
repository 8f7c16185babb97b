//! How a run may end.

ghost use Rattle.std.specs.Prelude.{◌≡◌};
ghost use Rattle.planner_core.specs.Replies.{code_of};

/// How a run ended.
#[derive(Clone, Copy, Debug, PartialEq, Eq)]
pub enum Status {
    /// The reply is what was asked for: a valid plan, a plan, a certificate that holds.
    Done,
    /// The answer is no: the plan is not valid, there is none, or a certificate does not hold.
    Negative,
    /// The words are not those of a command.
    Usage,
    /// A file or its task is refused.
    Refused,
    /// A budget was spent, or a number passed 128 bits.
    Budget,
    /// A file could not be read.
    ReadFault,
    /// The reply could not be written whole.
    WriteFault,
    /// Memory was refused. Nothing was written.
    NoMemory,
}

impl Status {
    /// The exit status of the program.
    pub fn code(self) -> u8
        ensures { result ≡ code_of self }
    {
        self as u8
    }
}
