//! Why a plan file or an ordering file was refused.

use ordering::OrderFault;

/// What is wrong with a line, in the order in which it is asked.
#[derive(Clone, Copy, Debug, PartialEq, Eq)]
pub enum LineKind {
    /// It isn't of the form of its file, or a durative action has no bracket.
    Shape,

    /// A word that should be a number is none.
    Number,

    /// An action or an object isn't there, or the arguments don't fit the action.
    Name,

    /// Grounding dropped the action.
    Unground,

    /// The ordering refuses what the line puts, or isn't closed.
    Order(OrderFault),

    /// There are too many lines.
    Limit,

    /// Its end is past 128 bits.
    Wide,
}

/// Why a file of lines wasn't read: its least line that is refused, and the first kind on it.
#[derive(Clone, Copy, Debug, PartialEq, Eq)]
pub enum LineFault {
    At(u32, LineKind),

    /// There was no memory left.
    Memory,
}
