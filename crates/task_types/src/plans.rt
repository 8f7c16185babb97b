//! Plans, and the reasons why one is not valid.

use exact_lin::{ActionId, Fraction};

/// A line of a timed plan: an action, when it starts and, of a durative action, how long it takes. `line` is its number in the text that it came from.
#[derive(Clone, Copy, Drop)]
pub struct PlanLine {
    pub action: ActionId,
    pub at: Fraction,
    pub duration: Option<Fraction>,
    pub line: u32,
}

/// Why a plan isn't valid, and where. Lines go by their field `line`, constraints count from 1; `OverAll` has the segment in which the condition of the line fails.
#[derive(Clone, Copy, Drop)]
pub enum Reason {
    Time(u32),
    Duration(u32),
    Clash(u32, u32),
    ClashTimed(u32, Fraction),
    Start(u32),
    End(u32),
    OverAll(u32, Fraction, Fraction),
    Goal,
    Constraint(u32),
}
