//! Why a domain and a problem have no ground task.

/// What passed its limit.
#[derive(Clone, Copy, Debug, PartialEq, Eq)]
pub enum LimitName {
    Bindings,
    Facts,
    Fluents,
    Actions,
    Terms,
    Timed,
    Watches,
    Moments,
}

/// Why there is no ground task: a limit is passed; a static expression, at a place, passes 128 bits; a fluent at a place
/// has no value, or a divisor there is 0; or memory ran out. A place is a byte of the text.
#[derive(Clone, Copy, Debug, PartialEq, Eq)]
pub enum GroundFault {
    Limit(LimitName),
    Wide(u32),
    NoValue(u32),
    Memory,
}
