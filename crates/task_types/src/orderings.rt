//! How two steps of an ordering hang together, and what blocks an ordering.

/// What two steps of an ordering ask of their times: nothing, no earlier, or later by epsilon.
#[derive(Clone, Copy, Drop)]
pub enum Link {
    Free,
    Weak,
    Apart,
}

/// Where no times of an ordering can help, since a literal fails along its list: a step and a literal of its condition; a step, a literal of an over-all condition that runs after it, and the step that started that action; a literal of the goal; a hard constraint. All count from 1.
#[derive(Clone, Copy, Drop)]
pub enum Blocked {
    AtStart(u32, u32),
    AtEnd(u32, u32),
    OverAll(u32, u32, u32),
    Goal(u32),
    Constraint(u32),
}
