//! Trajectory constraints (PDDL3).

use crate::formulas::FactTree;
use exact_lin::Fraction;

/// The kinds of trajectory constraints (Gerevini and Long 2005).
#[derive(Clone, Copy, Drop)]
pub enum TrailKind {
    Always,
    Sometime,
    Within,
    AtMostOnce,
    SometimeAfter,
    SometimeBefore,
    AtEnd,
}

/// A trajectory constraint. `second` counts in `SometimeAfter` and `SometimeBefore` alone, `moment` in `Within` alone.
#[derive(Drop)]
pub struct Trail {
    pub kind: TrailKind,
    pub first: FactTree,
    pub second: FactTree,
    pub moment: Fraction,
}
