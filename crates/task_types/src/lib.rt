//! The ground task, and what plans over it mean: the types, the definitions in `specs/` that every later contract cites, and the laws that show them right.
#![tactic(auto)]

mod actions;
mod conditions;
mod constraints;
mod costs;
mod formulas;
pub mod laws;
mod orderings;
mod parts;
mod plans;
mod snapshot;
mod task;
#[cfg(test)]
mod tests;
mod tokens;
mod touches;

pub use actions::{Action, Bound, Schema, Snap, SnapKind};
pub use conditions::{Amount, Condition, Effect, Literal};
pub use constraints::{Trail, TrailKind};
pub use costs::{LateCost, Metric, Piece, Soft};
pub use formulas::FactTree;
pub use orderings::{Blocked, Link};
pub use parts::{Fact, Fluent, Rules, TaskParts};
pub use plans::{PlanLine, Reason};
pub use snapshot::Snapshot;
pub use task::Task;
pub use tokens::{Token, Touch};

// What workers share is sent and shared between threads.
fn all_cross_threads() {
    crosses_threads::<Rules>();
    crosses_threads::<Condition>();
    crosses_threads::<Snap>();
    crosses_threads::<Action>();
    crosses_threads::<FactTree>();
    crosses_threads::<Trail>();
    crosses_threads::<Soft>();
    crosses_threads::<Metric>();
    crosses_threads::<TaskParts>();
    crosses_threads::<Task>();
}

fn crosses_threads<T: Send + Sync>() {}
