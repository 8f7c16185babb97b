//! The parts of a ground task, and the rules by which plans are judged.

use crate::actions::{Action, Schema, Snap};
use crate::conditions::Condition;
use crate::constraints::Trail;
use crate::costs::{Metric, Soft};
use exact_lin::{Fraction, SnapId};
use sqlite_items::Items;

/// The distance of steps that may not happen at one moment, and the latest time of a plan step. Both are above 0.
#[derive(Clone, Copy, Drop)]
pub struct Rules {
    pub epsilon: Fraction,
    pub horizon: Fraction,
}

/// A ground fact, and whether it holds at first.
#[derive(Drop)]
pub struct Fact {
    pub name: Items<u8>,
    pub args: Items<u32>,
    pub holds: bool,
}

/// A ground fluent, and its initial value.
#[derive(Drop)]
pub struct Fluent {
    pub name: Items<u8>,
    pub args: Items<u32>,
    pub value: Fraction,
}

/// All that a ground task says. Snap actions are numbered action by action, a start before its end, then the timed steps.
#[derive(Drop)]
pub struct TaskParts {
    pub objects: Items<Items<u8>>,
    pub schemas: Items<Schema>,
    pub facts: Items<Fact>,
    pub fluents: Items<Fluent>,
    pub actions: Items<Action>,
    pub snaps: Items<Snap>,
    pub timed: Items<(Fraction, SnapId)>,
    pub goal: Condition,
    pub hard: Items<Trail>,
    pub soft: Items<Soft>,
    pub metric: Metric,
}
