//! Schemas, ground actions and their snap actions.

use crate::conditions::{Condition, Effect};
use exact_lin::{ActionId, FluentId, Form, Fraction, SnapId};
use sqlite_items::Items;

/// An action of the domain: for each parameter the places of the objects that fit it, ascending.
#[derive(Drop)]
pub struct Schema {
    pub name: Items<u8>,
    pub durative: bool,
    pub params: Items<Items<u32>>,
}

/// A bound of a duration, which is at least or at most the form. It is read in the state before the start, or before the end where `at_end` is set.
#[derive(Drop)]
pub struct Bound {
    pub at_least: bool,
    pub at_end: bool,
    pub form: Form<FluentId, Fraction>,
}

/// A ground action: durative where it has an end. `args` are the places of its arguments among the objects.
#[derive(Drop)]
pub struct Action {
    pub name: Items<u8>,
    pub args: Items<u32>,
    pub start: SnapId,
    pub end: Option<SnapId>,
    pub bounds: Items<Bound>,
    pub over_all: Condition,
}

/// What a snap action is: the start or the end of a durative action, an instantaneous action, or the timed initial literals of one moment (PDDL 2.2).
#[derive(Clone, Copy, Drop)]
pub enum SnapKind {
    Start,
    End,
    Instant,
    Timed,
}

/// A snap action: what happens at one moment (COLIN 2012). Of a start, `rates` are what its action adds to fluents per unit of time while it runs.
#[derive(Drop)]
pub struct Snap {
    pub kind: SnapKind,
    pub action: Option<ActionId>,
    pub condition: Condition,
    pub effect: Effect,
    pub rates: Items<(FluentId, Fraction)>,
}
