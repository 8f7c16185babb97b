//! A ground task: its parts, which fit together, with the touches of its snap actions.

ghost use Rattle.std.specs.Prelude.{◌≡◌, ◌<◌, length, map, IfOk};
ghost use Rattle.task_types.specs.Plan.{snap_of};
ghost use Rattle.task_types.specs.Touch.{touches_of};
ghost use Rattle.task_types.specs.WellMade.{IsWellMade};

use crate::actions::{Action, Schema, Snap};
use crate::conditions::Condition;
use crate::constraints::Trail;
use crate::costs::{Metric, Soft};
use crate::parts::{Fact, Fluent, TaskParts};
use crate::tokens::Touch;
use crate::touches::touch_table;
use exact_lin::{Fraction, Id, NoMemory, SnapId, TokenId};
use sqlite_items::Items;
use std::alloc::Global;

/// A ground task: its parts, which fit together, and how each of its snap actions touches its tokens.
#[derive(Drop)]
pub struct Task {
    parts: TaskParts,
    touches: Items<Items<(TokenId, Touch)>>,
    pub ghost well_made: { IsWellMade parts },
    pub ghost touched: { touches ≡ map (touches_of parts) parts.snaps },
}

impl Task {
    /// The task of some parts, with its touches, in time near linear in the sizes of conditions, effects and groups.
    pub fn of_parts(alloc: Global, parts: TaskParts) -> Result<Task, NoMemory>
        requires { IsWellMade parts }
        ensures { IfOk result (λ task. task.parts ≡ parts) }
    {
        let touches = touch_table(alloc, &parts)?;
        Ok(Task { parts, touches })
    }

    /// All that the task says.
    pub fn parts(&self) -> &TaskParts
        ensures { result.now ≡ self.now.parts }
    {
        &self.parts
    }

    /// The names of the objects and constants.
    pub fn objects(&self) -> &[Items<u8>]
        ensures { result.now ≡ self.now.parts.objects }
    {
        self.parts.objects.as_slice()
    }

    /// The actions of the domain, in its order.
    pub fn schemas(&self) -> &[Schema]
        ensures { result.now ≡ self.now.parts.schemas }
    {
        self.parts.schemas.as_slice()
    }

    /// The ground facts.
    pub fn facts(&self) -> &[Fact]
        ensures { result.now ≡ self.now.parts.facts }
    {
        self.parts.facts.as_slice()
    }

    /// The ground fluents.
    pub fn fluents(&self) -> &[Fluent]
        ensures { result.now ≡ self.now.parts.fluents }
    {
        self.parts.fluents.as_slice()
    }

    /// The ground actions.
    pub fn actions(&self) -> &[Action]
        ensures { result.now ≡ self.now.parts.actions }
    {
        self.parts.actions.as_slice()
    }

    /// The snap actions: action by action, a start before its end, then the timed steps.
    pub fn snaps(&self) -> &[Snap]
        ensures { result.now ≡ self.now.parts.snaps }
    {
        self.parts.snaps.as_slice()
    }

    /// The moments of the timed steps, ascending, each with its snap action (PDDL 2.2).
    pub fn timed(&self) -> &[(Fraction, SnapId)]
        ensures { result.now ≡ self.now.parts.timed }
    {
        self.parts.timed.as_slice()
    }

    /// The goal without its preferences.
    pub fn goal(&self) -> &Condition
        ensures { result.now ≡ self.now.parts.goal }
    {
        &self.parts.goal
    }

    /// The hard constraints, which each valid plan meets.
    pub fn hard(&self) -> &[Trail]
        ensures { result.now ≡ self.now.parts.hard }
    {
        self.parts.hard.as_slice()
    }

    /// The preferences and time costs, whose violation or lateness costs.
    pub fn soft(&self) -> &[Soft]
        ensures { result.now ≡ self.now.parts.soft }
    {
        self.parts.soft.as_slice()
    }

    /// The rest of the cost.
    pub fn metric(&self) -> &Metric
        ensures { result.now ≡ self.now.parts.metric }
    {
        &self.parts.metric
    }

    /// How a snap action touches the tokens, in the order of the tokens, of one token a look before a mark before a bend.
    pub fn touches(&self, snap: SnapId) -> &[(TokenId, Touch)]
        requires { snap < length self.now.parts.snaps }
        ensures { result.now ≡ touches_of self.now.parts (snap_of self.now.parts snap) }
    {
        self.touches.as_slice()[snap.number() as usize].as_slice()
    }
}
