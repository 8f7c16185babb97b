//! What an action says in flat lists, whatever its binding.

ghost use Rattle.std.specs.Prelude.{◌≡◌, IfOk};
ghost use Rattle.ground_world.specs.Changes.{body_changes};
ghost use Rattle.ground_world.specs.Conditions.{body_bounds};
ghost use Rattle.ground_world.specs.ShownBounds.{bounds_of};
ghost use Rattle.ground_world.specs.ShownChanges.{changes_of};

use exact_lin::NoMemory;
use ground_world::{DurationBound, StagedChange, action_bounds, action_changes};
use pddl_terms::ActionBody;
use sqlite_items::Items;
use std::alloc::Global;

/// The bounds of an action's duration, and its changes, each in the order of the text.
#[derive(Drop)]
pub struct Outline<'a> {
    pub bounds: Items<DurationBound<'a>>,
    pub changes: Items<StagedChange<'a>>,
}

/// The bounds and changes of an action.
pub fn outline_of<'a>(alloc: Global, body: &'a ActionBody) -> Result<Outline<'a>, NoMemory>
    ensures bounds { IfOk result (λ o. bounds_of o.bounds ≡ body_bounds body.now) }
    ensures changes { IfOk result (λ o. changes_of o.changes ≡ body_changes body.now) }
{
    let bounds = action_bounds(alloc, body)?;
    let changes = action_changes(alloc, body)?;
    Ok(Outline { bounds, changes })
}
