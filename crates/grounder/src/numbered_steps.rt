//! All steps of the task: those of its actions, then those of its timed literals.

ghost use Rattle.std.specs.Prelude.{◌≡◌, ◌≤◌, ◌+◌, ◌++◌, length, map, true, nat_le, IfOk};
ghost use Rattle.std.specs.List.{enumerate_from, list_all};
ghost use Rattle.ground_world.specs.Counts.{body_count, part_limit};
ghost use Rattle.ground_world.specs.Shown.{world_of};
ghost use Rattle.grounder.specs.ShownGrounding.{ground_of};
ghost use Rattle.grounder.specs.ShownInstances.{all_of};
ghost use Rattle.grounder.specs.Task.{action_snaps, moments, numbered_actions, timed_snap, timings};

use crate::actions::{GroundActions, ground_actions};
use crate::grounding::Grounding;
use crate::instances::Instance;
use crate::moments::{moments, push_timed_snaps, timed_numbers};
use crate::timings::timings;
use exact_lin::{Fraction, NoMemory, SnapId};
use pddl_terms::InitEntry;
use sqlite_items::Items;
use std::alloc::Global;
use task_types::{Action, Snap};

/// The actions of a task, its snap actions, and the moments of the timed ones with their numbers.
#[derive(Drop)]
pub struct NumberedSteps {
    pub actions: Items<Action>,
    pub snaps: Items<Snap>,
    pub timed: Items<(Fraction, SnapId)>,
}

// The steps of the timed literals behind those of the actions.
fn with_timed(
    alloc: Global,
    grounding: &Grounding,
    made: GroundActions,
    entries: &[InitEntry],
) -> Result<NumberedSteps, NoMemory>
    requires few { length made.snaps ≤ 16384 }
    requires timed { length (timings (world_of grounding.now.tables) entries.now) ≤ 1048576 }
    ensures actions { IfOk result (λ s. s.actions ≡ made.actions) }
    ensures snaps { let g = ground_of grounding.now in let ls = timings g.world entries.now in
        IfOk result (λ s. s.snaps ≡ made.snaps ++ map (timed_snap g ls) (moments ls)) }
    ensures timed { let ls = timings (world_of grounding.now.tables) entries.now in
        IfOk result (λ s. s.timed ≡ map (λ x. (x.1, length made.snaps + x.0)) (enumerate_from 0 (moments ls))) }
{
    let GroundActions { actions, mut snaps } = made;
    let literals = timings(alloc, &grounding.tables, entries)?;
    let moments = moments(alloc, literals.as_slice())?;
    let timed = timed_numbers(alloc, snaps.len(), moments.as_slice())?;
    push_timed_snaps(
        alloc,
        grounding,
        literals.as_slice(),
        moments.as_slice(),
        &mut snaps,
    )?;
    Ok(NumberedSteps {
        actions,
        snaps,
        timed,
    })
}

/// The actions of some bindings, and all snap actions: theirs, then those of the timed literals among the entries of the
/// first state.
pub fn numbered_steps(
    alloc: Global,
    grounding: &Grounding,
    instances: &[Instance],
    entries: &[InitEntry],
) -> Result<NumberedSteps, NoMemory>
    requires fit { let w = world_of grounding.now.tables in
        list_all (λ i. nat_le (body_count w i.action.body) part_limit) (all_of instances.now) ≡ true }
    requires few { length instances.now ≤ 8192 }
    requires timed { length (timings (world_of grounding.now.tables) entries.now) ≤ 1048576 }
    ensures actions { IfOk result (λ s. s.actions ≡ numbered_actions (ground_of grounding.now) 0 (all_of instances.now)) }
    ensures snaps { let g = ground_of grounding.now in let ls = timings g.world entries.now in
        IfOk result (λ s. s.snaps ≡ action_snaps g (all_of instances.now) ++ map (timed_snap g ls) (moments ls)) }
    ensures timed { let g = ground_of grounding.now in let ls = timings g.world entries.now in
        IfOk result (λ s. s.timed
        ≡ map (λ x. (x.1, length (action_snaps g (all_of instances.now)) + x.0)) (enumerate_from 0 (moments ls))) }
{
    let made = ground_actions(alloc, grounding, instances)?;
    with_timed(alloc, grounding, made, entries)
}
