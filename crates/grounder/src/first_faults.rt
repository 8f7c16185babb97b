//! The first of the faults that have a place.

ghost use Rattle.std.specs.Prelude.{◌≡◌, ◌≤◌, true, IfOk};
ghost use Rattle.std.specs.List.{list_all};
ghost use Rattle.ground_world.specs.Counts.{goal_count, part_limit};
ghost use Rattle.ground_world.specs.Leaves.{goal_preferences};
ghost use Rattle.ground_world.specs.Readings.{unknowns_of};
ghost use Rattle.ground_world.specs.Shown.{world_of};
ghost use Rattle.grounder.specs.Reach.{preference_fits};
ghost use Rattle.grounder.specs.Units.{problem_units};
ghost use Rattle.grounder.specs.FaultSteps.{placed, place_fault, unit_fault};
ghost use Rattle.grounder.specs.declared.faults.GroundFault.TheVariants as fault;

use crate::faults::GroundFault;
use crate::limits::first_of;
use crate::units::unit_faults;
use exact_lin::NoMemory;
use ground_world::{MetricNames, Tables, goal_preferences};
use pddl_terms::Problem;
use std::alloc::Global;

// The fault of a reckoning that is too wide at a place, if there is one.
fn wide_at(place: Option<u32>) -> Option<GroundFault>
    ensures { result ≡ placed fault.Wide place }
{
    match place {
        Some(place) => Some(GroundFault::Wide(place)),
        None => None,
    }
}

// The fault of what has no value at a place, if there is one.
fn none_at(place: Option<u32>) -> Option<GroundFault>
    ensures { result ≡ placed fault.NoValue place }
{
    match place {
        Some(place) => Some(GroundFault::NoValue(place)),
        None => None,
    }
}

// The first fault of the least places.
fn place_fault(actions: Option<u32>, wide: Option<u32>, none: Option<u32>) -> Option<GroundFault>
    ensures { result ≡ place_fault actions wide none }
{
    first_of(wide_at(actions), first_of(wide_at(wide), none_at(none)))
}

/// The first fault that has a place, where this is the least place of what is too wide in actions.
pub fn unit_fault(
    alloc: Global,
    tables: &Tables,
    names: &MetricNames,
    problem: &Problem,
    actions: Option<u32>,
) -> Result<Option<GroundFault>, NoMemory>
    requires goal { goal_count (world_of tables.now) problem.now.goal ≤ part_limit }
    requires preferences { list_all (preference_fits (world_of tables.now)) (goal_preferences problem.now.goal) ≡ true }
    ensures { IfOk result (λ f. f ≡ unit_fault (world_of tables.now) actions
        (problem_units (world_of tables.now) (unknowns_of names.now) problem.now.goal (goal_preferences problem.now.goal) problem.now.metric)) }
{
    let leaves = goal_preferences(alloc, &problem.goal)?;
    let found = unit_faults(
        alloc,
        tables,
        names,
        &problem.goal,
        leaves.as_slice(),
        &problem.metric,
    )?;
    Ok(place_fault(actions, found.wide, found.none))
}
