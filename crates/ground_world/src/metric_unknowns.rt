//! The names that stand for unknowns in a metric.

ghost use Rattle.std.specs.Prelude.{◌≡◌, [], ◌<◌, ◌^◌, length, map, IfOk, OnOk};
ghost use Rattle.std.specs.List.{flat_map};
ghost use Rattle.pddl_names.specs.Declarations.{with_new};
ghost use Rattle.ground_world.specs.Leaves.{preference_name, costs, unknowns};
ghost use Rattle.ground_world.specs.Readings.{unknowns_of};
ghost use Rattle.ground_world.specs.ShownLeaves.{text_of};

use crate::building::few;
use crate::leaves::{
    ConstraintLeaf, CostLeaf, GoalPreference, constraints, costs, goal_preferences,
};
use crate::readings::MetricNames;
use exact_lin::NoMemory;
use pddl_names::Names;
use pddl_terms::{Domain, Problem};
use std::alloc::Global;

// Adds the names of the preferences of a goal.
fn add_preferences(
    alloc: Global,
    names: &mut Names,
    leaves: &[GoalPreference],
) -> Result<(), NoMemory>
    ensures { OnOk result (names.new ≡ with_new names.old (map (λ l. l.name.now) leaves.now)) }
{
    for leaf in leaves {
        names.add(alloc, leaf.name)?;
    }
    Ok(())
}

// Adds the name of a constraint, if it has one.
fn add_constraint(alloc: Global, names: &mut Names, leaf: &ConstraintLeaf) -> Result<(), NoMemory>
    ensures { OnOk result (names.new ≡ with_new names.old (preference_name (text_of leaf.now.name))) }
{
    match leaf.name {
        Some(name) => names.add(alloc, name),
        None => Ok(()),
    }
}

// Adds the names of the preferences among some constraints.
fn add_constraints(
    alloc: Global,
    names: &mut Names,
    leaves: &[ConstraintLeaf],
) -> Result<(), NoMemory>
    ensures { OnOk result (names.new ≡ with_new names.old (flat_map (λ l. preference_name (text_of l.name)) leaves.now)) }
{
    for leaf in leaves {
        add_constraint(alloc, names, leaf)?;
    }
    Ok(())
}

// Adds the names of time costs.
fn add_costs(alloc: Global, names: &mut Names, leaves: &[CostLeaf]) -> Result<(), NoMemory>
    ensures { OnOk result (names.new ≡ with_new names.old (map (λ l. l.name.now) leaves.now)) }
{
    for leaf in leaves {
        names.add(alloc, leaf.name)?;
    }
    Ok(())
}

// The names of the preferences, those of the goal first.
fn preference_names(alloc: Global, domain: &Domain, problem: &Problem) -> Result<Names, NoMemory>
    ensures value { IfOk result (λ names. names ≡ (unknowns domain.now problem.now).preferences) }
    ensures few { IfOk result (λ names. length names < 2 ^ 30) }
{
    let of_goal = goal_preferences(alloc, &problem.goal)?;
    let trails = constraints(alloc, domain, problem)?;
    few(
        of_goal
            .as_slice()
            .len()
            .saturating_add(trails.as_slice().len()),
    )?;
    let mut names = Names::new(alloc);
    add_preferences(alloc, &mut names, of_goal.as_slice())?;
    add_constraints(alloc, &mut names, trails.as_slice())?;
    Ok(names)
}

// The names of the time costs.
fn cost_names(alloc: Global, problem: &Problem) -> Result<Names, NoMemory>
    ensures value { IfOk result (λ names. names ≡ with_new [] (map (λ c. c.name) (costs problem.now))) }
    ensures few { IfOk result (λ names. length names < 2 ^ 30) }
{
    let leaves = costs(alloc, problem)?;
    few(leaves.as_slice().len())?;
    let mut names = Names::new(alloc);
    add_costs(alloc, &mut names, leaves.as_slice())?;
    Ok(names)
}

/// The names of the preferences, those of the goal first, and of the time costs of a problem, each once; more of them
/// than 30 bits can number are refused as too large for memory.
pub fn metric_names(
    alloc: Global,
    domain: &Domain,
    problem: &Problem,
) -> Result<MetricNames, NoMemory>
    ensures { IfOk result (λ names. unknowns_of names ≡ unknowns domain.now problem.now) }
{
    let preferences = preference_names(alloc, domain, problem)?;
    let costs = cost_names(alloc, problem)?;
    Ok(MetricNames { preferences, costs })
}
