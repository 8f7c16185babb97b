//! Faults in the goal, in its preferences and in the metric: fluents without a value, divisors of value 0, and undefined
//! reckonings.

ghost use Rattle.std.specs.Prelude.{◌≡◌, ◌≤◌, ◌∷◌, ◌++◌, [], List, map, true, IfOk};
ghost use Rattle.std.specs.List.{flat_map, list_all};
ghost use Rattle.ground_world.specs.World.{World, either};
ghost use Rattle.ground_world.specs.Conditions.{tests_in};
ghost use Rattle.ground_world.specs.Counts.{goal_count, part_limit};
ghost use Rattle.ground_world.specs.Expressions.{wide_places, zero_divisors, mentioned, reckoned};
ghost use Rattle.ground_world.specs.Leaves.{leaf_envs};
ghost use Rattle.ground_world.specs.Readings.{unknowns_of};
ghost use Rattle.ground_world.specs.Shown.{world_of, parts_of};
ghost use Rattle.ground_world.specs.ShownLeaves.{preferences_of};
ghost use Rattle.grounder.specs.Answer.{Unit, least, unit_of_tests};
ghost use Rattle.grounder.specs.Terms.{goal_parts};
ghost use Rattle.grounder.specs.Reach.{preference_fits};
ghost use Rattle.grounder.specs.ShownTerms.{preference_leaf};
ghost use Rattle.grounder.specs.ShownUnits.{AreLeast};
ghost use Rattle.grounder.specs.Units.{preference_units, metric_unit, problem_units};

use crate::binding_flaws::push_of_parts;
use crate::fault_places::FaultPlaces;
use crate::flaws::{least_place, least_wide, least_zero_divisor, lower};
use crate::goals::push_goal_parts;
use crate::mentions::push_in_parts;
use crate::preferences::{compared_parts, preference_parts};
use crate::quantifying::{binding, nested};
use exact_lin::NoMemory;
use ground_world::{
    CondPart, Flaw, GoalPreference, MetricNames, Reading, Tables, push_unvalued, reckon,
};
use pddl_terms::{GoalTree, Metric};
use sqlite_items::Items;
use std::alloc::Global;

// No faults.
fn no_faults() -> FaultPlaces
    ensures { (w : World) → AreLeast w [] result }
{
    FaultPlaces {
        wide: None,
        none: None,
    }
}

// The lesser places of two.
fn both(one: FaultPlaces, other: FaultPlaces) -> FaultPlaces
    ensures { (w : World) (us vs : List Unit) → AreLeast w us one → AreLeast w vs other → AreLeast w (us ++ vs) result }
{
    FaultPlaces {
        wide: lower(&one.wide, &other.wide),
        none: lower(&one.none, &other.none),
    }
}

// The places of a unit: those of the fluents without a value, or, where there are none, those of its flaws.
fn unit_places(lacking: &[u32], flaws: &[Flaw]) -> FaultPlaces
    ensures wide { result.wide ≡ least (either (wide_places flaws.now) (λ p. []) (least lacking.now)) }
    ensures none { result.none ≡ least (either (zero_divisors flaws.now) (λ p. lacking.now) (least lacking.now)) }
{
    match least_place(lacking) {
        Some(place) => FaultPlaces {
            wide: None,
            none: Some(place),
        },
        None => FaultPlaces {
            wide: least_wide(flaws),
            none: least_zero_divisor(flaws),
        },
    }
}

// The faults of the comparisons among some parts of conditions.
fn test_faults(alloc: Global, tables: &Tables, parts: &[CondPart]) -> Result<FaultPlaces, NoMemory>
    ensures { IfOk result (λ found. AreLeast (world_of tables.now)
        (unit_of_tests (world_of tables.now) (flat_map tests_in (parts_of parts.now)) ∷ []) found) }
{
    let mut lacking = Items::new(alloc);
    push_in_parts(alloc, tables, parts, &mut lacking)?;
    let mut flaws = Items::new(alloc);
    push_of_parts(alloc, tables, parts, &mut flaws)?;
    Ok(unit_places(lacking.as_slice(), flaws.as_slice()))
}

// The faults of the goal without its preferences.
fn goal_faults<'a>(
    alloc: Global,
    tables: &'a Tables,
    goal: &'a GoalTree,
) -> Result<FaultPlaces, NoMemory>
    requires { goal_count (world_of tables.now) goal.now ≤ part_limit }
    ensures { IfOk result (λ found. AreLeast (world_of tables.now)
        (unit_of_tests (world_of tables.now) (flat_map tests_in (goal_parts (world_of tables.now) [] goal.now)) ∷ []) found) }
{
    let mut parts = Items::new(alloc);
    push_goal_parts(alloc, tables, &[], goal, &mut parts)?;
    test_faults(alloc, tables, parts.as_slice())
}

// The faults of the instances of a preference.
fn instance_faults<'a>(
    alloc: Global,
    tables: &'a Tables,
    leaf: &GoalPreference<'a>,
) -> Result<FaultPlaces, NoMemory>
    requires { preference_fits (world_of tables.now) (preference_leaf leaf.now) ≡ true }
    ensures { IfOk result (λ found. AreLeast (world_of tables.now)
        (preference_units (world_of tables.now) (preference_leaf leaf.now)) found) }
{
    let quantified = nested(alloc, tables, leaf.around.as_slice())?;
    let parts = preference_parts(alloc, tables, leaf.body)?;
    let mut found = no_faults();
    for number in 0..quantified.count {
        let env = binding(alloc, &[], &quantified, number)?;
        let compared = compared_parts(alloc, tables, env.as_slice(), parts.as_slice())?;
        found = both(found, test_faults(alloc, tables, compared.as_slice())?);
    }
    Ok(found)
}

// The faults of the preferences of the goal.
fn preference_faults<'a>(
    alloc: Global,
    tables: &'a Tables,
    leaves: &[GoalPreference<'a>],
) -> Result<FaultPlaces, NoMemory>
    requires { list_all (preference_fits (world_of tables.now)) (preferences_of leaves.now) ≡ true }
    ensures { IfOk result (λ found. AreLeast (world_of tables.now)
        (flat_map (preference_units (world_of tables.now)) (preferences_of leaves.now)) found) }
{
    let mut found = no_faults();
    for leaf in leaves {
        found = both(found, instance_faults(alloc, tables, leaf)?);
    }
    Ok(found)
}

// The faults of a metric.
fn metric_faults(
    alloc: Global,
    tables: &Tables,
    names: &MetricNames,
    metric: &Metric,
) -> Result<FaultPlaces, NoMemory>
    ensures { IfOk result (λ found. AreLeast (world_of tables.now)
        (metric_unit (world_of tables.now) (unknowns_of names.now) metric.now ∷ []) found) }
{
    let mut lacking = Items::new(alloc);
    push_unvalued(alloc, tables, &[], &metric.expression, &mut lacking)?;
    let reading = Reading {
        tables,
        names,
        env: &[],
    };
    let mut flaws = Items::new(alloc);
    let _value = reckon(alloc, &reading, &metric.expression, &mut flaws)?;
    Ok(unit_places(lacking.as_slice(), flaws.as_slice()))
}

// The faults of the metric, if there is one.
fn objective_faults(
    alloc: Global,
    tables: &Tables,
    names: &MetricNames,
    metric: &Option<Metric>,
) -> Result<FaultPlaces, NoMemory>
    ensures { IfOk result (λ found. AreLeast (world_of tables.now)
        (either [] (λ m. metric_unit (world_of tables.now) (unknowns_of names.now) m ∷ []) metric.now) found) }
{
    match metric {
        Some(metric) => metric_faults(alloc, tables, names, metric),
        None => Ok(no_faults()),
    }
}

/// The faults of the goal, of the instances of its preferences, and of the metric.
pub fn unit_faults<'a>(
    alloc: Global,
    tables: &'a Tables,
    names: &MetricNames,
    goal: &'a GoalTree,
    leaves: &[GoalPreference<'a>],
    metric: &Option<Metric>,
) -> Result<FaultPlaces, NoMemory>
    requires goal { goal_count (world_of tables.now) goal.now ≤ part_limit }
    requires leaves { list_all (preference_fits (world_of tables.now)) (preferences_of leaves.now) ≡ true }
    ensures { IfOk result (λ found. AreLeast (world_of tables.now)
        (problem_units (world_of tables.now) (unknowns_of names.now) goal.now (preferences_of leaves.now) metric.now) found) }
{
    let own = goal_faults(alloc, tables, goal)?;
    let preferences = preference_faults(alloc, tables, leaves)?;
    let objective = objective_faults(alloc, tables, names, metric)?;
    Ok(both(own, both(preferences, objective)))
}
