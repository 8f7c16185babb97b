//! Whether what is looked at is within its limits: the outer bindings of the actions, the preferences and the
//! constraints, and the literals and comparisons of one of them.

ghost use Rattle.std.specs.Prelude.{◌≡◌, IfOk};
ghost use Rattle.std.specs.List.{list_all};
ghost use Rattle.ground_world.specs.Counts as counts;
ghost use Rattle.ground_world.specs.Counting.{action_fits, cost_fits};
ghost use Rattle.ground_world.specs.Leaves.{cost_of};
ghost use Rattle.ground_world.specs.Shown.{world_of};

use crate::counts::body_count;
use crate::formula_counts::formula_count;
use crate::goal_counts::goal_count;
use crate::leaf_limits::{preferences_fit, some_constraints_fit};
use crate::outer_bindings::{fit_limits, inner_count};
use crate::tables::Tables;
use exact_lin::NoMemory;
use pddl_terms::{ActionDef, Domain, GoalTree, Problem, TimeCost};
use std::alloc::Global;

// Whether an action is within the limits.
fn action_fits(alloc: Global, tables: &Tables, action: &ActionDef) -> Result<bool, NoMemory>
    ensures { IfOk result (λ fit. fit ≡ action_fits (world_of tables.now) action.now) }
{
    let outer = inner_count(alloc, tables, 1, action.parameters.as_slice())?;
    let parts = body_count(alloc, tables, &action.body)?;
    Ok(fit_limits(outer, parts))
}

// Whether the actions are within the limits.
fn actions_fit(alloc: Global, tables: &Tables, actions: &[ActionDef]) -> Result<bool, NoMemory>
    ensures { IfOk result (λ fit. fit ≡ list_all (action_fits (world_of tables.now)) actions.now) }
{
    for action in actions {
        if !action_fits(alloc, tables, action)? {
            return Ok(false);
        }
    }
    Ok(true)
}

// Whether the conditions of a goal are within the limits.
fn goal_fits(alloc: Global, tables: &Tables, goal: &GoalTree) -> Result<bool, NoMemory>
    ensures { IfOk result (λ fit. fit ≡ counts.fit_limits 1 (counts.goal_count (world_of tables.now) goal.now)) }
{
    let parts = goal_count(alloc, tables, goal)?;
    Ok(fit_limits(1, parts))
}

// Whether a time cost is within the limits.
fn cost_fits(alloc: Global, tables: &Tables, cost: &TimeCost) -> Result<bool, NoMemory>
    ensures { IfOk result (λ fit. fit ≡ list_all (cost_fits (world_of tables.now)) (cost_of cost.now)) }
{
    match cost {
        TimeCost::Named(_, _, formula, _) => {
            let parts = formula_count(alloc, tables, formula)?;
            Ok(fit_limits(1, parts))
        }
        TimeCost::LeftOut(_) => Ok(true),
    }
}

// Whether the time costs are within the limits.
fn costs_fit(alloc: Global, tables: &Tables, costs: &[TimeCost]) -> Result<bool, NoMemory>
    ensures { IfOk result (λ fit. fit ≡ list_all (λ c. list_all (cost_fits (world_of tables.now)) (cost_of c)) costs.now) }
{
    for cost in costs {
        if !cost_fits(alloc, tables, cost)? {
            return Ok(false);
        }
    }
    Ok(true)
}

/// Whether all that is looked at is within its limits: of each action, preference and constraint at most 1,048,576
/// outer bindings and, where there is one, at most 65,536 literals and comparisons in each; and as many in the
/// conditions of the goal and in the formula of a time cost. All are counted with their quantifiers written out, before
/// anything is dropped. The time is that of reading the text once.
pub fn bindings_fit(
    alloc: Global,
    tables: &Tables,
    domain: &Domain,
    problem: &Problem,
) -> Result<bool, NoMemory>
    ensures { IfOk result (λ fit. fit ≡ counts.bindings_fit (world_of tables.now) domain.now problem.now) }
{
    if !actions_fit(alloc, tables, domain.actions.as_slice())? {
        return Ok(false);
    }
    if !preferences_fit(alloc, tables, 1, &problem.goal)? {
        return Ok(false);
    }
    if !some_constraints_fit(alloc, tables, &domain.constraints)? {
        return Ok(false);
    }
    if !some_constraints_fit(alloc, tables, &problem.constraints)? {
        return Ok(false);
    }
    if !goal_fits(alloc, tables, &problem.goal)? {
        return Ok(false);
    }
    costs_fit(alloc, tables, problem.time_costs.as_slice())
}
