//! What is wrong in goals.

ghost use Rattle.std.specs.Prelude.{◌≡◌, IfOk};
ghost use Rattle.pddl_names.specs.Offences.{least};
ghost use Rattle.pddl_names.specs.Scopes.{variables_of};
ghost use Rattle.pddl_names.specs.Walks.{soft_offences, goal_offences};

use crate::conditions::first_in_condition;
use crate::declarations::Tables;
use crate::formulas::first_in_formula;
use crate::offences::{Offence, Phase, earlier};
use crate::scope::Scope;
use crate::sides::first_in_equal;
use crate::typed_lists::{first_in_variables, variables};
use exact_lin::NoMemory;
use pddl_terms::{GoalTree, SoftTree};
use std::alloc::Global;

/// The first offence in what a preference of a goal asks.
pub(crate) fn first_in_soft(
    alloc: Global,
    phase: Phase,
    tables: &Tables,
    scope: &Scope,
    tree: &SoftTree,
) -> Result<Option<Offence>, NoMemory>
    ensures { IfOk result (λ o. o ≡ least (soft_offences phase tables.now (variables_of scope.now) tree.now)) }
{
    match tree {
        SoftTree::Formula(formula) => Ok(first_in_formula(alloc, phase, tables, scope, formula)?),
        SoftTree::Equal(_, left, right) => Ok(first_in_equal(phase, tables, scope, left, right)),
        SoftTree::Comparison(condition) => Ok(first_in_condition(
            alloc, phase, tables, scope, condition,
        )?),
        SoftTree::And(_, parts) => {
            let mut found = None;
            for part in parts.as_slice() {
                let other = first_in_soft(alloc, phase, tables, scope, part)?;
                found = earlier(found, other);
            }
            Ok(found)
        }
    }
}

/// The first offence in a goal.
pub(crate) fn first_in_goal(
    alloc: Global,
    phase: Phase,
    tables: &Tables,
    scope: &Scope,
    tree: &GoalTree,
) -> Result<Option<Offence>, NoMemory>
    ensures { IfOk result (λ o. o ≡ least (goal_offences phase tables.now (variables_of scope.now) tree.now)) }
{
    match tree {
        GoalTree::Condition(condition) => Ok(first_in_condition(
            alloc, phase, tables, scope, condition,
        )?),
        GoalTree::And(_, parts) => {
            let mut found = None;
            for part in parts.as_slice() {
                let other = first_in_goal(alloc, phase, tables, scope, part)?;
                found = earlier(found, other);
            }
            Ok(found)
        }
        GoalTree::Forall(_, groups, body) => {
            let groups = groups.as_slice();
            let own = first_in_variables(alloc, phase, tables, groups)?;
            let variables = variables(alloc, groups)?;
            let inner = Scope::Inner(&variables, &*scope);
            let rest = first_in_goal(alloc, phase, tables, &inner, body.get())?;
            Ok(earlier(own, rest))
        }
        GoalTree::Preference(_, _, soft) => Ok(first_in_soft(alloc, phase, tables, scope, soft)?),
    }
}
