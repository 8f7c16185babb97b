//! What is wrong in constraints.

ghost use Rattle.std.specs.Prelude.{◌≡◌, ◌++◌, IfOk};
ghost use Rattle.pddl_names.specs.Offences.{least};
ghost use Rattle.pddl_names.specs.Scopes.{variables_of};
ghost use Rattle.pddl_names.specs.Walks.{
  formula_offences,
  trajectory_offences,
  constraint_offences,
};

use crate::declarations::Tables;
use crate::formulas::first_in_formula;
use crate::offences::{Offence, Phase, earlier};
use crate::scope::Scope;
use crate::typed_lists::{first_in_variables, variables};
use exact_lin::NoMemory;
use pddl_terms::{ConForm, FactForm, Trajectory};
use std::alloc::Global;

fn first_in_both(
    alloc: Global,
    phase: Phase,
    tables: &Tables,
    scope: &Scope,
    one: &FactForm,
    other: &FactForm,
) -> Result<Option<Offence>, NoMemory>
    ensures { IfOk result (λ o. o ≡ least (formula_offences phase tables.now (variables_of scope.now) one.now ++ formula_offences phase tables.now (variables_of scope.now) other.now)) }
{
    let first = first_in_formula(alloc, phase, tables, scope, one)?;
    let second = first_in_formula(alloc, phase, tables, scope, other)?;
    Ok(earlier(first, second))
}

/// The first offence in a trajectory constraint.
fn first_in_trajectory(
    alloc: Global,
    phase: Phase,
    tables: &Tables,
    scope: &Scope,
    tree: &Trajectory,
) -> Result<Option<Offence>, NoMemory>
    ensures { IfOk result (λ o. o ≡ least (trajectory_offences phase tables.now (variables_of scope.now) tree.now)) }
{
    match tree {
        Trajectory::Always(_, formula) => {
            Ok(first_in_formula(alloc, phase, tables, scope, formula)?)
        }
        Trajectory::Sometime(_, formula) => {
            Ok(first_in_formula(alloc, phase, tables, scope, formula)?)
        }
        Trajectory::Within(_, _, formula) => {
            Ok(first_in_formula(alloc, phase, tables, scope, formula)?)
        }
        Trajectory::AtMostOnce(_, formula) => {
            Ok(first_in_formula(alloc, phase, tables, scope, formula)?)
        }
        Trajectory::SometimeAfter(_, one, other) => {
            Ok(first_in_both(alloc, phase, tables, scope, one, other)?)
        }
        Trajectory::SometimeBefore(_, one, other) => {
            Ok(first_in_both(alloc, phase, tables, scope, one, other)?)
        }
        Trajectory::AtEnd(_, formula) => {
            Ok(first_in_formula(alloc, phase, tables, scope, formula)?)
        }
        Trajectory::LeftOut(_) => Ok(None),
    }
}

/// The first offence in constraints.
pub(crate) fn first_in_constraint(
    alloc: Global,
    phase: Phase,
    tables: &Tables,
    scope: &Scope,
    tree: &ConForm,
) -> Result<Option<Offence>, NoMemory>
    ensures { IfOk result (λ o. o ≡ least (constraint_offences phase tables.now (variables_of scope.now) tree.now)) }
{
    match tree {
        ConForm::And(_, parts) => {
            let mut found = None;
            for part in parts.as_slice() {
                let other = first_in_constraint(alloc, phase, tables, scope, part)?;
                found = earlier(found, other);
            }
            Ok(found)
        }
        ConForm::Forall(_, groups, body) => {
            let groups = groups.as_slice();
            let own = first_in_variables(alloc, phase, tables, groups)?;
            let variables = variables(alloc, groups)?;
            let inner = Scope::Inner(&variables, &*scope);
            let rest = first_in_constraint(alloc, phase, tables, &inner, body.get())?;
            Ok(earlier(own, rest))
        }
        ConForm::Hard(trajectory) => Ok(first_in_trajectory(
            alloc, phase, tables, scope, trajectory,
        )?),
        ConForm::Preference(_, _, trajectory) => Ok(first_in_trajectory(
            alloc, phase, tables, scope, trajectory,
        )?),
    }
}
