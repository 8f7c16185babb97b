//! What is wrong in conditions.

ghost use Rattle.std.specs.Prelude.{◌≡◌, IfOk};
ghost use Rattle.pddl_names.specs.Offences.{least};
ghost use Rattle.pddl_names.specs.Scopes.{variables_of};
ghost use Rattle.pddl_names.specs.Walks.{condition_offences, timed_condition_offences};

use crate::calls::first_in_atom;
use crate::declarations::Tables;
use crate::expressions::first_in_expression;
use crate::offences::{Offence, Phase, earlier};
use crate::scope::Scope;
use crate::sides::first_in_equal;
use crate::typed_lists::{first_in_variables, variables};
use exact_lin::NoMemory;
use pddl_terms::{CondTree, TimedCond};
use std::alloc::Global;

/// The first offence in a condition.
pub(crate) fn first_in_condition(
    alloc: Global,
    phase: Phase,
    tables: &Tables,
    scope: &Scope,
    tree: &CondTree,
) -> Result<Option<Offence>, NoMemory>
    ensures { IfOk result (λ o. o ≡ least (condition_offences phase tables.now (variables_of scope.now) tree.now)) }
{
    match tree {
        CondTree::Empty(_) => Ok(None),
        CondTree::And(_, parts) => {
            let mut found = None;
            for part in parts.as_slice() {
                let other = first_in_condition(alloc, phase, tables, scope, part)?;
                found = earlier(found, other);
            }
            Ok(found)
        }
        CondTree::Forall(_, groups, body) => {
            let groups = groups.as_slice();
            let own = first_in_variables(alloc, phase, tables, groups)?;
            let variables = variables(alloc, groups)?;
            let inner = Scope::Inner(&variables, &*scope);
            let rest = first_in_condition(alloc, phase, tables, &inner, body.get())?;
            Ok(earlier(own, rest))
        }
        CondTree::Atom(atom) => Ok(first_in_atom(phase, tables, scope, atom)),
        CondTree::Not(_, part) => Ok(first_in_condition(alloc, phase, tables, scope, part.get())?),
        CondTree::Equal(_, left, right) => Ok(first_in_equal(phase, tables, scope, left, right)),
        CondTree::Compare(_, _, left, right) => {
            let first = first_in_expression(phase, tables, scope, left);
            let second = first_in_expression(phase, tables, scope, right);
            Ok(earlier(first, second))
        }
        CondTree::LeftOut(_) => Ok(None),
    }
}

/// The first offence in a condition of a durative action.
pub(crate) fn first_in_timed_condition(
    alloc: Global,
    phase: Phase,
    tables: &Tables,
    scope: &Scope,
    tree: &TimedCond,
) -> Result<Option<Offence>, NoMemory>
    ensures { IfOk result (λ o. o ≡ least (timed_condition_offences phase tables.now (variables_of scope.now) tree.now)) }
{
    match tree {
        TimedCond::Empty(_) => Ok(None),
        TimedCond::And(_, parts) => {
            let mut found = None;
            for part in parts.as_slice() {
                let other = first_in_timed_condition(alloc, phase, tables, scope, part)?;
                found = earlier(found, other);
            }
            Ok(found)
        }
        TimedCond::AtStart(_, condition) => Ok(first_in_condition(
            alloc, phase, tables, scope, condition,
        )?),
        TimedCond::OverAll(_, condition) => Ok(first_in_condition(
            alloc, phase, tables, scope, condition,
        )?),
        TimedCond::AtEnd(_, condition) => Ok(first_in_condition(
            alloc, phase, tables, scope, condition,
        )?),
        TimedCond::LeftOut(_) => Ok(None),
    }
}
