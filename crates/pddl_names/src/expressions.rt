//! What is wrong in expressions and durations, and in the sides of an `=`.

ghost use Rattle.std.specs.Prelude.{◌≡◌};
ghost use Rattle.std.specs.List.{flat_map};
ghost use Rattle.pddl_names.specs.Offences.{least};
ghost use Rattle.pddl_names.specs.Scopes.{variables_of};
ghost use Rattle.pddl_names.specs.Walks.{expression_offences, duration_offences};

use crate::calls::{first_in_fluent, named};
use crate::declarations::Tables;
use crate::offences::{Offence, Phase, earlier};
use crate::scope::Scope;
use pddl_terms::{DurTree, ExprTree};

/// The first offence in an expression.
#[cycle(expressions)]
pub(crate) fn first_in_expression(
    phase: Phase,
    tables: &Tables,
    scope: &Scope,
    tree: &ExprTree,
) -> Option<Offence>
    ensures { result ≡ least (expression_offences phase tables.now (variables_of scope.now) tree.now) }
{
    match tree {
        ExprTree::Number(_, _) => None,
        ExprTree::Fluent(fluent) => first_in_fluent(phase, tables, scope, fluent),
        ExprTree::Duration(_) => None,
        ExprTree::Sum(_, parts) => first_in_expressions(phase, tables, scope, parts.as_slice()),
        ExprTree::Product(_, factors) => {
            first_in_expressions(phase, tables, scope, factors.as_slice())
        }
        ExprTree::Negative(_, part) => first_in_expression(phase, tables, scope, part.get()),
        ExprTree::Difference(_, left, right) => {
            let first = first_in_expression(phase, tables, scope, left.get());
            let second = first_in_expression(phase, tables, scope, right.get());
            earlier(first, second)
        }
        ExprTree::Quotient(_, left, right) => {
            let first = first_in_expression(phase, tables, scope, left.get());
            let second = first_in_expression(phase, tables, scope, right.get());
            earlier(first, second)
        }
        ExprTree::LeftOut(_) => None,
        ExprTree::TotalTime(_) => None,
        ExprTree::Violated(_, name) => named(
            phase,
            tables.preferences.has(name.bytes.as_slice()),
            name,
        ),
        ExprTree::TimeCost(_, name) => named(
            phase,
            tables.time_costs.has(name.bytes.as_slice()),
            name,
        ),
    }
}

#[cycle(expressions)]
fn first_in_expressions(
    phase: Phase,
    tables: &Tables,
    scope: &Scope,
    parts: &[ExprTree],
) -> Option<Offence>
    ensures { result ≡ least (flat_map (expression_offences phase tables.now (variables_of scope.now)) parts.now) }
{
    let mut found = None;
    for part in parts {
        let other = first_in_expression(phase, tables, scope, part);
        found = earlier(found, other);
    }
    found
}

/// The first offence in the bounds of a duration.
pub(crate) fn first_in_duration(
    phase: Phase,
    tables: &Tables,
    scope: &Scope,
    tree: &DurTree,
) -> Option<Offence>
    ensures { result ≡ least (duration_offences phase tables.now (variables_of scope.now) tree.now) }
{
    match tree {
        DurTree::And(_, parts) => {
            let mut found = None;
            for part in parts.as_slice() {
                let other = first_in_duration(phase, tables, scope, part);
                found = earlier(found, other);
            }
            found
        }
        DurTree::AtStart(_, part) => first_in_duration(phase, tables, scope, part.get()),
        DurTree::AtEnd(_, part) => first_in_duration(phase, tables, scope, part.get()),
        DurTree::Bound(_, _, expression) => first_in_expression(phase, tables, scope, expression),
        DurTree::LeftOut(_) => None,
    }
}
