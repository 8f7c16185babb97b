//! What is wrong in the sides of an `=`.

ghost use Rattle.std.specs.Prelude.{◌≡◌, ◌++◌, is_some};
ghost use Rattle.pddl_names.specs.Offences.{least};
ghost use Rattle.pddl_names.specs.Scopes.{variables_of};
ghost use Rattle.pddl_names.specs.Declarations.{value_of};
ghost use Rattle.pddl_names.specs.Walks.{
  term_side_offences,
  number_side_offences,
  equal_offences,
};

use crate::calls::{first_in_call, named};
use crate::declarations::Tables;
use crate::equality::is_equality;
use crate::expressions::first_in_expression;
use crate::offences::{Offence, Phase, earlier};
use crate::scope::{Scope, sort_in};
use pddl_terms::{Name, Side};

fn is_object(tables: &Tables, name: &Name) -> bool
    ensures { result ≡ is_some (value_of tables.now.objects name.now.bytes) }
{
    tables.objects.get(name.bytes.as_slice()).is_some()
}

fn is_in_scope(scope: &Scope, name: &Name) -> bool
    ensures { result ≡ is_some (value_of (variables_of scope.now) name.now.bytes) }
{
    sort_in(scope, name.bytes.as_slice()).is_some()
}

fn first_in_term_side(phase: Phase, tables: &Tables, scope: &Scope, side: &Side) -> Option<Offence>
    ensures { result ≡ least (term_side_offences phase tables.now (variables_of scope.now) side.now) }
{
    match side {
        Side::Variable(name) => named(phase, is_in_scope(scope, name), name),
        Side::Bare(name) => named(phase, is_object(tables, name), name),
        Side::Expression(_) => None,
    }
}

fn first_in_number_side(
    phase: Phase,
    tables: &Tables,
    scope: &Scope,
    side: &Side,
) -> Option<Offence>
    ensures { result ≡ least (number_side_offences phase tables.now (variables_of scope.now) side.now) }
{
    match side {
        Side::Variable(_) => None,
        Side::Bare(name) => {
            first_in_call(phase, tables, &tables.functions, scope, name.at, name, &[])
        }
        Side::Expression(expression) => first_in_expression(phase, tables, scope, expression),
    }
}

fn first_in_term_sides(
    phase: Phase,
    tables: &Tables,
    scope: &Scope,
    left: &Side,
    right: &Side,
) -> Option<Offence>
    ensures { result ≡ least (term_side_offences phase tables.now (variables_of scope.now) left.now
        ++ term_side_offences phase tables.now (variables_of scope.now) right.now) }
{
    let first = first_in_term_side(phase, tables, scope, left);
    let second = first_in_term_side(phase, tables, scope, right);
    earlier(first, second)
}

fn first_in_number_sides(
    phase: Phase,
    tables: &Tables,
    scope: &Scope,
    left: &Side,
    right: &Side,
) -> Option<Offence>
    ensures { result ≡ least (number_side_offences phase tables.now (variables_of scope.now) left.now
        ++ number_side_offences phase tables.now (variables_of scope.now) right.now) }
{
    let first = first_in_number_side(phase, tables, scope, left);
    let second = first_in_number_side(phase, tables, scope, right);
    earlier(first, second)
}

/// The first offence in the sides of an `=`, which is an equality of terms or a comparison of numbers.
pub(crate) fn first_in_equal(
    phase: Phase,
    tables: &Tables,
    scope: &Scope,
    left: &Side,
    right: &Side,
) -> Option<Offence>
    ensures { result ≡ least (equal_offences phase tables.now (variables_of scope.now) left.now right.now) }
{
    if is_equality(&tables.function_names, left, right) {
        first_in_term_sides(phase, tables, scope, left, right)
    } else {
        first_in_number_sides(phase, tables, scope, left, right)
    }
}
