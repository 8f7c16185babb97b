//! What is wrong in formulas over facts.

ghost use Rattle.std.specs.Prelude.{◌≡◌, IfOk};
ghost use Rattle.std.specs.List.{flat_map};
ghost use Rattle.pddl_names.specs.Offences.{least};
ghost use Rattle.pddl_names.specs.Scopes.{variables_of};
ghost use Rattle.pddl_names.specs.Walks.{formula_offences};

use crate::calls::first_in_atom;
use crate::declarations::Tables;
use crate::offences::{Offence, Phase, earlier};
use crate::scope::Scope;
use crate::sides::first_in_equal;
use crate::typed_lists::{first_in_variables, variables};
use exact_lin::NoMemory;
use pddl_terms::FactForm;
use std::alloc::Global;

/// The first offence in a formula over facts.
#[cycle(formulas)]
pub(crate) fn first_in_formula(
    alloc: Global,
    phase: Phase,
    tables: &Tables,
    scope: &Scope,
    tree: &FactForm,
) -> Result<Option<Offence>, NoMemory>
    ensures { IfOk result (λ o. o ≡ least (formula_offences phase tables.now (variables_of scope.now) tree.now)) }
{
    match tree {
        FactForm::Empty(_) => Ok(None),
        FactForm::Atom(atom) => Ok(first_in_atom(phase, tables, scope, atom)),
        FactForm::Equal(_, left, right) => Ok(first_in_equal(phase, tables, scope, left, right)),
        FactForm::And(_, parts) => {
            Ok(first_in_formulas(alloc, phase, tables, scope, parts.as_slice())?)
        }
        FactForm::Or(_, choices) => {
            Ok(first_in_formulas(alloc, phase, tables, scope, choices.as_slice())?)
        }
        FactForm::Not(_, part) => Ok(first_in_formula(alloc, phase, tables, scope, part.get())?),
        FactForm::Imply(_, left, right) => {
            let first = first_in_formula(alloc, phase, tables, scope, left.get())?;
            let second = first_in_formula(alloc, phase, tables, scope, right.get())?;
            Ok(earlier(first, second))
        }
        FactForm::Exists(_, groups, body) => {
            let groups = groups.as_slice();
            let own = first_in_variables(alloc, phase, tables, groups)?;
            let variables = variables(alloc, groups)?;
            let inner = Scope::Inner(&variables, &*scope);
            let rest = first_in_formula(alloc, phase, tables, &inner, body.get())?;
            Ok(earlier(own, rest))
        }
        FactForm::Forall(_, groups, body) => {
            let groups = groups.as_slice();
            let own = first_in_variables(alloc, phase, tables, groups)?;
            let variables = variables(alloc, groups)?;
            let inner = Scope::Inner(&variables, &*scope);
            let rest = first_in_formula(alloc, phase, tables, &inner, body.get())?;
            Ok(earlier(own, rest))
        }
        FactForm::LeftOut(_) => Ok(None),
    }
}

#[cycle(formulas)]
fn first_in_formulas(
    alloc: Global,
    phase: Phase,
    tables: &Tables,
    scope: &Scope,
    parts: &[FactForm],
) -> Result<Option<Offence>, NoMemory>
    ensures { IfOk result (λ o. o ≡ least (flat_map (formula_offences phase tables.now (variables_of scope.now)) parts.now)) }
{
    let mut found = None;
    for part in parts {
        let other = first_in_formula(alloc, phase, tables, scope, part)?;
        found = earlier(found, other);
    }
    Ok(found)
}
