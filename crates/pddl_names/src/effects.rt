//! What is wrong in effects.

ghost use Rattle.std.specs.Prelude.{◌≡◌};
ghost use Rattle.pddl_names.specs.Offences.{least};
ghost use Rattle.pddl_names.specs.Scopes.{variables_of};
ghost use Rattle.pddl_names.specs.Walks.{
  called_atom_offences,
  called_fluent_offences,
  rate_offences,
  effect_offences,
  timed_effect_offences,
};

use crate::calls::{first_in_atom, first_in_fluent};
use crate::declarations::Tables;
use crate::expressions::first_in_expression;
use crate::offences::{Offence, Phase, earlier};
use crate::scope::Scope;
use pddl_terms::{Call, EffTree, RateTree, TimedEff};

/// The first offence of a fact that an effect deletes.
pub(crate) fn first_in_called_atom(
    phase: Phase,
    tables: &Tables,
    scope: &Scope,
    called: &Call,
) -> Option<Offence>
    ensures { result ≡ least (called_atom_offences phase tables.now (variables_of scope.now) called.now) }
{
    match called {
        Call::Named(atom) => first_in_atom(phase, tables, scope, atom),
        Call::LeftOut(_) => None,
    }
}

/// The first offence of a fluent that an effect changes.
pub(crate) fn first_in_called_fluent(
    phase: Phase,
    tables: &Tables,
    scope: &Scope,
    called: &Call,
) -> Option<Offence>
    ensures { result ≡ least (called_fluent_offences phase tables.now (variables_of scope.now) called.now) }
{
    match called {
        Call::Named(fluent) => first_in_fluent(phase, tables, scope, fluent),
        Call::LeftOut(_) => None,
    }
}

fn first_in_rate(phase: Phase, tables: &Tables, scope: &Scope, rate: &RateTree) -> Option<Offence>
    ensures { result ≡ least (rate_offences phase tables.now (variables_of scope.now) rate.now) }
{
    match rate {
        RateTree::One(_) => None,
        RateTree::Times(_, expression) => first_in_expression(phase, tables, scope, expression),
        RateTree::LeftOut(_) => None,
    }
}

/// The first offence in an effect.
pub(crate) fn first_in_effect(
    phase: Phase,
    tables: &Tables,
    scope: &Scope,
    tree: &EffTree,
) -> Option<Offence>
    ensures { result ≡ least (effect_offences phase tables.now (variables_of scope.now) tree.now) }
{
    match tree {
        EffTree::Empty(_) => None,
        EffTree::And(_, parts) => {
            let mut found = None;
            for part in parts.as_slice() {
                let other = first_in_effect(phase, tables, scope, part);
                found = earlier(found, other);
            }
            found
        }
        EffTree::Add(atom) => first_in_atom(phase, tables, scope, atom),
        EffTree::Delete(_, called) => first_in_called_atom(phase, tables, scope, called),
        EffTree::Change(_, _, called, expression) => {
            let first = first_in_called_fluent(phase, tables, scope, called);
            let second = first_in_expression(phase, tables, scope, expression);
            earlier(first, second)
        }
        EffTree::LeftOut(_) => None,
    }
}

/// The first offence in an effect of a durative action.
pub(crate) fn first_in_timed_effect(
    phase: Phase,
    tables: &Tables,
    scope: &Scope,
    tree: &TimedEff,
) -> Option<Offence>
    ensures { result ≡ least (timed_effect_offences phase tables.now (variables_of scope.now) tree.now) }
{
    match tree {
        TimedEff::Empty(_) => None,
        TimedEff::And(_, parts) => {
            let mut found = None;
            for part in parts.as_slice() {
                let other = first_in_timed_effect(phase, tables, scope, part);
                found = earlier(found, other);
            }
            found
        }
        TimedEff::AtStart(_, effect) => first_in_effect(phase, tables, scope, effect),
        TimedEff::AtEnd(_, effect) => first_in_effect(phase, tables, scope, effect),
        TimedEff::Rate(_, _, called, rate) => {
            let first = first_in_called_fluent(phase, tables, scope, called);
            let second = first_in_rate(phase, tables, scope, rate);
            earlier(first, second)
        }
        TimedEff::LeftOut(_) => None,
    }
}
