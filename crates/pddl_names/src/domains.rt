//! What is wrong with the names, or with the types of terms, of a domain.

ghost use Rattle.std.specs.Prelude.{◌≡◌, [], ◌∷◌, ◌++◌, IfOk};
ghost use Rattle.std.specs.List.{flat_map};
ghost use Rattle.std.specs.Option.{option_map_or};
ghost use Rattle.pddl_names.specs.Offences.{least};
ghost use Rattle.pddl_names.specs.Scopes.{variables_of};
ghost use Rattle.pddl_names.specs.Declarations.{object_word};
ghost use Rattle.pddl_names.specs.Calls.{types_offences, doubles, names_of};
ghost use Rattle.pddl_names.specs.Walks.{
  condition_offences,
  effect_offences,
  timed_condition_offences,
  timed_effect_offences,
};
ghost use Rattle.pddl_names.specs.Files.{
  listed_offences,
  declared_names,
  declared_offences,
  all_declared_offences,
  body_offences,
  action_offences,
  all_action_offences,
  constraints_offences,
  domain_offences,
  name_offences,
  type_offences_of,
};

use crate::calls::first_in_types;
use crate::conditions::{first_in_condition, first_in_timed_condition};
use crate::constraints::first_in_constraint;
use crate::declarations::{Tables, domain_tables, first_double_of_declared};
use crate::effects::{first_in_effect, first_in_timed_effect};
use crate::expressions::first_in_duration;
use crate::names::Names;
use crate::offences::{Offence, Phase, earlier};
use crate::scope::Scope;
use crate::typed_lists::{double, first_double, first_in_variables, variables};
use exact_lin::NoMemory;
use pddl_terms::{
    ActionBody, ActionDef, ConForm, CondTree, Declared, Domain, EffTree, Group, TimedCond, TimedEff,
};
use std::alloc::Global;

fn first_named_in_list(
    alloc: Global,
    tables: &Tables,
    before: &mut Names,
    groups: &[Group],
) -> Result<Option<Offence>, NoMemory>
    ensures { IfOk result (λ o. o ≡ least (types_offences tables.now groups.now ++ doubles before.old (names_of groups.now))) }
{
    let twice = first_double(alloc, before, groups)?;
    Ok(earlier(first_in_types(tables, groups), twice))
}

/// The first offence in a typed list of types or objects, where names stand before it.
pub(crate) fn first_in_list(
    alloc: Global,
    phase: Phase,
    tables: &Tables,
    before: &mut Names,
    groups: &[Group],
) -> Result<Option<Offence>, NoMemory>
    ensures { IfOk result (λ o. o ≡ least (listed_offences phase tables.now before.old groups.now)) }
{
    match phase {
        Phase::Names => Ok(first_named_in_list(alloc, tables, before, groups)?),
        Phase::Types => Ok(None),
    }
}

fn first_in_declared(
    alloc: Global,
    phase: Phase,
    tables: &Tables,
    declared: &Declared,
) -> Result<Option<Offence>, NoMemory>
    ensures { IfOk result (λ o. o ≡ least (declared_offences phase tables.now declared.now)) }
{
    match declared {
        Declared::Named(_, _, parameters) => {
            Ok(first_in_variables(alloc, phase, tables, parameters.as_slice())?)
        }
        Declared::LeftOut(_) => Ok(None),
    }
}

fn first_in_each_declared(
    alloc: Global,
    phase: Phase,
    tables: &Tables,
    list: &[Declared],
) -> Result<Option<Offence>, NoMemory>
    ensures { IfOk result (λ o. o ≡ least (flat_map (declared_offences phase tables.now) list.now)) }
{
    let mut found = None;
    for item in list {
        let other = first_in_declared(alloc, phase, tables, item)?;
        found = earlier(found, other);
    }
    Ok(found)
}

fn first_declared_twice(alloc: Global, list: &[Declared]) -> Result<Option<Offence>, NoMemory>
    ensures { IfOk result (λ o. o ≡ least (doubles [] (declared_names list.now))) }
{
    let mut seen = Names::new(alloc);
    let found = first_double_of_declared(alloc, &mut seen, list)?;
    Ok(found)
}

fn first_in_all_declared(
    alloc: Global,
    phase: Phase,
    tables: &Tables,
    list: &[Declared],
) -> Result<Option<Offence>, NoMemory>
    ensures { IfOk result (λ o. o ≡ least (all_declared_offences phase tables.now list.now)) }
{
    let own = first_in_each_declared(alloc, phase, tables, list)?;
    match phase {
        Phase::Names => {
            let twice = first_declared_twice(alloc, list)?;
            Ok(earlier(own, twice))
        }
        Phase::Types => Ok(own),
    }
}

fn first_in_some_condition(
    alloc: Global,
    phase: Phase,
    tables: &Tables,
    scope: &Scope,
    condition: &Option<CondTree>,
) -> Result<Option<Offence>, NoMemory>
    ensures { IfOk result (λ o. o ≡ least (option_map_or (condition_offences phase tables.now (variables_of scope.now)) condition.now [])) }
{
    match condition {
        None => Ok(None),
        Some(tree) => Ok(first_in_condition(alloc, phase, tables, scope, tree)?),
    }
}

fn first_in_some_effect(
    phase: Phase,
    tables: &Tables,
    scope: &Scope,
    effect: &Option<EffTree>,
) -> Option<Offence>
    ensures { result ≡ least (option_map_or (effect_offences phase tables.now (variables_of scope.now)) effect.now []) }
{
    match effect {
        None => None,
        Some(tree) => first_in_effect(phase, tables, scope, tree),
    }
}

fn first_in_some_timed_condition(
    alloc: Global,
    phase: Phase,
    tables: &Tables,
    scope: &Scope,
    condition: &Option<TimedCond>,
) -> Result<Option<Offence>, NoMemory>
    ensures { IfOk result (λ o. o ≡ least (option_map_or (timed_condition_offences phase tables.now (variables_of scope.now)) condition.now [])) }
{
    match condition {
        None => Ok(None),
        Some(tree) => Ok(first_in_timed_condition(alloc, phase, tables, scope, tree)?),
    }
}

fn first_in_some_timed_effect(
    phase: Phase,
    tables: &Tables,
    scope: &Scope,
    effect: &Option<TimedEff>,
) -> Option<Offence>
    ensures { result ≡ least (option_map_or (timed_effect_offences phase tables.now (variables_of scope.now)) effect.now []) }
{
    match effect {
        None => None,
        Some(tree) => first_in_timed_effect(phase, tables, scope, tree),
    }
}

fn first_in_body(
    alloc: Global,
    phase: Phase,
    tables: &Tables,
    scope: &Scope,
    body: &ActionBody,
) -> Result<Option<Offence>, NoMemory>
    ensures { IfOk result (λ o. o ≡ least (body_offences phase tables.now (variables_of scope.now) body.now)) }
{
    match body {
        ActionBody::Instant(condition, effect) => {
            let first = first_in_some_condition(alloc, phase, tables, scope, condition)?;
            let second = first_in_some_effect(phase, tables, scope, effect);
            Ok(earlier(first, second))
        }
        ActionBody::Durative(duration, condition, effect) => {
            let bounds = first_in_duration(phase, tables, scope, duration);
            let asked = first_in_some_timed_condition(alloc, phase, tables, scope, condition)?;
            let done = first_in_some_timed_effect(phase, tables, scope, effect);
            Ok(earlier(earlier(bounds, asked), done))
        }
    }
}

fn first_in_action(
    alloc: Global,
    phase: Phase,
    tables: &Tables,
    action: &ActionDef,
) -> Result<Option<Offence>, NoMemory>
    ensures { IfOk result (λ o. o ≡ least (action_offences phase tables.now action.now)) }
{
    let groups = action.parameters.as_slice();
    let own = first_in_variables(alloc, phase, tables, groups)?;
    let parameters = variables(alloc, groups)?;
    let scope = Scope::Inner(&parameters, &Scope::Top);
    let rest = first_in_body(alloc, phase, tables, &scope, &action.body)?;
    Ok(earlier(own, rest))
}

fn first_in_each_action(
    alloc: Global,
    phase: Phase,
    tables: &Tables,
    actions: &[ActionDef],
) -> Result<Option<Offence>, NoMemory>
    ensures { IfOk result (λ o. o ≡ least (flat_map (action_offences phase tables.now) actions.now)) }
{
    let mut found = None;
    for action in actions {
        let other = first_in_action(alloc, phase, tables, action)?;
        found = earlier(found, other);
    }
    Ok(found)
}

fn first_double_of_actions(
    alloc: Global,
    seen: &mut Names,
    actions: &[ActionDef],
) -> Result<Option<Offence>, NoMemory>
    ensures { IfOk result (λ o. o ≡ least (doubles seen.old (flat_map (λ a. a.name ∷ []) actions.now))) }
{
    let mut found = None;
    for action in actions {
        let other = double(alloc, seen, &action.name)?;
        found = earlier(found, other);
    }
    Ok(found)
}

fn first_action_twice(alloc: Global, actions: &[ActionDef]) -> Result<Option<Offence>, NoMemory>
    ensures { IfOk result (λ o. o ≡ least (doubles [] (flat_map (λ a. a.name ∷ []) actions.now))) }
{
    let mut seen = Names::new(alloc);
    let found = first_double_of_actions(alloc, &mut seen, actions)?;
    Ok(found)
}

fn first_in_all_actions(
    alloc: Global,
    phase: Phase,
    tables: &Tables,
    actions: &[ActionDef],
) -> Result<Option<Offence>, NoMemory>
    ensures { IfOk result (λ o. o ≡ least (all_action_offences phase tables.now actions.now)) }
{
    let own = first_in_each_action(alloc, phase, tables, actions)?;
    match phase {
        Phase::Names => {
            let twice = first_action_twice(alloc, actions)?;
            Ok(earlier(own, twice))
        }
        Phase::Types => Ok(own),
    }
}

/// The first offence in the section of constraints, if there is one.
pub(crate) fn first_in_constraints(
    alloc: Global,
    phase: Phase,
    tables: &Tables,
    constraints: &Option<ConForm>,
) -> Result<Option<Offence>, NoMemory>
    ensures { IfOk result (λ o. o ≡ least (constraints_offences phase tables.now constraints.now)) }
{
    match constraints {
        None => Ok(None),
        Some(tree) => Ok(first_in_constraint(alloc, phase, tables, &Scope::Top, tree)?),
    }
}

fn first_in_types_section(
    alloc: Global,
    phase: Phase,
    tables: &Tables,
    types: &[Group],
) -> Result<Option<Offence>, NoMemory>
    ensures { IfOk result (λ o. o ≡ least (listed_offences phase tables.now (object_word ∷ []) types.now)) }
{
    let mut before = Names::new(alloc);
    before.add(alloc, b"object")?;
    let found = first_in_list(alloc, phase, tables, &mut before, types)?;
    Ok(found)
}

fn first_in_constants(
    alloc: Global,
    phase: Phase,
    tables: &Tables,
    constants: &[Group],
) -> Result<Option<Offence>, NoMemory>
    ensures { IfOk result (λ o. o ≡ least (listed_offences phase tables.now [] constants.now)) }
{
    let mut before = Names::new(alloc);
    let found = first_in_list(alloc, phase, tables, &mut before, constants)?;
    Ok(found)
}

fn first_in_domain(
    alloc: Global,
    phase: Phase,
    tables: &Tables,
    domain: &Domain,
) -> Result<Option<Offence>, NoMemory>
    ensures { IfOk result (λ o. o ≡ least (domain_offences phase tables.now domain.now)) }
{
    let type_list = domain.types.as_slice();
    let types = first_in_types_section(alloc, phase, tables, type_list)?;
    let constant_list = domain.constants.as_slice();
    let constants = first_in_constants(alloc, phase, tables, constant_list)?;
    let predicate_list = domain.predicates.as_slice();
    let predicates = first_in_all_declared(alloc, phase, tables, predicate_list)?;
    let function_list = domain.functions.as_slice();
    let functions = first_in_all_declared(alloc, phase, tables, function_list)?;
    let constraints = first_in_constraints(alloc, phase, tables, &domain.constraints)?;
    let action_list = domain.actions.as_slice();
    let actions = first_in_all_actions(alloc, phase, tables, action_list)?;
    let kinds = earlier(types, constants);
    let symbols = earlier(predicates, functions);
    let rules = earlier(constraints, actions);
    let declared = earlier(kinds, symbols);
    Ok(earlier(declared, rules))
}

/// The first name of a domain that isn't declared (`Name`), or is declared twice (`Double`); none exactly where each
/// name is declared once.
pub fn first_name_offence(alloc: Global, domain: &Domain) -> Result<Option<Offence>, NoMemory>
    ensures { IfOk result (λ o. o ≡ least (name_offences domain.now)) }
{
    let tables = domain_tables(alloc, domain)?;
    Ok(first_in_domain(alloc, Phase::Names, &tables, domain)?)
}

/// The first term of a domain whose type doesn't fit (`Sort`), or the first predicate or function with a wrong number
/// of terms (`Arity`), whichever comes first.
pub fn first_type_offence(alloc: Global, domain: &Domain) -> Result<Option<Offence>, NoMemory>
    ensures { IfOk result (λ o. o ≡ least (type_offences_of domain.now)) }
{
    let tables = domain_tables(alloc, domain)?;
    Ok(first_in_domain(alloc, Phase::Types, &tables, domain)?)
}
