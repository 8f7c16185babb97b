//! The forms of whole domains and problems.

ghost use Rattle.std.specs.Prelude.{◌≡◌, ◌++◌, None, IfOk};
ghost use Rattle.std.specs.List.{flat_map};
ghost use Rattle.pddl_forms.specs.Offences.{least_with};
ghost use Rattle.pddl_names.specs.Offences.{least};
ghost use Rattle.pddl_forms.specs.Conditions.{condition_offences, timed_condition_offences};
ghost use Rattle.pddl_forms.specs.Effects.{effect_offences, timed_effect_offences};
ghost use Rattle.pddl_forms.specs.Formulas.{constraint_offences};
ghost use Rattle.pddl_forms.specs.Functions.{functions_of};
ghost use Rattle.pddl_forms.specs.Requirements.{requirements_offences};
ghost use Rattle.pddl_forms.specs.TimeCosts.{time_cost_offences};
ghost use Rattle.pddl_forms.specs.TypedLists.{typed_offences};
ghost use Rattle.pddl_forms.specs.Forms.{some_offences, sections_offences, body_offences, action_offences, metric_offences, declarations_offences, domain_forms_with, domain_forms, facts_offences, wishes_offences, problem_forms_with, problem_forms};

use crate::conditions::{least_of_condition, least_of_duration, least_of_timed_condition};
use crate::effects::{least_of_effect, least_of_timed_effect};
use crate::expressions::least_of_expression;
use crate::formulas::least_of_constraint;
use crate::functions::{Functions, functions_of};
use crate::goals::least_of_goal;
use crate::offences::met;
use crate::requirements::least_of_requirements;
use crate::time_costs::least_of_time_cost;
use crate::timed_literals::least_of_init;
use crate::typed_lists::{least_of_all_declared, least_of_typed};
use exact_lin::NoMemory;
use pddl_names::Offence;
use pddl_terms::{
    ActionBody, ActionDef, ConForm, CondTree, Domain, EffTree, Kind, Metric, Problem, TimeCost,
    TimedCond, TimedEff,
};
use std::alloc::Global;

#[tactic(auto, using(crate::proofs::Least::least_of))]
fn least_of_sections(places: &[u32], found: Option<Offence>) -> Option<Offence>
    ensures { result ≡ least_with found (sections_offences places.now) }
{
    let mut found = found;
    for at in places {
        found = met(found, Kind::LeftOut, *at);
    }
    found
}

#[tactic(auto, using(crate::proofs::Least::least_of))]
fn least_of_some_condition(
    functions: &Functions,
    condition: &Option<CondTree>,
    found: Option<Offence>,
) -> Option<Offence>
    ensures { result
        ≡ least_with found (some_offences (condition_offences functions.now) condition.now) }
{
    match condition {
        Some(condition) => least_of_condition(functions, condition, found),
        None => found,
    }
}

#[tactic(auto, using(crate::proofs::Least::least_of))]
fn least_of_some_effect(
    functions: &Functions,
    effect: &Option<EffTree>,
    found: Option<Offence>,
) -> Option<Offence>
    ensures { result ≡ least_with found (some_offences (effect_offences functions.now) effect.now) }
{
    match effect {
        Some(effect) => least_of_effect(functions, effect, found),
        None => found,
    }
}

#[tactic(auto, using(crate::proofs::Least::least_of))]
fn least_of_some_timed_condition(
    functions: &Functions,
    condition: &Option<TimedCond>,
    found: Option<Offence>,
) -> Option<Offence>
    ensures { result
        ≡ least_with found (some_offences (timed_condition_offences functions.now) condition.now) }
{
    match condition {
        Some(condition) => least_of_timed_condition(functions, condition, found),
        None => found,
    }
}

#[tactic(auto, using(crate::proofs::Least::least_of))]
fn least_of_some_timed_effect(
    functions: &Functions,
    effect: &Option<TimedEff>,
    found: Option<Offence>,
) -> Option<Offence>
    ensures { result
        ≡ least_with found (some_offences (timed_effect_offences functions.now) effect.now) }
{
    match effect {
        Some(effect) => least_of_timed_effect(functions, effect, found),
        None => found,
    }
}

#[tactic(auto, using(crate::proofs::Least::least_of))]
fn least_of_some_constraint(
    functions: &Functions,
    constraint: &Option<ConForm>,
    found: Option<Offence>,
) -> Option<Offence>
    ensures { result
        ≡ least_with found (some_offences (constraint_offences functions.now) constraint.now) }
{
    match constraint {
        Some(constraint) => least_of_constraint(functions, constraint, found),
        None => found,
    }
}

#[tactic(auto, using(crate::proofs::Least::least_of))]
fn least_of_some_metric(
    functions: &Functions,
    metric: &Option<Metric>,
    found: Option<Offence>,
) -> Option<Offence>
    ensures { result ≡ least_with found (some_offences (metric_offences functions.now) metric.now) }
{
    match metric {
        Some(metric) => least_of_expression(functions, &metric.expression, found),
        None => found,
    }
}

#[tactic(auto, using(crate::proofs::Least::least_of))]
fn least_of_body(
    functions: &Functions,
    body: &ActionBody,
    found: Option<Offence>,
) -> Option<Offence>
    ensures { result ≡ least_with found (body_offences functions.now body.now) }
{
    match body {
        ActionBody::Instant(condition, effect) => {
            let found = least_of_some_condition(functions, condition, found);
            least_of_some_effect(functions, effect, found)
        }
        ActionBody::Durative(duration, condition, effect) => {
            let found = least_of_duration(functions, duration, found);
            let found = least_of_some_timed_condition(functions, condition, found);
            least_of_some_timed_effect(functions, effect, found)
        }
    }
}

#[tactic(auto, using(crate::proofs::Least::least_of))]
fn least_of_action(
    functions: &Functions,
    action: &ActionDef,
    found: Option<Offence>,
) -> Option<Offence>
    ensures { result ≡ least_with found (action_offences functions.now action.now) }
{
    let found = least_of_typed(action.parameters.as_slice(), found);
    least_of_body(functions, &action.body, found)
}

#[tactic(auto, using(crate::proofs::Least::least_of))]
fn least_of_actions(
    functions: &Functions,
    actions: &[ActionDef],
    found: Option<Offence>,
) -> Option<Offence>
    ensures { result ≡ least_with found (flat_map (action_offences functions.now) actions.now) }
{
    let mut found = found;
    for action in actions {
        found = least_of_action(functions, action, found);
    }
    found
}

#[tactic(auto, using(crate::proofs::Least::least_of))]
fn least_of_declarations(domain: &Domain) -> Option<Offence>
    ensures { result ≡ least_with None (declarations_offences domain.now) }
{
    let found = least_of_requirements(domain.requirements.as_slice(), None);
    let found = least_of_typed(domain.types.as_slice(), found);
    let found = least_of_typed(domain.constants.as_slice(), found);
    let found = least_of_all_declared(domain.predicates.as_slice(), found);
    least_of_all_declared(domain.functions.as_slice(), found)
}

#[tactic(auto, using(crate::proofs::Least::least_of), unfolding(crate::specs::Forms::domain_forms_with))]
fn least_of_parts(functions: &Functions, domain: &Domain) -> Option<Offence>
    ensures { result ≡ least_with None (domain_forms_with functions.now domain.now) }
{
    let found = least_of_declarations(domain);
    let found = least_of_some_constraint(functions, &domain.constraints, found);
    let found = least_of_actions(functions, domain.actions.as_slice(), found);
    least_of_sections(domain.left_out.as_slice(), found)
}

fn least_of_domain(functions: &Functions, domain: &Domain) -> Option<Offence>
    ensures { result ≡ least (domain_forms_with functions.now domain.now) }
{
    least_of_parts(functions, domain)
}

/// The least place at which something is wrong in the forms of a domain: a strict or negated comparison, an expression or
/// rate that isn't linear, a list that is left out, or a requirement that isn't known. `None` where nothing is.
pub fn domain_form_offence(alloc: Global, domain: &Domain) -> Result<Option<Offence>, NoMemory>
    ensures { IfOk result (λ found. found ≡ least (domain_forms domain.now)) }
{
    let functions = functions_of(alloc, domain)?;
    Ok(least_of_domain(&functions, domain))
}

#[tactic(auto, using(crate::proofs::Least::least_of))]
fn least_of_time_costs(
    functions: &Functions,
    costs: &[TimeCost],
    found: Option<Offence>,
) -> Option<Offence>
    ensures { result ≡ least_with found (flat_map (time_cost_offences functions.now) costs.now) }
{
    let mut found = found;
    for cost in costs {
        found = least_of_time_cost(functions, cost, found);
    }
    found
}

#[tactic(auto, using(crate::proofs::Least::least_of))]
fn least_of_wishes(
    functions: &Functions,
    problem: &Problem,
    found: Option<Offence>,
) -> Option<Offence>
    ensures { result ≡ least_with found (wishes_offences functions.now problem.now) }
{
    let found = least_of_goal(functions, &problem.goal, found);
    let found = least_of_some_constraint(functions, &problem.constraints, found);
    let found = least_of_time_costs(functions, problem.time_costs.as_slice(), found);
    least_of_some_metric(functions, &problem.metric, found)
}

#[tactic(auto, using(crate::proofs::Least::least_of))]
fn least_behind_facts(
    functions: &Functions,
    problem: &Problem,
    found: Option<Offence>,
) -> Option<Offence>
    ensures { result ≡ least_with found
        (wishes_offences functions.now problem.now ++ sections_offences problem.now.left_out) }
{
    let found = least_of_wishes(functions, problem, found);
    least_of_sections(problem.left_out.as_slice(), found)
}

#[tactic(auto, using(crate::proofs::Least::least_of))]
fn least_before_init(problem: &Problem) -> Option<Offence>
    ensures { result ≡ least_with None
        (requirements_offences problem.now.requirements ++ typed_offences problem.now.objects) }
{
    let found = least_of_requirements(problem.requirements.as_slice(), None);
    least_of_typed(problem.objects.as_slice(), found)
}

fn least_of_facts(alloc: Global, problem: &Problem) -> Result<Option<Offence>, NoMemory>
    ensures { IfOk result (λ found. found ≡ least_with None (facts_offences problem.now)) }
{
    let found = least_before_init(problem);
    let found = least_of_init(alloc, problem.init.as_slice(), found)?;
    Ok(found)
}

fn least_of_problem(
    alloc: Global,
    functions: &Functions,
    problem: &Problem,
) -> Result<Option<Offence>, NoMemory>
    ensures { IfOk result (λ found. found ≡ least (problem_forms_with functions.now problem.now)) }
{
    let found = least_of_facts(alloc, problem)?;
    Ok(least_behind_facts(functions, problem, found))
}

/// The least place at which something is wrong in the forms of a problem of the domain: as in a domain, or timed literals
/// that don't lie above 0 or contradict each other, or a time cost that doesn't rise. `None` where nothing is.
pub fn problem_form_offence(
    alloc: Global,
    domain: &Domain,
    problem: &Problem,
) -> Result<Option<Offence>, NoMemory>
    ensures { IfOk result (λ found. found ≡ least (problem_forms domain.now problem.now)) }
{
    let functions = functions_of(alloc, domain)?;
    let found = least_of_problem(alloc, &functions, problem)?;
    Ok(found)
}

fn least_of_metric(functions: &Functions, metric: &Option<Metric>) -> Option<Offence>
    ensures { result ≡ least (some_offences (metric_offences functions.now) metric.now) }
{
    least_of_some_metric(functions, metric, None)
}

/// The least place at which a metric of a problem of the domain isn't linear or holds a list that is left out. The signs
/// of a metric's terms are asked only where there is no such place.
pub fn metric_form_offence(
    alloc: Global,
    domain: &Domain,
    metric: &Option<Metric>,
) -> Result<Option<Offence>, NoMemory>
    ensures { IfOk result (λ found.
        found ≡ least (some_offences (metric_offences (functions_of domain.now)) metric.now)) }
{
    let functions = functions_of(alloc, domain)?;
    Ok(least_of_metric(&functions, metric))
}
