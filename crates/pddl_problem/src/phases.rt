//! What is wrong with a problem behind its shape.

ghost use Rattle.std.specs.Prelude.{◌≡◌, IfOk};
ghost use Rattle.pddl_names.specs.Offences.{least};
ghost use Rattle.pddl_problem.specs.Readings.{form_offences, problem_offence};

use exact_lin::NoMemory;
use metric_sign::metric_sign_offence;
use pddl_forms::{problem_form_offence, problem_limit_offence};
use pddl_names::{Offence, earlier, first_problem_name_offence, first_problem_type_offence};
use pddl_terms::{Domain, Problem};
use std::alloc::Global;

/// The offence of least place in its forms, or of a term of its metric that rewards a plan.
fn form_offence(
    alloc: Global,
    domain: &Domain,
    problem: &Problem,
) -> Result<Option<Offence>, NoMemory>
    ensures { IfOk result (λ found. found ≡ least (form_offences domain.now problem.now)) }
{
    let wrong = problem_form_offence(alloc, domain, problem)?;
    let rewarding = metric_sign_offence(alloc, domain, problem)?;
    Ok(earlier(wrong, rewarding))
}

/// The offence of least place in the first phase that has any: names, types, forms or limits.
pub(crate) fn first_offence(
    alloc: Global,
    domain: &Domain,
    problem: &Problem,
) -> Result<Option<Offence>, NoMemory>
    ensures { IfOk result (λ found. found ≡ problem_offence domain.now problem.now) }
{
    if let Some(offence) = first_problem_name_offence(alloc, domain, problem)? {
        return Ok(Some(offence));
    }
    if let Some(offence) = first_problem_type_offence(alloc, domain, problem)? {
        return Ok(Some(offence));
    }
    if let Some(offence) = form_offence(alloc, domain, problem)? {
        return Ok(Some(offence));
    }
    Ok(problem_limit_offence(domain, problem))
}
