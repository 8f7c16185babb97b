//! What is wrong with a domain behind its shape.

ghost use Rattle.std.specs.Prelude.{◌≡◌, IfOk};
ghost use Rattle.pddl_domain.specs.Readings.{domain_offence};

use exact_lin::NoMemory;
use pddl_forms::{domain_form_offence, domain_limit_offence};
use pddl_names::{Offence, first_name_offence, first_type_offence};
use pddl_terms::Domain;
use std::alloc::Global;

/// The offence of least place in the first phase that has any: names, types, forms or limits.
pub(crate) fn first_offence(alloc: Global, domain: &Domain) -> Result<Option<Offence>, NoMemory>
    ensures { IfOk result (λ found. found ≡ domain_offence domain.now) }
{
    if let Some(offence) = first_name_offence(alloc, domain)? {
        return Ok(Some(offence));
    }
    if let Some(offence) = first_type_offence(alloc, domain)? {
        return Ok(Some(offence));
    }
    if let Some(offence) = domain_form_offence(alloc, domain)? {
        return Ok(Some(offence));
    }
    Ok(domain_limit_offence(domain))
}
