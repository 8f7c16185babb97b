//! The reader of domains.

ghost use Rattle.std.specs.Prelude.{◌<◌, ◌^◌, length, None};
ghost use Rattle.pddl_terms.specs.Files.{ReadsFile};
ghost use Rattle.pddl_domain.specs.Domains.{wrong_domain, domain_told};
ghost use Rattle.pddl_domain.specs.Readings.{ReadsDomain};

use crate::domains::domain_tree;
use crate::phases::first_offence;
use pddl_terms::shape::first_wrong;
use pddl_terms::{Domain, DomainLine, Kind, Line, PddlFault, Rest, tokens_of};
use std::alloc::Global;

/// Reads a domain as far as its shape says: the tree that the grammar derives, or the first fault of its tokens, or
/// `Shape` at the first byte at which no accepted text can go on.
pub(crate) fn read_shape(alloc: Global, text: &[u8]) -> Result<Domain, PddlFault>
    requires { length text.now < 2 ^ 32 }
    ensures { ReadsFile wrong_domain domain_told (λ _. None) text.now result }
{
    let forms = match tokens_of(alloc, text) {
        Ok(forms) => forms,
        Err(fault) => return Err(fault),
    };
    let line = Line::Domain(DomainLine::File);
    if let Some(place) = first_wrong(&forms, 0, Rest::One(line)) {
        return Err(PddlFault::At(Kind::Shape, place));
    }
    match domain_tree(alloc, &forms) {
        Ok(domain) => Ok(domain),
        Err(_) => Err(PddlFault::Memory),
    }
}

/// Reads a domain: the tree that the grammar derives, where nothing is wrong with its names, types, forms and limits.
/// Else the first fault of the tokens; or `Shape` at the first byte at which no accepted text can go on; or what is wrong
/// in the first of those four phases that finds anything, at its least byte. A call may also fail for want of memory.
pub fn read_domain(alloc: Global, text: &[u8]) -> Result<Domain, PddlFault>
    requires { length text.now < 2 ^ 32 }
    ensures { ReadsDomain text.now result }
{
    let domain = match read_shape(alloc, text) {
        Ok(domain) => domain,
        Err(fault) => return Err(fault),
    };
    match first_offence(alloc, &domain) {
        Ok(None) => Ok(domain),
        Ok(Some(offence)) => Err(PddlFault::At(offence.kind, offence.place)),
        Err(_) => Err(PddlFault::Memory),
    }
}
