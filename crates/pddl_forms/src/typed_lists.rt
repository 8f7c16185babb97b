//! What is left out in typed lists and declarations.

ghost use Rattle.std.specs.Prelude.{◌≡◌};
ghost use Rattle.std.specs.List.{flat_map};
ghost use Rattle.pddl_forms.specs.Offences.{least_with};
ghost use Rattle.pddl_forms.specs.TypedLists.{type_offences, typed_offences, declared_offences};

use crate::offences::met;
use pddl_names::Offence;
use pddl_terms::{Declared, Group, Kind, TypeName};

#[tactic(auto, using(crate::proofs::Least::least_of))]
fn least_of_type(of: &TypeName, found: Option<Offence>) -> Option<Offence>
    ensures { result ≡ least_with found (type_offences of.now) }
{
    match of {
        TypeName::Object => found,
        TypeName::Named(_) => found,
        TypeName::LeftOut(at) => met(found, Kind::LeftOut, *at),
    }
}

/// The least of what was found before and of what is left out in a typed list.
#[tactic(auto, using(crate::proofs::Least::least_of))]
pub(crate) fn least_of_typed(groups: &[Group], found: Option<Offence>) -> Option<Offence>
    ensures { result ≡ least_with found (typed_offences groups.now) }
{
    let mut found = found;
    for group in groups {
        found = least_of_type(&group.of, found);
    }
    found
}

#[tactic(auto, using(crate::proofs::Least::least_of))]
fn least_of_declared(declared: &Declared, found: Option<Offence>) -> Option<Offence>
    ensures { result ≡ least_with found (declared_offences declared.now) }
{
    match declared {
        Declared::Named(_, _, parameters) => least_of_typed(parameters.as_slice(), found),
        Declared::LeftOut(at) => met(found, Kind::LeftOut, *at),
    }
}

/// The same of declarations of predicates or functions.
#[tactic(auto, using(crate::proofs::Least::least_of))]
pub(crate) fn least_of_all_declared(
    declared: &[Declared],
    found: Option<Offence>,
) -> Option<Offence>
    ensures { result ≡ least_with found (flat_map declared_offences declared.now) }
{
    let mut found = found;
    for each in declared {
        found = least_of_declared(each, found);
    }
    found
}
