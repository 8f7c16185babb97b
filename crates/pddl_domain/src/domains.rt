//! The domain of a text.

ghost use Rattle.std.specs.Prelude.{◌≡◌, IfOk};
ghost use lib.Chars.{codes};
ghost use Rattle.pddl_terms.specs.Content.{content_at};
ghost use Rattle.pddl_terms.specs.Sections.{section, heading, left_out, names_of, groups_of};
ghost use Rattle.pddl_domain.specs.Domains.{declarations_of, domain_of, domain_tree};
ghost use Rattle.pddl_domain.specs.Actions.{actions};

use crate::actions::actions;
use crate::declarations::declarations_of;
use exact_lin::NoMemory;
use pddl_terms::items::{Item, item_at, next};
use pddl_terms::sections::{constraints_of, groups_of, heading, left_out, names_of};
use pddl_terms::{ActionDef, Declared, Domain, Group, Name};
use sexpr_text::Forms;
use sqlite_items::Items;
use std::alloc::Global;

/// The name of the domain, and its requirements.
fn head(alloc: Global, forms: &Forms, from: usize) -> Result<(Name, Items<Name>), NoMemory>
    ensures name { IfOk result (λ pair. pair.0 ≡ heading (content_at forms.now from)) }
    ensures requirements { IfOk result (λ pair. pair.1 ≡ names_of (section (codes ":requirements") (content_at forms.now from))) }
{
    let name = heading(alloc, forms, from)?;
    let requirements = names_of(alloc, forms, from, b":requirements")?;
    Ok((name, requirements))
}

/// Its types and constants.
fn objects(
    alloc: Global,
    forms: &Forms,
    from: usize,
) -> Result<(Items<Group>, Items<Group>), NoMemory>
    ensures types { IfOk result (λ pair. pair.0 ≡ groups_of (section (codes ":types") (content_at forms.now from))) }
    ensures constants { IfOk result (λ pair. pair.1 ≡ groups_of (section (codes ":constants") (content_at forms.now from))) }
{
    let types = groups_of(alloc, forms, from, b":types")?;
    let constants = groups_of(alloc, forms, from, b":constants")?;
    Ok((types, constants))
}

/// Its predicates and functions.
fn declared(
    alloc: Global,
    forms: &Forms,
    from: usize,
) -> Result<(Items<Declared>, Items<Declared>), NoMemory>
    ensures predicates { IfOk result (λ pair. pair.0 ≡ declarations_of (section (codes ":predicates") (content_at forms.now from))) }
    ensures functions { IfOk result (λ pair. pair.1 ≡ declarations_of (section (codes ":functions") (content_at forms.now from))) }
{
    let predicates = declarations_of(alloc, forms, from, b":predicates")?;
    let functions = declarations_of(alloc, forms, from, b":functions")?;
    Ok((predicates, functions))
}

/// Its actions, and the sections that are left out.
fn behaviour(
    alloc: Global,
    forms: &Forms,
    from: usize,
) -> Result<(Items<ActionDef>, Items<u32>), NoMemory>
    ensures actions { IfOk result (λ pair. pair.0 ≡ actions (content_at forms.now from)) }
    ensures left { IfOk result (λ pair. pair.1 ≡ left_out (content_at forms.now from)) }
{
    let actions = actions(alloc, forms, from)?;
    let left = left_out(alloc, forms, from)?;
    Ok((actions, left))
}

/// The domain whose heading stands at a token.
fn domain_of(alloc: Global, forms: &Forms, from: usize) -> Result<Domain, NoMemory>
    ensures { IfOk result (λ domain. domain ≡ domain_of (content_at forms.now from)) }
{
    let (name, requirements) = head(alloc, forms, from)?;
    let (types, constants) = objects(alloc, forms, from)?;
    let (predicates, functions) = declared(alloc, forms, from)?;
    let (actions, left_out) = behaviour(alloc, forms, from)?;
    let constraints = constraints_of(alloc, forms, from, b":constraints")?;
    Ok(Domain {
        name,
        requirements,
        types,
        constants,
        predicates,
        functions,
        constraints,
        actions,
        left_out,
    })
}

/// The domain that the text is, where it has the right shape.
pub(crate) fn domain_tree(alloc: Global, forms: &Forms) -> Result<Domain, NoMemory>
    ensures { IfOk result (λ domain. domain ≡ domain_tree (content_at forms.now 0)) }
{
    match item_at(forms, 0) {
        Item::List(_) => domain_of(alloc, forms, next(forms, 1)),
        Item::End(_) => domain_of(alloc, forms, 0),
        Item::Word(_) => domain_of(alloc, forms, 1),
    }
}
