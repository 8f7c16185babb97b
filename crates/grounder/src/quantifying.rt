//! The bindings of quantified variables.

ghost use Rattle.std.specs.Prelude.{◌≡◌, ◌≤◌, ◌<◌, IfOk, MatchOption, slice_index_or, []};
ghost use Rattle.ground_world.specs.World.{Env, columns};
ghost use Rattle.ground_world.specs.Bindings.{choice_count, bindings, nested_bindings};
ghost use Rattle.ground_world.specs.Counts.{around_count, binding_limit};
ghost use Rattle.ground_world.specs.Shown.{env_of, columns_of, world_of};
ghost use Rattle.ground_world.specs.ShownLeaves.{lists_of};
ghost use Rattle.grounder.specs.ShownQuantified.{envs_of};

use crate::quantified::Quantified;
use exact_lin::NoMemory;
use ground_world::{Bound, Tables, Variable, bound, choices_within, nested_variables, variables};
use pddl_terms::Group;
use sqlite_items::Items;
use std::alloc::Global;

/// The most bindings of the variables around a part.
const MOST_BINDINGS: usize = 1_048_576;

// Variables with the number of their bindings.
fn counted<'a>(variables: Items<Variable<'a>>) -> Quantified<'a>
    requires { choice_count (columns_of variables) ≤ binding_limit }
    ensures { result.variables ≡ variables.entry }
{
    let count = choices_within(variables.as_slice(), MOST_BINDINGS);
    Quantified { variables, count }
}

/// The variables of a typed list, of which there are few enough bindings.
pub fn quantified<'a>(
    alloc: Global,
    tables: &'a Tables,
    groups: &'a [Group],
) -> Result<Quantified<'a>, NoMemory>
    requires { choice_count (columns (world_of tables.now) groups.now) ≤ binding_limit }
    ensures { IfOk result (λ q. (env : Env) → envs_of q env ≡ bindings (world_of tables.now) env groups.now) }
{
    Ok(counted(variables(alloc, tables, groups)?))
}

/// The variables of several typed lists, one inside the other, outer first, of which there are few enough bindings.
pub fn nested<'a>(
    alloc: Global,
    tables: &'a Tables,
    around: &[&'a [Group]],
) -> Result<Quantified<'a>, NoMemory>
    requires { around_count (world_of tables.now) (lists_of around.now) ≤ binding_limit }
    ensures { IfOk result (λ q. (env : Env) → envs_of q env ≡ nested_bindings (world_of tables.now) env (lists_of around.now)) }
{
    Ok(counted(nested_variables(alloc, tables, around)?))
}

/// The variables of a typed list, or None where they have more bindings than a part may have around it.
pub fn few_bindings<'a>(
    alloc: Global,
    tables: &'a Tables,
    groups: &'a [Group],
) -> Result<Option<Quantified<'a>>, NoMemory>
    ensures { IfOk result (λ found. MatchOption found
        (binding_limit < choice_count (columns (world_of tables.now) groups.now))
        (λ q. (env : Env) → envs_of q env ≡ bindings (world_of tables.now) env groups.now)) }
{
    let variables = variables(alloc, tables, groups)?;
    let count = choices_within(variables.as_slice(), MOST_BINDINGS + 1);
    if count > MOST_BINDINGS {
        return Ok(None);
    }
    Ok(Some(Quantified { variables, count }))
}

/// The binding of a number, after an outer one.
pub fn binding<'a>(
    alloc: Global,
    env: &[Bound<'a>],
    quantified: &Quantified<'a>,
    number: usize,
) -> Result<Items<Bound<'a>>, NoMemory>
    requires { number < quantified.now.count }
    ensures { IfOk result (λ e. env_of e ≡ slice_index_or (envs_of quantified.now (env_of env.now)) number []) }
{
    bound(
        alloc,
        env,
        quantified.variables.as_slice(),
        number,
        quantified.count,
    )
}
