//! Bindings of typed variables, one by one by their numbers.

ghost use Rattle.std.specs.Prelude.{◌≡◌, ◌<◌, ◌++◌, map, min, IfOk, OnOk};
ghost use Rattle.pddl_names.specs.Declarations.{type_bytes};
ghost use Rattle.ground_world.specs.World.{columns, variable_names};
ghost use Rattle.ground_world.specs.Bindings.{choice_count, choice_at, paired, all_names, all_columns};
ghost use Rattle.ground_world.specs.Shown.{env_of, names_of, columns_of, world_of};
ghost use Rattle.ground_world.specs.ShownLeaves.{lists_of};

use crate::binding::Bound;
use crate::tables::Tables;
use exact_lin::NoMemory;
use pddl_terms::{Group, Name, TypeName};
use sqlite_items::Items;
use std::alloc::Global;

/// A variable with the objects that fit it.
#[derive(Clone, Copy, Drop)]
pub struct Variable<'a> {
    pub name: &'a Items<u8>,
    pub column: &'a [u32],
}

/// The type of a group of names: nothing where it is left out.
pub(crate) fn sort_of(group: &Group) -> &[u8]
    ensures { result.now ≡ type_bytes group.now.of }
{
    match &group.of {
        TypeName::Object => b"object",
        TypeName::Named(name) => name.bytes.as_slice(),
        TypeName::LeftOut(_) => b"",
    }
}

// The objects that fit a group of variables.
fn group_column<'a>(tables: &'a Tables, group: &Group) -> &'a [u32]
    ensures { result.now ≡ (world_of tables.now).fitting (type_bytes group.now.of) }
{
    tables.column(sort_of(group))
}

// Puts variables of one type at the end.
fn push_group<'a>(
    out: &mut Items<Variable<'a>>,
    column: &'a [u32],
    names: &'a [Name],
) -> Result<(), NoMemory>
    ensures names { OnOk result (names_of out.new ≡ names_of out.old ++ map (λ n. n.bytes) names.now) }
    ensures columns { OnOk result (columns_of out.new ≡ columns_of out.old ++ map (λ n. column.now) names.now) }
{
    for name in names {
        out.push(Variable {
            name: &name.bytes,
            column,
        })?;
    }
    Ok(())
}

// Puts the variables of a typed list at the end.
fn push_variables<'a>(
    out: &mut Items<Variable<'a>>,
    tables: &'a Tables,
    groups: &'a [Group],
) -> Result<(), NoMemory>
    ensures names { OnOk result (names_of out.new ≡ names_of out.old ++ variable_names groups.now) }
    ensures columns { OnOk result (columns_of out.new ≡ columns_of out.old ++ columns (world_of tables.now) groups.now) }
{
    for group in groups {
        let column = group_column(tables, group);
        push_group(out, column, group.names.as_slice())?;
    }
    Ok(())
}

/// The variables of a typed list.
pub fn variables<'a>(
    alloc: Global,
    tables: &'a Tables,
    groups: &'a [Group],
) -> Result<Items<Variable<'a>>, NoMemory>
    ensures names { IfOk result (λ vs. names_of vs ≡ variable_names groups.now) }
    ensures columns { IfOk result (λ vs. columns_of vs ≡ columns (world_of tables.now) groups.now) }
{
    let mut out = Items::new(alloc);
    push_variables(&mut out, tables, groups)?;
    Ok(out)
}

/// The variables of several typed lists, one inside the other, outer first.
pub fn nested_variables<'a>(
    alloc: Global,
    tables: &'a Tables,
    around: &[&'a [Group]],
) -> Result<Items<Variable<'a>>, NoMemory>
    ensures names { IfOk result (λ vs. names_of vs ≡ all_names (lists_of around.now)) }
    ensures columns { IfOk result (λ vs. columns_of vs ≡ all_columns (world_of tables.now) (lists_of around.now)) }
{
    let mut out = Items::new(alloc);
    for groups in around {
        push_variables(&mut out, tables, groups)?;
    }
    Ok(out)
}

/// How many bindings there are, or `most` where there are more.
pub fn choices_within(variables: &[Variable], most: usize) -> usize
    ensures { result ≡ min most (choice_count (columns_of variables.now)) }
{
    let mut count = most.min(1);
    for variable in variables {
        count = count.saturating_mul(variable.column.len()).min(most);
    }
    count
}

/// Binding number `number`, the last variable fastest, after an outer one.
pub fn bound<'a>(
    alloc: Global,
    env: &[Bound<'a>],
    variables: &[Variable<'a>],
    number: usize,
    count: usize,
) -> Result<Items<Bound<'a>>, NoMemory>
    requires count { count ≡ choice_count (columns_of variables.now) }
    requires number { number < count }
    ensures { IfOk result (λ e. env_of e ≡ env_of env.now ++ paired (names_of variables.now) (choice_at (columns_of variables.now) number)) }
{
    let mut out = Items::from_slice(alloc, env)?;
    let mut ways = count;
    let mut at = number;
    for variable in variables {
        ways /= variable.column.len();
        out.push(Bound {
            name: variable.name,
            object: variable.column[at / ways],
        })?;
        at %= ways;
    }
    Ok(out)
}
