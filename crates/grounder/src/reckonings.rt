//! Expressions of an action under a binding, in which no names stand for unknowns.

ghost use Rattle.std.specs.Prelude.{◌≡◌, ◌++◌, IfOk, OnOk};
ghost use Rattle.ground_world.specs.Expressions.{reckoned, form_or_zero};
ghost use Rattle.ground_world.specs.Shown.{env_of, world_of};
ghost use Rattle.grounder.specs.Instances.{no_unknowns};

use crate::fluent_forms::no_names;
use exact_lin::{FluentId, Form, Fraction, NoMemory};
use ground_world::{Bound, Flaw, Reading, Tables, form_or_zero, reckon};
use pddl_terms::ExprTree;
use sqlite_items::Items;
use std::alloc::Global;

/// The value of an expression, or None where it has none. Its flaws are put at the end of the others.
pub fn reckon_alone(
    alloc: Global,
    tables: &Tables,
    env: &[Bound],
    tree: &ExprTree,
    flaws: &mut Items<Flaw>,
) -> Result<Option<Form<FluentId, Fraction>>, NoMemory>
    ensures value { IfOk result (λ value. value
        ≡ (reckoned (world_of tables.now) no_unknowns (env_of env.now) tree.now).value) }
    ensures flaws { OnOk result (flaws.new
        ≡ flaws.old ++ (reckoned (world_of tables.now) no_unknowns (env_of env.now) tree.now).flaws) }
{
    let names = no_names(alloc);
    let reading = Reading {
        tables,
        names: &names,
        env,
    };
    reckon(alloc, &reading, tree, flaws)
}

/// The form of an expression, 0 where it has no value.
pub fn value_form(
    alloc: Global,
    tables: &Tables,
    env: &[Bound],
    tree: &ExprTree,
) -> Result<Form<FluentId, Fraction>, NoMemory>
    ensures { IfOk result (λ form. form
        ≡ form_or_zero (reckoned (world_of tables.now) no_unknowns (env_of env.now) tree.now)) }
{
    let mut flaws = Items::new(alloc);
    let value = reckon_alone(alloc, tables, env, tree, &mut flaws)?;
    Ok(form_or_zero(alloc, value))
}
