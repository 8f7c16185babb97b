//! The ground atoms that formulas mention, added to those that are there.

ghost use Rattle.std.specs.Prelude.{◌≡◌, ◌≤◌, [], ◌∷◌, ◌++◌, map, OnOk};
ghost use Rattle.std.specs.List.{flat_map};
ghost use Rattle.pddl_names.specs.Declarations.{with_new};
ghost use Rattle.ground_world.specs.World.{ground_atom};
ghost use Rattle.ground_world.specs.Bindings.{bindings};
ghost use Rattle.ground_world.specs.Counts.{formula_count, together, written_out, part_limit};
ghost use Rattle.ground_world.specs.Shown.{env_of, world_of};
ghost use Rattle.grounder.specs.Terms.{formula_atoms};

use crate::quantifying::{binding, quantified};
use exact_lin::NoMemory;
use ground_world::{Bound, Numbering, Tables, ground_atom};
use pddl_terms::{Atom, FactForm, Group};
use std::alloc::Global;

/// Adds a ground atom, unless it is there.
pub fn add_key(alloc: Global, key: &[u32], atoms: &mut Numbering) -> Result<(), NoMemory>
    ensures { OnOk result (atoms.new ≡ with_new atoms.old (key.now ∷ [])) }
{
    atoms.add(Vec::from_slice(alloc, key)?)
}

// Adds the ground atom of an atom.
fn add_atom(
    alloc: Global,
    tables: &Tables,
    env: &[Bound],
    atom: &Atom,
    atoms: &mut Numbering,
) -> Result<(), NoMemory>
    ensures { OnOk result (atoms.new ≡ with_new atoms.old (ground_atom (world_of tables.now) (env_of env.now) atom.now ∷ [])) }
{
    let key = ground_atom(alloc, tables, env, atom)?;
    add_key(alloc, key.as_slice(), atoms)
}

/// Adds the atoms that a formula mentions under a binding, quantifiers written out, in the order of the text.
#[cycle(atoms)]
pub fn add_formula_atoms<'a>(
    alloc: Global,
    tables: &'a Tables,
    env: &[Bound<'a>],
    tree: &'a FactForm,
    atoms: &mut Numbering,
) -> Result<(), NoMemory>
    requires { formula_count (world_of tables.now) tree.now ≤ part_limit }
    ensures { OnOk result (atoms.new ≡ with_new atoms.old (formula_atoms (world_of tables.now) (env_of env.now) tree.now)) }
{
    match tree {
        FactForm::Empty(_) => Ok(()),
        FactForm::Atom(atom) => add_atom(alloc, tables, env, atom, atoms),
        FactForm::Equal(_, _, _) => Ok(()),
        FactForm::And(_, parts) => add_all_atoms(alloc, tables, env, parts.as_slice(), atoms),
        FactForm::Or(_, parts) => add_all_atoms(alloc, tables, env, parts.as_slice(), atoms),
        FactForm::Not(_, part) => add_formula_atoms(alloc, tables, env, part.get(), atoms),
        FactForm::Imply(_, premise, conclusion) => {
            add_formula_atoms(alloc, tables, env, premise.get(), atoms)?;
            add_formula_atoms(alloc, tables, env, conclusion.get(), atoms)
        }
        FactForm::Exists(_, groups, body) => {
            add_instance_atoms(alloc, tables, env, groups.as_slice(), body.get(), atoms)
        }
        FactForm::Forall(_, groups, body) => {
            add_instance_atoms(alloc, tables, env, groups.as_slice(), body.get(), atoms)
        }
        FactForm::LeftOut(_) => Ok(()),
    }
}

// Adds the atoms that some formulas mention.
#[cycle(atoms)]
fn add_all_atoms<'a>(
    alloc: Global,
    tables: &'a Tables,
    env: &[Bound<'a>],
    trees: &'a [FactForm],
    atoms: &mut Numbering,
) -> Result<(), NoMemory>
    requires { together (map (formula_count (world_of tables.now)) trees.now) ≤ part_limit }
    ensures { OnOk result (atoms.new
        ≡ with_new atoms.old (flat_map (formula_atoms (world_of tables.now) (env_of env.now)) trees.now)) }
{
    for tree in trees {
        add_formula_atoms(alloc, tables, env, tree, atoms)?;
    }
    Ok(())
}

// Adds the atoms that the instances of a formula mention.
#[cycle(atoms)]
fn add_instance_atoms<'a>(
    alloc: Global,
    tables: &'a Tables,
    env: &[Bound<'a>],
    groups: &'a [Group],
    body: &'a FactForm,
    atoms: &mut Numbering,
) -> Result<(), NoMemory>
    requires { written_out (world_of tables.now) groups.now (formula_count (world_of tables.now) body.now) ≤ part_limit }
    ensures { OnOk result (atoms.new ≡ with_new atoms.old
        (flat_map (λ e. formula_atoms (world_of tables.now) e body.now)
        (bindings (world_of tables.now) (env_of env.now) groups.now))) }
{
    let quantified = quantified(alloc, tables, groups)?;
    for number in 0..quantified.count {
        let inner = binding(alloc, env, &quantified, number)?;
        add_formula_atoms(alloc, tables, inner.as_slice(), body, atoms)?;
    }
    Ok(())
}
