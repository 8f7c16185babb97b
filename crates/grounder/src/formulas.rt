//! Formulas over numbered facts.

ghost use Rattle.std.specs.Prelude.{◌≡◌, ◌≤◌, ◌==◌, [], ◌∷◌, map, IfOk, true};
ghost use Rattle.task_types.specs.declared.formulas.FactTree.TheVariants as fact;
ghost use Rattle.ground_world.specs.World.{ground_atom};
ghost use Rattle.ground_world.specs.Bindings.{bindings};
ghost use Rattle.ground_world.specs.Conditions.{side_object};
ghost use Rattle.ground_world.specs.Counts.{formula_count, together, written_out, part_limit};
ghost use Rattle.ground_world.specs.Shown.{env_of, world_of};
ghost use Rattle.grounder.specs.ShownGrounding.{ground_of};
ghost use Rattle.grounder.specs.Task.{fact_number};
ghost use Rattle.grounder.specs.Terms.{formula, same_tree};

use crate::grounding::Grounding;
use crate::ids::fact_id;
use crate::quantifying::{binding, quantified};
use exact_lin::NoMemory;
use ground_world::{Bound, Tables, ground_atom, side_object};
use pddl_terms::{Atom, FactForm, Group, Side};
use sqlite_items::{Boxed, Items};
use std::alloc::Global;
use task_types::{FactTree, Literal};

// The negation of a formula.
fn negation(alloc: Global, tree: FactTree) -> Result<FactTree, NoMemory>
    ensures { IfOk result (λ t. t ≡ fact.Not tree) }
{
    Ok(FactTree::Not(Boxed::new(alloc, tree)?))
}

// The formula that says that the second of two holds where the first does.
fn implication(alloc: Global, premise: FactTree, conclusion: FactTree) -> Result<FactTree, NoMemory>
    ensures { IfOk result (λ t. t ≡ fact.Or (fact.Not premise ∷ conclusion ∷ [])) }
{
    let mut parts = Items::new(alloc);
    parts.push(negation(alloc, premise)?)?;
    parts.push(conclusion)?;
    Ok(FactTree::Or(parts))
}

// The formula of an atom.
fn atom_formula(
    alloc: Global,
    grounding: &Grounding,
    env: &[Bound],
    atom: &Atom,
) -> Result<FactTree, NoMemory>
    ensures { IfOk result (λ t. t ≡ fact.Is (record {
      fact = fact_number (ground_of grounding.now) (ground_atom (ground_of grounding.now).world (env_of env.now) atom.now);
      holds = true;
    })) }
{
    let key = ground_atom(alloc, &grounding.tables, env, atom)?;
    Ok(FactTree::Is(Literal {
        fact: fact_id(grounding, key.as_slice()),
        holds: true,
    }))
}

/// The formula of an equality of terms: true, or the negation of true.
pub fn equality_formula(
    alloc: Global,
    tables: &Tables,
    env: &[Bound],
    left: &Side,
    right: &Side,
) -> Result<FactTree, NoMemory>
    ensures { IfOk result (λ t. t ≡ same_tree (side_object (world_of tables.now) (env_of env.now) left.now
        == side_object (world_of tables.now) (env_of env.now) right.now)) }
{
    if side_object(tables, env, left) == side_object(tables, env, right) {
        Ok(FactTree::True)
    } else {
        negation(alloc, FactTree::True)
    }
}

/// A formula under a binding; a quantifier is the list of its instances.
#[cycle(formulas)]
pub fn formula<'a>(
    alloc: Global,
    grounding: &'a Grounding,
    env: &[Bound<'a>],
    tree: &'a FactForm,
) -> Result<FactTree, NoMemory>
    requires { formula_count (ground_of grounding.now).world tree.now ≤ part_limit }
    ensures { IfOk result (λ t. t
        ≡ formula (ground_of grounding.now).world (fact_number (ground_of grounding.now)) (env_of env.now) tree.now) }
{
    match tree {
        FactForm::Empty(_) => Ok(FactTree::True),
        FactForm::Atom(atom) => atom_formula(alloc, grounding, env, atom),
        FactForm::Equal(_, left, right) => {
            equality_formula(alloc, &grounding.tables, env, left, right)
        }
        FactForm::And(_, parts) => {
            Ok(FactTree::And(formulas(alloc, grounding, env, parts.as_slice())?))
        }
        FactForm::Or(_, parts) => {
            Ok(FactTree::Or(formulas(alloc, grounding, env, parts.as_slice())?))
        }
        FactForm::Not(_, part) => {
            let part = formula(alloc, grounding, env, part.get())?;
            negation(alloc, part)
        }
        FactForm::Imply(_, premise, conclusion) => {
            let premise = formula(alloc, grounding, env, premise.get())?;
            let conclusion = formula(alloc, grounding, env, conclusion.get())?;
            implication(alloc, premise, conclusion)
        }
        FactForm::Exists(_, groups, body) => {
            let instances = instances(alloc, grounding, env, groups.as_slice(), body.get())?;
            Ok(FactTree::Or(instances))
        }
        FactForm::Forall(_, groups, body) => {
            let instances = instances(alloc, grounding, env, groups.as_slice(), body.get())?;
            Ok(FactTree::And(instances))
        }
        FactForm::LeftOut(_) => Ok(FactTree::True),
    }
}

// Some formulas under a binding.
#[cycle(formulas)]
fn formulas<'a>(
    alloc: Global,
    grounding: &'a Grounding,
    env: &[Bound<'a>],
    trees: &'a [FactForm],
) -> Result<Items<FactTree>, NoMemory>
    requires { together (map (formula_count (ground_of grounding.now).world) trees.now) ≤ part_limit }
    ensures { IfOk result (λ ts. ts
        ≡ map (formula (ground_of grounding.now).world (fact_number (ground_of grounding.now)) (env_of env.now)) trees.now) }
{
    let mut out = Items::new(alloc);
    for tree in trees {
        out.push(formula(alloc, grounding, env, tree)?)?;
    }
    Ok(out)
}

// The instances of a formula, one for each binding of the variables.
#[cycle(formulas)]
fn instances<'a>(
    alloc: Global,
    grounding: &'a Grounding,
    env: &[Bound<'a>],
    groups: &'a [Group],
    body: &'a FactForm,
) -> Result<Items<FactTree>, NoMemory>
    requires { written_out (ground_of grounding.now).world groups.now (formula_count (ground_of grounding.now).world body.now) ≤ part_limit }
    ensures { IfOk result (λ ts. ts
        ≡ map (λ e. formula (ground_of grounding.now).world (fact_number (ground_of grounding.now)) e body.now)
        (bindings (ground_of grounding.now).world (env_of env.now) groups.now)) }
{
    let quantified = quantified(alloc, &grounding.tables, groups)?;
    let mut out = Items::new(alloc);
    for number in 0..quantified.count {
        let inner = binding(alloc, env, &quantified, number)?;
        out.push(formula(alloc, grounding, inner.as_slice(), body)?)?;
    }
    Ok(out)
}
