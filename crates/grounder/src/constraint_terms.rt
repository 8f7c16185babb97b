//! The constraints of the task: hard ones, and preferences.

ghost use Rattle.std.specs.Prelude.{◌≡◌, ◌++◌, true, map, IfOk, OnOk};
ghost use Rattle.std.specs.List.{flat_map, list_all};
ghost use Rattle.ground_world.specs.Leaves.{leaf_envs};
ghost use Rattle.ground_world.specs.ShownLeaves.{constraints_of};
ghost use Rattle.task_types.specs.declared.costs.Soft.TheVariants as soft;
ghost use Rattle.grounder.specs.Reach.{leaf_fits};
ghost use Rattle.grounder.specs.ShownGrounding.{ground_of};
ghost use Rattle.grounder.specs.ShownTerms.{constraint_leaf};
ghost use Rattle.grounder.specs.Task.{trail_of, hard_of, hard_terms, soft_of};

use crate::grounding::Grounding;
use crate::quantifying::{binding, nested};
use crate::trails::trail;
use crate::weights::preference_weight;
use exact_lin::{Fraction, NoMemory};
use ground_world::ConstraintLeaf;
use sqlite_items::Items;
use std::alloc::Global;
use task_types::{Soft, Trail};

// Puts the instances of a constraint at the end, in the order of the bindings.
fn push_trails<'a>(
    alloc: Global,
    grounding: &'a Grounding,
    leaf: &ConstraintLeaf<'a>,
    out: &mut Items<Trail>,
) -> Result<(), NoMemory>
    requires { leaf_fits (ground_of grounding.now).world (constraint_leaf leaf.now) ≡ true }
    ensures { OnOk result (out.new ≡ out.old
        ++ map (trail_of (ground_of grounding.now) leaf.now.trajectory.now)
        (leaf_envs (ground_of grounding.now).world (constraint_leaf leaf.now))) }
{
    let quantified = nested(alloc, &grounding.tables, leaf.around.as_slice())?;
    for number in 0..quantified.count {
        let env = binding(alloc, &[], &quantified, number)?;
        out.push(trail(alloc, grounding, env.as_slice(), leaf.trajectory)?)?;
    }
    Ok(())
}

// Puts the instances of a constraint at the end, if it is a hard one.
fn push_hard<'a>(
    alloc: Global,
    grounding: &'a Grounding,
    leaf: &ConstraintLeaf<'a>,
    out: &mut Items<Trail>,
) -> Result<(), NoMemory>
    requires { leaf_fits (ground_of grounding.now).world (constraint_leaf leaf.now) ≡ true }
    ensures { OnOk result (out.new ≡ out.old ++ hard_of (ground_of grounding.now) (constraint_leaf leaf.now)) }
{
    match leaf.name {
        Some(_) => Ok(()),
        None => push_trails(alloc, grounding, leaf, out),
    }
}

/// The hard constraints among some constraints.
pub fn hard_terms<'a>(
    alloc: Global,
    grounding: &'a Grounding,
    leaves: &[ConstraintLeaf<'a>],
) -> Result<Items<Trail>, NoMemory>
    requires { list_all (leaf_fits (ground_of grounding.now).world) (constraints_of leaves.now) ≡ true }
    ensures { IfOk result (λ terms. terms ≡ hard_terms (ground_of grounding.now) (constraints_of leaves.now)) }
{
    let mut out = Items::new(alloc);
    for leaf in leaves {
        push_hard(alloc, grounding, leaf, &mut out)?;
    }
    Ok(out)
}

// Puts the instances of a constraint at the end as preferences of a weight.
fn push_preferences<'a>(
    alloc: Global,
    grounding: &'a Grounding,
    leaf: &ConstraintLeaf<'a>,
    weight: Fraction,
    out: &mut Items<Soft>,
) -> Result<(), NoMemory>
    requires { leaf_fits (ground_of grounding.now).world (constraint_leaf leaf.now) ≡ true }
    ensures { OnOk result (out.new ≡ out.old
        ++ map (λ env. soft.Trail (trail_of (ground_of grounding.now) leaf.now.trajectory.now env) weight)
        (leaf_envs (ground_of grounding.now).world (constraint_leaf leaf.now))) }
{
    let quantified = nested(alloc, &grounding.tables, leaf.around.as_slice())?;
    for number in 0..quantified.count {
        let env = binding(alloc, &[], &quantified, number)?;
        let trail = trail(alloc, grounding, env.as_slice(), leaf.trajectory)?;
        out.push(Soft::Trail(trail, weight))?;
    }
    Ok(())
}

// Puts the instances of a constraint at the end, if it is a preference.
fn push_soft<'a>(
    alloc: Global,
    grounding: &'a Grounding,
    leaf: &ConstraintLeaf<'a>,
    out: &mut Items<Soft>,
) -> Result<(), NoMemory>
    requires { leaf_fits (ground_of grounding.now).world (constraint_leaf leaf.now) ≡ true }
    ensures { OnOk result (out.new ≡ out.old ++ soft_of (ground_of grounding.now) (constraint_leaf leaf.now)) }
{
    match leaf.name {
        Some(name) => {
            let weight = preference_weight(grounding, name);
            push_preferences(alloc, grounding, leaf, weight, out)
        }
        None => Ok(()),
    }
}

/// Puts the preferences among some constraints at the end.
pub fn push_all_soft<'a>(
    alloc: Global,
    grounding: &'a Grounding,
    leaves: &[ConstraintLeaf<'a>],
    out: &mut Items<Soft>,
) -> Result<(), NoMemory>
    requires { list_all (leaf_fits (ground_of grounding.now).world) (constraints_of leaves.now) ≡ true }
    ensures { OnOk result (out.new ≡ out.old ++ flat_map (soft_of (ground_of grounding.now)) (constraints_of leaves.now)) }
{
    for leaf in leaves {
        push_soft(alloc, grounding, leaf, out)?;
    }
    Ok(())
}
