//! The soft terms of the task.

ghost use Rattle.std.specs.Prelude.{◌≡◌, ◌++◌, true, map, IfOk, OnOk};
ghost use Rattle.std.specs.List.{flat_map, list_all};
ghost use Rattle.pddl_terms.specs.declared.trees.GoalTree.{GoalTree};
ghost use Rattle.ground_world.specs.Leaves.{leaf_envs, goal_preferences};
ghost use Rattle.ground_world.specs.ShownLeaves.{preferences_of, constraints_of, costs_of};
ghost use Rattle.grounder.specs.Reach.{preference_fits, leaf_fits, cost_fits};
ghost use Rattle.grounder.specs.ShownGrounding.{ground_of};
ghost use Rattle.grounder.specs.ShownTerms.{preference_leaf};
ghost use Rattle.grounder.specs.Task.{goal_soft, soft_terms};

use crate::constraint_terms::push_all_soft;
use crate::cost_terms::push_cost_terms;
use crate::goal_terms::goal_term;
use crate::grounding::Grounding;
use crate::preferences::preference_parts;
use crate::quantifying::{binding, nested};
use crate::weights::preference_weight;
use exact_lin::NoMemory;
use ground_world::{ConstraintLeaf, CostLeaf, GoalPreference};
use sqlite_items::Items;
use std::alloc::Global;
use task_types::Soft;

// Puts the soft terms of the instances of a preference of the goal at the end.
fn push_goal_terms<'a>(
    alloc: Global,
    grounding: &'a Grounding,
    leaf: &GoalPreference<'a>,
    out: &mut Items<Soft>,
) -> Result<(), NoMemory>
    requires { preference_fits (ground_of grounding.now).world (preference_leaf leaf.now) ≡ true }
    ensures { OnOk result (out.new ≡ out.old
        ++ map (goal_soft (ground_of grounding.now) (preference_leaf leaf.now))
        (leaf_envs (ground_of grounding.now).world (preference_leaf leaf.now))) }
{
    let quantified = nested(alloc, &grounding.tables, leaf.around.as_slice())?;
    let parts = preference_parts(alloc, &grounding.tables, leaf.body)?;
    let weight = preference_weight(grounding, leaf.name);
    for number in 0..quantified.count {
        let env = binding(alloc, &[], &quantified, number)?;
        out.push(goal_term(alloc, grounding, env.as_slice(), parts.as_slice(), weight)?)?;
    }
    Ok(())
}

// Puts the soft terms of the preferences of the goal at the end, the instances of each in the order of the bindings.
fn push_all_goal_terms<'a>(
    alloc: Global,
    grounding: &'a Grounding,
    leaves: &[GoalPreference<'a>],
    out: &mut Items<Soft>,
) -> Result<(), NoMemory>
    requires { list_all (preference_fits (ground_of grounding.now).world) (preferences_of leaves.now) ≡ true }
    ensures { OnOk result (out.new ≡ out.old
        ++ flat_map (λ l. map (goal_soft (ground_of grounding.now) l) (leaf_envs (ground_of grounding.now).world l))
        (preferences_of leaves.now)) }
{
    for leaf in leaves {
        push_goal_terms(alloc, grounding, leaf, out)?;
    }
    Ok(())
}

/// The soft terms: those of the preferences of the goal, of the constraints, and of the time costs.
pub fn soft_terms<'a>(
    alloc: Global,
    grounding: &'a Grounding,
    preferences: &[GoalPreference<'a>],
    constraints: &[ConstraintLeaf<'a>],
    costs: &[CostLeaf<'a>],
) -> Result<Items<Soft>, NoMemory>
    requires preferences { list_all (preference_fits (ground_of grounding.now).world) (preferences_of preferences.now) ≡ true }
    requires constraints { list_all (leaf_fits (ground_of grounding.now).world) (constraints_of constraints.now) ≡ true }
    requires costs { list_all (cost_fits (ground_of grounding.now).world) (costs_of costs.now) ≡ true }
    ensures { IfOk result (λ terms. (goal : GoalTree) → goal_preferences goal ≡ preferences_of preferences.now
        → terms ≡ soft_terms (ground_of grounding.now) goal (constraints_of constraints.now) (costs_of costs.now)) }
{
    let mut out = Items::new(alloc);
    push_all_goal_terms(alloc, grounding, preferences, &mut out)?;
    push_all_soft(alloc, grounding, constraints, &mut out)?;
    push_cost_terms(alloc, grounding, costs, &mut out)?;
    Ok(out)
}
