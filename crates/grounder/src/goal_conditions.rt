//! The condition of the goal: its literals, and its comparisons as forms.

ghost use Rattle.std.specs.Prelude.{◌≡◌, ◌≤◌, ◌++◌, ◌∷◌, [], if◌then◌else◌, IfOk, OnOk};
ghost use Rattle.exact_lin.specs.Forms.{constant_form};
ghost use Rattle.ground_world.specs.Counts.{goal_count, part_limit};
ghost use Rattle.ground_world.specs.Expressions.{minus_one};
ghost use Rattle.ground_world.specs.Shown.{part_of, parts_of};
ghost use Rattle.grounder.specs.ShownGrounding.{ground_of};
ghost use Rattle.grounder.specs.Task.{literal_of, goal_forms_in, goal_condition};
ghost use Rattle.grounder.specs.Terms.{goal_parts};

use crate::fluent_forms::push_compared;
use crate::goals::push_goal_parts;
use crate::grounding::Grounding;
use crate::ids::fact_id;
use exact_lin::{FluentId, Form, Fraction, NoMemory, Scalar};
use ground_world::CondPart;
use pddl_terms::GoalTree;
use sqlite_items::Items;
use std::alloc::Global;
use task_types::{Condition, Literal};

// Puts the literal that a part of the goal is at the end.
fn push_literal(
    grounding: &Grounding,
    part: &CondPart,
    out: &mut Items<Literal>,
) -> Result<(), NoMemory>
    ensures { OnOk result (out.new ≡ out.old ++ literal_of (ground_of grounding.now).facts (part_of part.now)) }
{
    match part {
        CondPart::Literal(atom, holds) => {
            let fact = fact_id(grounding, atom.as_slice());
            out.push(Literal {
                fact,
                holds: *holds,
            })?;
            Ok(())
        }
        CondPart::Same(_) => Ok(()),
        CondPart::Compares(_) => Ok(()),
    }
}

// The form of an equality of terms that fails, which is never at least 0. Its constant is never past the width, so only
// memory can be lacking.
fn failing(alloc: Global) -> Result<Form<FluentId, Fraction>, NoMemory>
    ensures { IfOk result (λ form. form ≡ constant_form minus_one) }
{
    let mut form = Form::zero(alloc);
    match form.add_constant(Fraction::of_int(-1)) {
        Ok(()) => Ok(form),
        Err(_) => Err(NoMemory),
    }
}

// Puts the form of an equality of terms at the end, where it fails.
fn push_same(
    alloc: Global,
    holds: bool,
    out: &mut Items<Form<FluentId, Fraction>>,
) -> Result<(), NoMemory>
    ensures { OnOk result (out.new ≡ out.old ++ (if holds then [] else constant_form minus_one ∷ [])) }
{
    if holds {
        return Ok(());
    }
    let form = failing(alloc)?;
    out.push(form)?;
    Ok(())
}

// Puts the forms of a part of the goal at the end.
fn push_forms(
    alloc: Global,
    grounding: &Grounding,
    part: &CondPart,
    out: &mut Items<Form<FluentId, Fraction>>,
) -> Result<(), NoMemory>
    ensures { OnOk result (out.new ≡ out.old ++ goal_forms_in (ground_of grounding.now) (part_of part.now)) }
{
    match part {
        CondPart::Literal(_, _) => Ok(()),
        CondPart::Same(holds) => push_same(alloc, *holds, out),
        CondPart::Compares(test) => push_compared(alloc, grounding, test, out),
    }
}

// The condition of a goal with these parts.
fn goal_condition(
    alloc: Global,
    grounding: &Grounding,
    parts: &[CondPart],
) -> Result<Condition, NoMemory>
    ensures { IfOk result (λ condition. condition ≡ goal_condition (ground_of grounding.now) (parts_of parts.now)) }
{
    let mut literals = Items::new(alloc);
    let mut comparisons = Items::new(alloc);
    for part in parts {
        push_literal(grounding, part, &mut literals)?;
        push_forms(alloc, grounding, part, &mut comparisons)?;
    }
    Ok(Condition {
        literals,
        comparisons,
    })
}

/// The condition of the goal, quantifiers written out and preferences left out.
pub fn goal<'a>(
    alloc: Global,
    grounding: &'a Grounding,
    tree: &'a GoalTree,
) -> Result<Condition, NoMemory>
    requires { goal_count (ground_of grounding.now).world tree.now ≤ part_limit }
    ensures { IfOk result (λ condition. condition
        ≡ goal_condition (ground_of grounding.now) (goal_parts (ground_of grounding.now).world [] tree.now)) }
{
    let mut parts = Items::new(alloc);
    push_goal_parts(alloc, &grounding.tables, &[], tree, &mut parts)?;
    goal_condition(alloc, grounding, parts.as_slice())
}
