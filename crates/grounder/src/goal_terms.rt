//! Preferences of the goal as soft terms.

ghost use Rattle.std.specs.Prelude.{◌≡◌, ◌≤◌, ◌++◌, map, IfOk, OnOk};
ghost use Rattle.std.specs.List.{flat_map};
ghost use Rattle.ground_world.specs.Conditions.{tests_in};
ghost use Rattle.ground_world.specs.Counts.{part_limit};
ghost use Rattle.ground_world.specs.Shown.{env_of, part_of, parts_of};
ghost use Rattle.grounder.specs.ShownGrounding.{ground_of};
ghost use Rattle.grounder.specs.ShownPreferences.{preference_of, preferences_of, preference_count, preferences_count};
ghost use Rattle.grounder.specs.Task.{fact_number, compared, all_of};
ghost use Rattle.grounder.specs.Terms.{formula, formulas_in};
ghost use Rattle.grounder.specs.GoalTerms.{goal_term};

use crate::fluent_forms::push_compared;
use crate::formulas::{equality_formula, formula};
use crate::grounding::Grounding;
use crate::preferences::{PreferencePart, compared_parts};
use exact_lin::{FluentId, Form, Fraction, NoMemory};
use ground_world::{Bound, CondPart};
use sqlite_items::Items;
use std::alloc::Global;
use task_types::{FactTree, Soft};

// Puts the formula of a part of a preference at the end, if it is one.
fn push_formula<'a>(
    alloc: Global,
    grounding: &'a Grounding,
    env: &[Bound<'a>],
    part: &PreferencePart<'a>,
    out: &mut Items<FactTree>,
) -> Result<(), NoMemory>
    requires { preference_count (ground_of grounding.now).world (preference_of part.now) ≤ part_limit }
    ensures { OnOk result (out.new ≡ out.old
        ++ map (formula (ground_of grounding.now).world (fact_number (ground_of grounding.now)) (env_of env.now))
        (formulas_in (preference_of part.now))) }
{
    match part {
        PreferencePart::Formula(tree) => {
            out.push(formula(alloc, grounding, env, *tree)?)?;
            Ok(())
        }
        PreferencePart::SameTerms(_, left, right) => {
            out.push(equality_formula(alloc, &grounding.tables, env, *left, *right)?)?;
            Ok(())
        }
        PreferencePart::SameValues(_, _, _) => Ok(()),
        PreferencePart::Numbers(_) => Ok(()),
    }
}

// The formulas of a preference.
fn part_formulas<'a>(
    alloc: Global,
    grounding: &'a Grounding,
    env: &[Bound<'a>],
    parts: &[PreferencePart<'a>],
) -> Result<Items<FactTree>, NoMemory>
    requires { preferences_count (ground_of grounding.now).world (preferences_of parts.now) ≤ part_limit }
    ensures { IfOk result (λ trees. trees
        ≡ map (formula (ground_of grounding.now).world (fact_number (ground_of grounding.now)) (env_of env.now))
        (flat_map formulas_in (preferences_of parts.now))) }
{
    let mut out = Items::new(alloc);
    for part in parts {
        push_formula(alloc, grounding, env, part, &mut out)?;
    }
    Ok(out)
}

// The conjunction of some formulas, which is the formula where there is one.
fn conjunction(trees: Items<FactTree>) -> FactTree
    ensures { result ≡ all_of trees }
{
    if trees.len() != 1 {
        return FactTree::And(trees);
    }
    let mut trees = trees;
    match trees.pop() {
        Some(tree) => tree,
        None => FactTree::And(trees),
    }
}

// Puts the forms of a part of a condition at the end, if it is a comparison.
fn push_forms(
    alloc: Global,
    grounding: &Grounding,
    part: &CondPart,
    out: &mut Items<Form<FluentId, Fraction>>,
) -> Result<(), NoMemory>
    ensures { OnOk result (out.new
        ≡ out.old ++ flat_map (compared (ground_of grounding.now)) (tests_in (part_of part.now))) }
{
    match part {
        CondPart::Literal(_, _) => Ok(()),
        CondPart::Same(_) => Ok(()),
        CondPart::Compares(test) => push_compared(alloc, grounding, test, out),
    }
}

// The forms of the comparisons among some parts of conditions.
fn part_forms(
    alloc: Global,
    grounding: &Grounding,
    parts: &[CondPart],
) -> Result<Items<Form<FluentId, Fraction>>, NoMemory>
    ensures { IfOk result (λ forms. forms
        ≡ flat_map (compared (ground_of grounding.now)) (flat_map tests_in (parts_of parts.now))) }
{
    let mut out = Items::new(alloc);
    for part in parts {
        push_forms(alloc, grounding, part, &mut out)?;
    }
    Ok(out)
}

/// The soft term of an instance of a preference of the goal.
pub fn goal_term<'a>(
    alloc: Global,
    grounding: &'a Grounding,
    env: &[Bound<'a>],
    parts: &[PreferencePart<'a>],
    weight: Fraction,
) -> Result<Soft, NoMemory>
    requires { preferences_count (ground_of grounding.now).world (preferences_of parts.now) ≤ part_limit }
    ensures { IfOk result (λ term. term ≡ goal_term (ground_of grounding.now) (preferences_of parts.now) weight (env_of env.now)) }
{
    let compared = compared_parts(alloc, &grounding.tables, env, parts)?;
    let forms = part_forms(alloc, grounding, compared.as_slice())?;
    let trees = part_formulas(alloc, grounding, env, parts)?;
    Ok(Soft::Goal(conjunction(trees), forms, weight))
}
