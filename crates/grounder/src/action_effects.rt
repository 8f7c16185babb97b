//! Effects of ground actions at a stage.

ghost use Rattle.std.specs.Prelude.{◌≡◌, [], ◌∷◌, ◌++◌, if◌then◌else◌, IfOk, OnOk};
ghost use Rattle.rational.specs.Rational.{zeroℚ};
ghost use Rattle.ground_world.specs.World.{ground_atom, ground_fluent};
ghost use Rattle.ground_world.specs.Changes.{parts_at, Moves};
ghost use Rattle.ground_world.specs.Shown.{env_of, world_of};
ghost use Rattle.ground_world.specs.ShownChanges.{change_of, changes_of};
ghost use Rattle.grounder.specs.ShownGrounding.{ground_of};
ghost use Rattle.grounder.specs.Building.{with_change, with_changes};
ghost use Rattle.grounder.specs.Task as task;

use crate::assignments::is_same_stage;
use crate::fluent_forms::over_fluents;
use crate::grounding::Grounding;
use crate::ids::{fact_id, fluent_id};
use crate::reckonings::value_form;
use exact_lin::{FactId, FluentId, Form, Fraction, Id, NoMemory, Scalar};
use ground_world::{Bound, Change, Stage, StagedChange, ground_atom, ground_fluent, negative};
use pddl_terms::{Atom, ChangeKind, ExprTree};
use sqlite_items::Items;
use std::alloc::Global;
use task_types::{Amount, Effect};

// The factor of the duration in a form, which only a durative action has.
fn duration_factor(
    grounding: &Grounding,
    durative: bool,
    form: &Form<FluentId, Fraction>,
) -> Fraction
    ensures { result ≡ (task.amount (ground_of grounding.now) durative form.now).duration }
{
    if durative {
        form.coefficient(FluentId::of(grounding.tables.fluents.len() as u32))
    } else {
        Fraction::of_int(0)
    }
}

// A form as an amount over the fluents and the duration.
fn amount(
    alloc: Global,
    grounding: &Grounding,
    durative: bool,
    form: &Form<FluentId, Fraction>,
) -> Result<Amount, NoMemory>
    ensures { IfOk result (λ a. a ≡ task.amount (ground_of grounding.now) durative form.now) }
{
    let duration = duration_factor(grounding, durative, form);
    let form = over_fluents(alloc, grounding, form)?;
    Ok(Amount { form, duration })
}

// The number of the fact that an atom is.
fn fact_of(
    alloc: Global,
    grounding: &Grounding,
    env: &[Bound],
    atom: &Atom,
) -> Result<FactId, NoMemory>
    ensures { let g = ground_of grounding.now in
        IfOk result (λ n. n ≡ task.fact_number g (ground_atom g.world (env_of env.now) atom.now)) }
{
    let key = ground_atom(alloc, &grounding.tables, env, atom)?;
    Ok(fact_id(grounding, key.as_slice()))
}

/// The number of the fluent that an atom is.
pub fn fluent_of(
    alloc: Global,
    grounding: &Grounding,
    env: &[Bound],
    fluent: &Atom,
) -> Result<FluentId, NoMemory>
    ensures { let g = ground_of grounding.now in
        IfOk result (λ n. n ≡ task.fluent_number g (ground_fluent g.world (env_of env.now) fluent.now)) }
{
    let key = ground_fluent(alloc, &grounding.tables, env, fluent)?;
    Ok(fluent_id(grounding, key.as_slice()))
}

// Puts the number of a fact at the end.
fn push_fact(
    alloc: Global,
    grounding: &Grounding,
    env: &[Bound],
    atom: &Atom,
    out: &mut Items<FactId>,
) -> Result<(), NoMemory>
    ensures { let g = ground_of grounding.now in OnOk result (out.new
        ≡ out.old ++ (task.fact_number g (ground_atom g.world (env_of env.now) atom.now) ∷ [])) }
{
    let fact = fact_of(alloc, grounding, env, atom)?;
    out.push(fact)?;
    Ok(())
}

// Puts a fluent with an amount at the end.
fn push_amount(
    alloc: Global,
    grounding: &Grounding,
    durative: bool,
    env: &[Bound],
    fluent: &Atom,
    form: &Form<FluentId, Fraction>,
    out: &mut Items<(FluentId, Amount)>,
) -> Result<(), NoMemory>
    ensures { let g = ground_of grounding.now in OnOk result (out.new ≡ out.old
        ++ ((task.fluent_number g (ground_fluent g.world (env_of env.now) fluent.now), task.amount g durative form.now) ∷ [])) }
{
    let id = fluent_of(alloc, grounding, env, fluent)?;
    let amount = amount(alloc, grounding, durative, form)?;
    out.push((id, amount))?;
    Ok(())
}

// Adds the change of a fluent. A decrease is the increase by the negative.
fn push_move(
    alloc: Global,
    grounding: &Grounding,
    durative: bool,
    env: &[Bound],
    kind: &ChangeKind,
    fluent: &Atom,
    tree: &ExprTree,
    effect: &mut Effect,
) -> Result<(), NoMemory>
    ensures { OnOk result (effect.new ≡ with_change (ground_of grounding.now) durative (env_of env.now) effect.old
        (Moves kind.now fluent.now tree.now)) }
{
    let form = value_form(alloc, &grounding.tables, env, tree)?;
    match kind {
        ChangeKind::Increase => {
            let out = &mut effect.increases;
            push_amount(alloc, grounding, durative, env, fluent, &form, out)?;
            Ok(())
        }
        ChangeKind::Decrease => {
            let opposite = negative(alloc, &form)?;
            let out = &mut effect.increases;
            push_amount(alloc, grounding, durative, env, fluent, &opposite, out)?;
            Ok(())
        }
        ChangeKind::Assign => {
            let out = &mut effect.assigns;
            push_amount(alloc, grounding, durative, env, fluent, &form, out)?;
            Ok(())
        }
    }
}

// Adds a change. A rate is no part of an effect.
fn push_change(
    alloc: Global,
    grounding: &Grounding,
    durative: bool,
    env: &[Bound],
    change: &Change,
    effect: &mut Effect,
) -> Result<(), NoMemory>
    ensures { OnOk result (effect.new ≡ with_change (ground_of grounding.now) durative (env_of env.now) effect.old
        (change_of change.now)) }
{
    match change {
        Change::Adds(atom) => {
            push_fact(alloc, grounding, env, atom, &mut effect.adds)?;
            Ok(())
        }
        Change::Deletes(atom) => {
            push_fact(alloc, grounding, env, atom, &mut effect.deletes)?;
            Ok(())
        }
        Change::Moves(kind, fluent, tree) => {
            push_move(alloc, grounding, durative, env, kind, fluent, tree, effect)
        }
        Change::Flows(_, _, _) => Ok(()),
    }
}

// Adds a change where it belongs to the stage.
fn push_change_at(
    alloc: Global,
    grounding: &Grounding,
    durative: bool,
    env: &[Bound],
    staged: &StagedChange,
    stage: &Stage,
    effect: &mut Effect,
) -> Result<(), NoMemory>
    ensures { OnOk result (effect.new ≡ with_changes (ground_of grounding.now) durative (env_of env.now) effect.old
        (parts_at stage.now (changes_of (staged.now ∷ [])))) }
{
    if is_same_stage(&staged.stage, stage) {
        push_change(alloc, grounding, durative, env, &staged.change, effect)
    } else {
        Ok(())
    }
}

/// What an action does at a stage; rates are no part of it.
pub fn effect(
    alloc: Global,
    grounding: &Grounding,
    durative: bool,
    env: &[Bound],
    changes: &[StagedChange],
    stage: &Stage,
) -> Result<Effect, NoMemory>
    ensures { IfOk result (λ effect. effect ≡ task.effect (ground_of grounding.now) durative (env_of env.now)
        (parts_at stage.now (changes_of changes.now))) }
{
    let mut effect = Effect {
        adds: Items::new(alloc),
        deletes: Items::new(alloc),
        assigns: Items::new(alloc),
        increases: Items::new(alloc),
    };
    for staged in changes {
        push_change_at(alloc, grounding, durative, env, staged, stage, &mut effect)?;
    }
    Ok(effect)
}
