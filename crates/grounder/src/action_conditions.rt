//! Conditions of ground actions at a stage. Static literals are left out.

ghost use Rattle.std.specs.Prelude.{◌≡◌, ◌<◌, [], ◌∷◌, ◌++◌, length, slice_index_or, IfOk, OnOk};
ghost use Rattle.ground_world.specs.Changes.{parts_at, Staged};
ghost use Rattle.ground_world.specs.Shown.{part_of};
ghost use Rattle.ground_world.specs.Conditions.{Lit};
ghost use Rattle.ground_world.specs.ShownParts.{staged_parts_of};
ghost use Rattle.grounder.specs.ShownGrounding.{ground_of};
ghost use Rattle.grounder.specs.Building.{with_part, with_parts};
ghost use Rattle.grounder.specs.Task as task;

use crate::assignments::is_same_stage;
use crate::fluent_forms::push_compared;
use crate::grounding::Grounding;
use crate::ids::fact_id;
use exact_lin::NoMemory;
use ground_world::{CondPart, Stage, StagedParts, symbol};
use sqlite_items::Items;
use std::alloc::Global;
use task_types::{Condition, Literal};

// Puts a literal at the end, unless its predicate is static.
fn push_literal(
    grounding: &Grounding,
    atom: &[u32],
    holds: bool,
    out: &mut Items<Literal>,
) -> Result<(), NoMemory>
    ensures { let g = ground_of grounding.now in
        OnOk result (out.new ≡ out.old ++ task.dynamic_literal g.world g.facts (Lit atom.now holds)) }
{
    if grounding.tables.is_static(symbol(atom)) {
        return Ok(());
    }
    let fact = fact_id(grounding, atom);
    out.push(Literal { fact, holds })?;
    Ok(())
}

// Adds what a part of a condition comes to.
fn push_part(
    alloc: Global,
    grounding: &Grounding,
    part: &CondPart,
    condition: &mut Condition,
) -> Result<(), NoMemory>
    ensures { OnOk result (condition.new
        ≡ with_part (ground_of grounding.now) condition.old (part_of part.now)) }
{
    match part {
        CondPart::Literal(atom, holds) => {
            push_literal(grounding, atom.as_slice(), *holds, &mut condition.literals)?;
            Ok(())
        }
        CondPart::Same(_) => Ok(()),
        CondPart::Compares(test) => {
            push_compared(alloc, grounding, test, &mut condition.comparisons)?;
            Ok(())
        }
    }
}

// Adds what a part of a condition comes to, where it belongs to the stage.
fn push_part_at(
    alloc: Global,
    grounding: &Grounding,
    part: &CondPart,
    own: &Stage,
    stage: &Stage,
    condition: &mut Condition,
) -> Result<(), NoMemory>
    ensures { OnOk result (condition.new ≡ with_parts (ground_of grounding.now) condition.old
        (parts_at stage.now (record { stage = own.now; part = part_of part.now } ∷ []))) }
{
    if is_same_stage(own, stage) {
        push_part(alloc, grounding, part, condition)
    } else {
        Ok(())
    }
}

/// The condition that an action has at a stage.
pub fn action_condition(
    alloc: Global,
    grounding: &Grounding,
    conditions: &StagedParts,
    stage: &Stage,
) -> Result<Condition, NoMemory>
    ensures { IfOk result (λ condition. condition
        ≡ task.action_condition (ground_of grounding.now) (parts_at stage.now (staged_parts_of conditions.now))) }
{
    let mut condition = Condition {
        literals: Items::new(alloc),
        comparisons: Items::new(alloc),
    };
    let parts = conditions.parts.as_slice();
    let stages = conditions.stages.as_slice();
    for at in 0..parts.len() {
        push_part_at(
            alloc,
            grounding,
            &parts[at],
            &stages[at],
            stage,
            &mut condition,
        )?;
    }
    Ok(condition)
}
