//! The conditions of an action, each part at its stage, in the order of the text.

ghost use Rattle.std.specs.Prelude.{◌≡◌, ◌≤◌, [], ◌∷◌, ◌++◌, map, replicate, IfOk, OnOk};
ghost use Rattle.ground_world.specs.Changes.{staged};
ghost use Rattle.ground_world.specs.Conditions.{condition_parts, timed_condition_parts, body_conditions};
ghost use Rattle.ground_world.specs.Counts.{condition_count, timed_count, body_count, part_limit};
ghost use Rattle.ground_world.specs.Shown.{env_of, world_of, parts_of};
ghost use Rattle.ground_world.specs.ShownParts.{staged_parts_of};

use crate::binding::Bound;
use crate::changes::Stage;
use crate::conditions::push_parts;
use crate::parts::CondPart;
use crate::staged_parts::StagedParts;
use crate::tables::Tables;
use exact_lin::NoMemory;
use pddl_terms::{ActionBody, CondTree, TimedCond};
use sqlite_items::Items;
use std::alloc::Global;

// Puts a stage at the end so many times.
fn push_stages(stages: &mut Items<Stage>, stage: Stage, count: usize) -> Result<(), NoMemory>
    ensures { OnOk result (stages.new ≡ stages.old ++ replicate count stage) }
{
    for _part in 0..count {
        stages.push(stage)?;
    }
    Ok(())
}

// Puts the parts of a condition at the end, each with the stage.
fn push_staged<'a>(
    alloc: Global,
    tables: &'a Tables,
    env: &[Bound<'a>],
    stage: Stage,
    condition: &'a CondTree,
    parts: &mut Items<CondPart<'a>>,
    stages: &mut Items<Stage>,
) -> Result<(), NoMemory>
    requires { condition_count (world_of tables.now) condition.now ≤ part_limit }
    ensures parts { OnOk result (parts_of parts.new ≡ parts_of parts.old
        ++ map (λ p. p.part) (staged stage (condition_parts (world_of tables.now) (env_of env.now) condition.now))) }
    ensures stages { OnOk result (stages.new ≡ stages.old
        ++ map (λ p. p.stage) (staged stage (condition_parts (world_of tables.now) (env_of env.now) condition.now))) }
{
    let mut found = Items::new(alloc);
    push_parts(alloc, tables, env, condition, false, &mut found)?;
    push_stages(stages, stage, found.len())?;
    parts.append(found)?;
    Ok(())
}

// Puts the parts of a condition of a durative action at the end, each with its stage.
fn push_timed<'a>(
    alloc: Global,
    tables: &'a Tables,
    env: &[Bound<'a>],
    condition: &'a TimedCond,
    parts: &mut Items<CondPart<'a>>,
    stages: &mut Items<Stage>,
) -> Result<(), NoMemory>
    requires { timed_count (world_of tables.now) condition.now ≤ part_limit }
    ensures parts { OnOk result (parts_of parts.new ≡ parts_of parts.old
        ++ map (λ p. p.part) (timed_condition_parts (world_of tables.now) (env_of env.now) condition.now)) }
    ensures stages { OnOk result (stages.new ≡ stages.old
        ++ map (λ p. p.stage) (timed_condition_parts (world_of tables.now) (env_of env.now) condition.now)) }
{
    match condition {
        TimedCond::Empty(_) => Ok(()),
        TimedCond::And(_, inner) => {
            for part in inner.as_slice() {
                push_timed(alloc, tables, env, part, parts, stages)?;
            }
            Ok(())
        }
        TimedCond::AtStart(_, inner) => {
            push_staged(alloc, tables, env, Stage::AtStart, inner, parts, stages)
        }
        TimedCond::OverAll(_, inner) => {
            push_staged(alloc, tables, env, Stage::OverAll, inner, parts, stages)
        }
        TimedCond::AtEnd(_, inner) => {
            push_staged(alloc, tables, env, Stage::AtEnd, inner, parts, stages)
        }
        TimedCond::LeftOut(_) => Ok(()),
    }
}

// The parts of the conditions of an action at the end of the others, and their stages.
fn push_conditions<'a>(
    alloc: Global,
    tables: &'a Tables,
    env: &[Bound<'a>],
    body: &'a ActionBody,
    parts: &mut Items<CondPart<'a>>,
    stages: &mut Items<Stage>,
) -> Result<(), NoMemory>
    requires { body_count (world_of tables.now) body.now ≤ part_limit }
    ensures parts { OnOk result (parts_of parts.new ≡ parts_of parts.old
        ++ map (λ p. p.part) (body_conditions (world_of tables.now) (env_of env.now) body.now)) }
    ensures stages { OnOk result (stages.new ≡ stages.old
        ++ map (λ p. p.stage) (body_conditions (world_of tables.now) (env_of env.now) body.now)) }
{
    match body {
        ActionBody::Instant(Some(condition), _) => {
            push_staged(alloc, tables, env, Stage::AtStart, condition, parts, stages)
        }
        ActionBody::Instant(None, _) => Ok(()),
        ActionBody::Durative(_, Some(condition), _) => {
            push_timed(alloc, tables, env, condition, parts, stages)
        }
        ActionBody::Durative(_, None, _) => Ok(()),
    }
}

/// The parts of the conditions of an action under a binding, each at its stage.
pub fn parts_of_action<'a>(
    alloc: Global,
    tables: &'a Tables,
    env: &[Bound<'a>],
    body: &'a ActionBody,
) -> Result<StagedParts<'a>, NoMemory>
    requires { body_count (world_of tables.now) body.now ≤ part_limit }
    ensures { IfOk result (λ found. staged_parts_of found
        ≡ body_conditions (world_of tables.now) (env_of env.now) body.now) }
{
    let mut parts = Items::new(alloc);
    let mut stages = Items::new(alloc);
    push_conditions(alloc, tables, env, body, &mut parts, &mut stages)?;
    Ok(StagedParts { parts, stages })
}
