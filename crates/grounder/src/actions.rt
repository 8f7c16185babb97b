//! Ground actions and their snap actions.

ghost use Rattle.std.specs.Prelude.{◌≡◌, ◌<◌, ◌≤◌, ◌+◌, ◌-◌, ◌^◌, [], ◌∷◌, ◌++◌, length, map, if◌then◌else◌, Some, None, IfOk, OnOk, nat_le, true, false};
ghost use Rattle.std.specs.List.{list_all};
ghost use Rattle.rational.specs.Rational.{ℚ};
ghost use Rattle.ground_world.specs.Bindings.{paired};
ghost use Rattle.ground_world.specs.Changes.{changes};
ghost use Rattle.ground_world.specs.Conditions.{body_bounds};
ghost use Rattle.ground_world.specs.Counts.{body_count, part_limit};
ghost use Rattle.ground_world.specs.Shown.{env_of, world_of, names_of};
ghost use Rattle.grounder.specs.Instances as instances;
ghost use Rattle.grounder.specs.ShownGrounding.{ground_of};
ghost use Rattle.grounder.specs.ShownInstances.{instance_of, all_of};
ghost use Rattle.grounder.specs.ShownPieces.{pieces_of};
ghost use Rattle.grounder.specs.Building.{snap_from, snaps_from};
ghost use Rattle.grounder.specs.Task as task;

use crate::action_conditions::action_condition;
use crate::action_effects::effect;
use crate::bounds::bounds;
use crate::grounding::Grounding;
use crate::instances::Instance;
use crate::outlines::{Outline, outline_of};
use crate::rates::rates;
use exact_lin::{ActionId, FluentId, Fraction, Id, NoMemory, SnapId};
use ground_world::{Bound, Stage, StagedParts, Tables, Variable, parts_of_action, variables};
use pddl_terms::{ActionBody, ActionDef};
use sqlite_items::Items;
use std::alloc::Global;
use task_types::{Action, Snap, SnapKind};

/// The ground actions of a task and their snap actions, each in order. A snap action's number is its place.
#[derive(Drop)]
pub struct GroundActions {
    pub actions: Items<Action>,
    pub snaps: Items<Snap>,
}

// A binding of an action with its conditions, quantifiers written out, and with its bounds and changes.
#[derive(Drop)]
struct Written<'a> {
    env: Items<Bound<'a>>,
    parts: StagedParts<'a>,
    outline: Outline<'a>,
}

/// Whether an action is durative.
pub fn is_durative(body: &ActionBody) -> bool
    ensures { result ≡ task.is_durative body.now }
{
    match body {
        ActionBody::Instant(_, _) => false,
        ActionBody::Durative(_, _, _) => true,
    }
}

// Variables paired with the objects that were chosen for them.
fn pair<'a>(
    alloc: Global,
    slots: &[Variable<'a>],
    objects: &[u32],
) -> Result<Items<Bound<'a>>, NoMemory>
    ensures { IfOk result (λ env. env_of env ≡ paired (names_of slots.now) objects.now) }
{
    let mut env = Items::new(alloc);
    for at in 0..slots.len().min(objects.len()) {
        env.push(Bound {
            name: slots[at].name,
            object: objects[at],
        })?;
    }
    Ok(env)
}

// The binding that an instance is.
fn env_of_instance<'a>(
    alloc: Global,
    tables: &'a Tables,
    instance: &Instance<'a>,
) -> Result<Items<Bound<'a>>, NoMemory>
    ensures { IfOk result (λ env. env_of env ≡ instances.env_of (instance_of instance.now)) }
{
    let slots = variables(alloc, tables, instance.action.parameters.as_slice())?;
    pair(alloc, slots.as_slice(), instance.args.as_slice())
}

// An instance with its conditions written out.
fn write_out<'a>(
    alloc: Global,
    tables: &'a Tables,
    instance: &Instance<'a>,
) -> Result<Written<'a>, NoMemory>
    requires { body_count (world_of tables.now) instance.now.action.now.body ≤ part_limit }
    ensures env { IfOk result (λ x. env_of x.env ≡ instances.env_of (instance_of instance.now)) }
    ensures pieces { IfOk result (λ x. pieces_of x.parts x.outline ≡ record {
      conditions = instances.conditions_of (world_of tables.now) (instance_of instance.now);
      bounds = body_bounds instance.now.action.now.body;
      changes = changes instance.now.action.now;
    }) }
{
    let env = env_of_instance(alloc, tables, instance)?;
    let parts = parts_of_action(alloc, tables, env.as_slice(), &instance.action.body)?;
    let outline = outline_of(alloc, &instance.action.body)?;
    Ok(Written {
        env,
        parts,
        outline,
    })
}

// A snap action of a binding.
fn snap(
    alloc: Global,
    grounding: &Grounding,
    number: u32,
    durative: bool,
    instance: &Written,
    kind: SnapKind,
    stage: &Stage,
    rates: Items<(FluentId, Fraction)>,
) -> Result<Snap, NoMemory>
    ensures { IfOk result (λ s. s ≡ snap_from (ground_of grounding.now) number durative (env_of instance.now.env)
        (pieces_of instance.now.parts instance.now.outline) kind stage.now rates) }
{
    let env = instance.env.as_slice();
    let changes = instance.outline.changes.as_slice();
    let condition = action_condition(alloc, grounding, &instance.parts, stage)?;
    let effect = effect(alloc, grounding, durative, env, changes, stage)?;
    Ok(Snap {
        kind,
        action: Some(ActionId::of(number)),
        condition,
        effect,
        rates,
    })
}

// Puts the snap actions of a durative action at the end: its start, which has the rates, and its end.
fn push_start_and_end(
    alloc: Global,
    grounding: &Grounding,
    number: u32,
    instance: &Written,
    out: &mut Items<Snap>,
) -> Result<(), NoMemory>
    ensures { OnOk result (out.new ≡ out.old ++ snaps_from (ground_of grounding.now) number true (env_of instance.now.env)
        (pieces_of instance.now.parts instance.now.outline)) }
{
    let changes = instance.outline.changes.as_slice();
    let rates = rates(alloc, grounding, instance.env.as_slice(), changes)?;
    let start = snap(
        alloc,
        grounding,
        number,
        true,
        instance,
        SnapKind::Start,
        &Stage::AtStart,
        rates,
    )?;
    out.push(start)?;
    let none = Items::new(alloc);
    let end = snap(
        alloc,
        grounding,
        number,
        true,
        instance,
        SnapKind::End,
        &Stage::AtEnd,
        none,
    )?;
    out.push(end)?;
    Ok(())
}

// Puts the snap action of an instantaneous action at the end.
fn push_instant(
    alloc: Global,
    grounding: &Grounding,
    number: u32,
    instance: &Written,
    out: &mut Items<Snap>,
) -> Result<(), NoMemory>
    ensures { OnOk result (out.new ≡ out.old ++ snaps_from (ground_of grounding.now) number false (env_of instance.now.env)
        (pieces_of instance.now.parts instance.now.outline)) }
{
    let none = Items::new(alloc);
    let snap = snap(
        alloc,
        grounding,
        number,
        false,
        instance,
        SnapKind::Instant,
        &Stage::AtStart,
        none,
    )?;
    out.push(snap)?;
    Ok(())
}

// Puts the snap actions of a binding at the end.
fn push_snaps(
    alloc: Global,
    grounding: &Grounding,
    number: u32,
    durative: bool,
    instance: &Written,
    out: &mut Items<Snap>,
) -> Result<(), NoMemory>
    ensures { OnOk result (out.new ≡ out.old ++ snaps_from (ground_of grounding.now) number durative (env_of instance.now.env)
        (pieces_of instance.now.parts instance.now.outline)) }
{
    if durative {
        push_start_and_end(alloc, grounding, number, instance, out)
    } else {
        push_instant(alloc, grounding, number, instance, out)
    }
}

// The number of the end of a durative action whose start has this number.
fn end_of(durative: bool, start: u32) -> Option<SnapId>
    requires { start + 1 < 2 ^ 32 }
    ensures { result ≡ (if durative then Some (start + 1) else None) }
{
    if durative {
        Some(SnapId::of(start + 1))
    } else {
        None
    }
}

// The ground action whose first snap action has this number.
fn action(
    alloc: Global,
    grounding: &Grounding,
    start: u32,
    instance: &Instance,
    written: &Written,
) -> Result<Action, NoMemory>
    requires start { start + 1 < 2 ^ 32 }
    requires env { env_of written.now.env ≡ instances.env_of (instance_of instance.now) }
    requires pieces { pieces_of written.now.parts written.now.outline ≡ record {
      conditions = instances.conditions_of (world_of grounding.now.tables) (instance_of instance.now);
      bounds = body_bounds instance.now.action.now.body;
      changes = changes instance.now.action.now;
    } }
    ensures { IfOk result (λ a. a ≡ task.action_of (ground_of grounding.now) start (instance_of instance.now)) }
{
    let name = Items::from_slice(alloc, instance.action.name.bytes.as_slice())?;
    let args = Items::from_slice(alloc, instance.args.as_slice())?;
    let bounds = bounds(
        alloc,
        grounding,
        written.env.as_slice(),
        written.outline.bounds.as_slice(),
    )?;
    let over_all = action_condition(alloc, grounding, &written.parts, &Stage::OverAll)?;
    Ok(Action {
        name,
        args,
        start: SnapId::of(start),
        end: end_of(is_durative(&instance.action.body), start),
        bounds,
        over_all,
    })
}

// Puts the action of a binding, and its snap actions, at the end.
fn push_instance(
    alloc: Global,
    grounding: &Grounding,
    instance: &Instance,
    out: &mut GroundActions,
) -> Result<(), NoMemory>
    requires fits { body_count (world_of grounding.now.tables) instance.now.action.now.body ≤ part_limit }
    requires few_actions { length out.old.actions < 2 ^ 31 }
    requires few_snaps { length out.old.snaps < 2 ^ 32 - 1 }
    ensures actions { OnOk result (out.new.actions ≡ out.old.actions
        ++ (task.action_of (ground_of grounding.now) (length out.old.snaps) (instance_of instance.now) ∷ [])) }
    ensures snaps { OnOk result (out.new.snaps ≡ out.old.snaps
        ++ task.snaps_of (ground_of grounding.now) (length out.old.actions) (instance_of instance.now)) }
{
    let written = write_out(alloc, &grounding.tables, instance)?;
    let number = out.actions.len() as u32;
    let start = out.snaps.len() as u32;
    let action = action(alloc, grounding, start, instance, &written)?;
    out.actions.push(action)?;
    let durative = is_durative(&instance.action.body);
    push_snaps(alloc, grounding, number, durative, &written, &mut out.snaps)?;
    Ok(())
}

/// The ground actions of some bindings, and their snap actions, which are numbered in order. The conditions of the actions
/// have to be within the limit.
pub fn ground_actions(
    alloc: Global,
    grounding: &Grounding,
    instances: &[Instance],
) -> Result<GroundActions, NoMemory>
    requires fit { let w = world_of grounding.now.tables in
        list_all (λ i. nat_le (body_count w i.action.body) part_limit) (all_of instances.now) ≡ true }
    requires few { length instances.now < 2 ^ 31 }
    ensures actions { IfOk result (λ a. a.actions
        ≡ task.numbered_actions (ground_of grounding.now) 0 (all_of instances.now)) }
    ensures snaps { IfOk result (λ a. a.snaps ≡ task.action_snaps (ground_of grounding.now) (all_of instances.now)) }
{
    let mut out = GroundActions {
        actions: Items::new(alloc),
        snaps: Items::new(alloc),
    };
    for instance in instances {
        push_instance(alloc, grounding, instance, &mut out)?;
    }
    Ok(out)
}
