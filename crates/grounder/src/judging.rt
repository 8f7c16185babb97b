//! Which bindings of actions make ground actions, and the least place of the undefined reckonings of all bindings.

ghost use Rattle.std.specs.Prelude.{◌≡◌, ◌<◌, ◌≤◌, [], ◌∷◌, ◌++◌, false, true, map, if◌then◌else◌, None, IfOk, OnOk};
ghost use Rattle.std.specs.List.{filter, flat_map, list_all};
ghost use Rattle.ground_world.specs.World.{columns, variable_names};
ghost use Rattle.ground_world.specs.Bindings.{choice_count};
ghost use Rattle.ground_world.specs.Changes.{body_changes};
ghost use Rattle.ground_world.specs.Conditions.{body_bounds, body_conditions};
ghost use Rattle.ground_world.specs.Counts.{body_count, part_limit, fit_limits};
ghost use Rattle.ground_world.specs.Expressions.{wide_places};
ghost use Rattle.ground_world.specs.Shown.{env_of, world_of, names_of, columns_of};
ghost use Rattle.ground_world.specs.ShownBounds.{bounds_of};
ghost use Rattle.ground_world.specs.ShownChanges.{changes_of};
ghost use Rattle.grounder.specs.Answer.{least};
ghost use Rattle.grounder.specs.Instances.{instances_of, is_kept, kept, wide_in_instance, wide_in_actions};
ghost use Rattle.grounder.specs.Bindings.{flaws_in, keeps_reckoned, keeps, wides_in, numbered, lower};
ghost use Rattle.grounder.specs.ShownInstances.{all_of};
ghost use Rattle.grounder.specs.ShownPieces.{pieces_of};

use crate::assignments::assigns_twice;
use crate::binding_flaws::{binding_flaws, divides_by_zero};
use crate::flaws::{least_wide, lower};
use crate::instances::Instance;
use crate::mentions::has_values;
use crate::outlines::{Outline, outline_of};
use exact_lin::NoMemory;
use ground_world::{
    Bound, StagedParts, Tables, Variable, bound, choices_within, parts_of_action, static_holds,
    variables,
};
use pddl_terms::{ActionBody, ActionDef};
use sqlite_items::Items;
use std::alloc::Global;

/// The most bindings of an action that are looked at.
pub const MOST_BINDINGS: usize = 1_048_576;

// What is found of a binding: whether it makes an action, and the least place of its undefined reckonings that count.
#[derive(Clone, Copy, Drop)]
struct Finding {
    kept: bool,
    wide: Option<u32>,
}

/// The bindings that make actions, in order, and the least place of the undefined reckonings that count of all bindings.
#[derive(Drop)]
pub struct KeptInstances<'a> {
    pub instances: Items<Instance<'a>>,
    pub wide: Option<u32>,
}

// What is found of a binding that reckons nothing.
fn nothing() -> Finding
    ensures kept { result.kept ≡ false }
    ensures wide { result.wide ≡ None }
{
    Finding {
        kept: false,
        wide: None,
    }
}

// What is found of a binding whose static conditions hold and whose fluents have values.
fn judge_reckoned(
    alloc: Global,
    tables: &Tables,
    env: &[Bound],
    parts: &StagedParts,
    outline: &Outline,
) -> Result<Finding, NoMemory>
    ensures kept { IfOk result (λ f. f.kept
        ≡ keeps_reckoned (world_of tables.now) (env_of env.now) (pieces_of parts.now outline.now)) }
    ensures wide { IfOk result (λ f. f.wide
        ≡ least (wide_places (flaws_in (world_of tables.now) (env_of env.now) (pieces_of parts.now outline.now)))) }
{
    let flaws = binding_flaws(alloc, tables, env, parts, outline)?;
    let twice = assigns_twice(alloc, tables, env, outline.changes.as_slice())?;
    Ok(Finding {
        kept: !divides_by_zero(flaws.as_slice()) && !twice,
        wide: least_wide(flaws.as_slice()),
    })
}

// What is found of a binding with these conditions.
fn judge_parts(
    alloc: Global,
    tables: &Tables,
    env: &[Bound],
    parts: &StagedParts,
    outline: &Outline,
) -> Result<Finding, NoMemory>
    ensures kept { IfOk result (λ f. f.kept
        ≡ keeps (world_of tables.now) (env_of env.now) (pieces_of parts.now outline.now)) }
    ensures wide { IfOk result (λ f. f.wide
        ≡ least (wides_in (world_of tables.now) (env_of env.now) (pieces_of parts.now outline.now))) }
{
    if !static_holds(tables, parts.parts.as_slice()) {
        return Ok(nothing());
    }
    if !has_values(alloc, tables, env, parts, outline)? {
        return Ok(nothing());
    }
    judge_reckoned(alloc, tables, env, parts, outline)
}

// What is found of a binding of an action.
fn judge(
    alloc: Global,
    tables: &Tables,
    env: &[Bound],
    body: &ActionBody,
    outline: &Outline,
) -> Result<Finding, NoMemory>
    requires { body_count (world_of tables.now) body.now ≤ part_limit }
    ensures kept { IfOk result (λ f. f.kept ≡ keeps (world_of tables.now) (env_of env.now) (record {
      conditions = body_conditions (world_of tables.now) (env_of env.now) body.now;
      bounds = bounds_of outline.now.bounds;
      changes = changes_of outline.now.changes;
    })) }
    ensures wide { IfOk result (λ f. f.wide ≡ least (wides_in (world_of tables.now) (env_of env.now) (record {
      conditions = body_conditions (world_of tables.now) (env_of env.now) body.now;
      bounds = bounds_of outline.now.bounds;
      changes = changes_of outline.now.changes;
    }))) }
{
    let parts = parts_of_action(alloc, tables, env, body)?;
    judge_parts(alloc, tables, env, &parts, outline)
}

// The objects of a binding.
fn objects(alloc: Global, env: &[Bound]) -> Result<Items<u32>, NoMemory>
    ensures { IfOk result (λ args. args ≡ map (λ b. b.object) env.now) }
{
    let mut args = Items::new(alloc);
    for entry in env {
        args.push(entry.object)?;
    }
    Ok(args)
}

// Puts a binding at the end where it is kept.
fn push_kept<'a>(
    alloc: Global,
    action: &'a ActionDef,
    env: &[Bound],
    kept: bool,
    instances: &mut Items<Instance<'a>>,
) -> Result<(), NoMemory>
    ensures { OnOk result (all_of instances.new ≡ all_of instances.old
        ++ (if kept then (record { action = action.now; args = map (λ b. b.object) env.now } ∷ []) else [])) }
{
    if kept {
        let args = objects(alloc, env)?;
        instances.push(Instance { action, args })?;
    }
    Ok(())
}

// Looks at binding number `number` of an action.
fn judge_number<'a>(
    alloc: Global,
    tables: &'a Tables,
    action: &'a ActionDef,
    outline: &Outline,
    slots: &[Variable<'a>],
    number: usize,
    count: usize,
    found: &mut KeptInstances<'a>,
) -> Result<(), NoMemory>
    requires names { names_of slots.now ≡ variable_names action.now.parameters }
    requires columns { columns_of slots.now ≡ columns (world_of tables.now) action.now.parameters }
    requires bounds { bounds_of outline.now.bounds ≡ body_bounds action.now.body }
    requires changes { changes_of outline.now.changes ≡ body_changes action.now.body }
    requires fits { body_count (world_of tables.now) action.now.body ≤ part_limit }
    requires count { count ≡ choice_count (columns_of slots.now) }
    requires number { number < count }
    ensures instances { let w = world_of tables.now in
        OnOk result (all_of found.new.instances
        ≡ all_of found.old.instances ++ filter (is_kept w) (numbered w action.now number ∷ [])) }
    ensures wide { let w = world_of tables.now in
        OnOk result (found.new.wide
        ≡ lower found.old.wide (least (wide_in_instance w (numbered w action.now number)))) }
{
    let env = bound(alloc, &[], slots, number, count)?;
    let finding = judge(alloc, tables, env.as_slice(), &action.body, outline)?;
    found.wide = lower(&found.wide, &finding.wide);
    push_kept(
        alloc,
        action,
        env.as_slice(),
        finding.kept,
        &mut found.instances,
    )?;
    Ok(())
}

// Looks at all bindings of an action.
fn judge_action<'a>(
    alloc: Global,
    tables: &'a Tables,
    action: &'a ActionDef,
    found: &mut KeptInstances<'a>,
) -> Result<(), NoMemory>
    requires { let w = world_of tables.now in
        fit_limits (choice_count (columns w action.now.parameters)) (body_count w action.now.body) ≡ true }
    ensures instances { let w = world_of tables.now in
        OnOk result (all_of found.new.instances
        ≡ all_of found.old.instances ++ filter (is_kept w) (instances_of w action.now)) }
    ensures wide { let w = world_of tables.now in
        OnOk result (found.new.wide
        ≡ lower found.old.wide (least (flat_map (wide_in_instance w) (instances_of w action.now)))) }
{
    let outline = outline_of(alloc, &action.body)?;
    let variables = variables(alloc, tables, action.parameters.as_slice())?;
    let slots = variables.as_slice();
    let count = choices_within(slots, MOST_BINDINGS);
    for number in 0..count {
        judge_number(alloc, tables, action, &outline, slots, number, count, found)?;
    }
    Ok(())
}

/// The bindings of some actions that make ground actions, action by action, and the least place of the undefined reckonings
/// that count, also of bindings that make none. The actions have to be within the limits of bindings and of parts of
/// conditions.
pub fn kept_instances<'a>(
    alloc: Global,
    tables: &'a Tables,
    actions: &'a [ActionDef],
) -> Result<KeptInstances<'a>, NoMemory>
    requires { let w = world_of tables.now in
        list_all (λ a. fit_limits (choice_count (columns w a.parameters)) (body_count w a.body)) actions.now ≡ true }
    ensures instances { IfOk result (λ k. all_of k.instances ≡ kept (world_of tables.now) actions.now) }
    ensures wide { IfOk result (λ k. k.wide ≡ least (wide_in_actions (world_of tables.now) actions.now)) }
{
    let mut found = KeptInstances {
        instances: Items::new(alloc),
        wide: None,
    };
    for action in actions {
        judge_action(alloc, tables, action, &mut found)?;
    }
    Ok(found)
}
