//! Whether one snap action of a binding assigns a fluent twice.

ghost use Rattle.std.specs.Prelude.{◌≡◌, [], ◌∷◌, ◌++◌, IfOk, OnOk};
ghost use Rattle.std.specs.List.{flat_map};
ghost use Rattle.pddl_terms.specs.declared.trees.ExprTree.{ExprTree};
ghost use Rattle.ground_world.specs.Changes.{Moves, same_stage, parts_at};
ghost use Rattle.ground_world.specs.Shown.{env_of, world_of};
ghost use Rattle.ground_world.specs.ShownChanges.{change_of, changes_of};
ghost use Rattle.grounder.specs.Instances.{assigned_by, is_twice};
ghost use Rattle.grounder.specs.Bindings.{twice_at, twice_in};

use exact_lin::NoMemory;
use ground_world::{Bound, Change, Numbering, Stage, StagedChange, Tables, ground_fluent};
use pddl_terms::{Atom, ChangeKind};
use sqlite_items::Items;
use std::alloc::Global;

/// Whether two stages are one.
pub fn is_same_stage(one: &Stage, other: &Stage) -> bool
    ensures { result ≡ same_stage one.now other.now }
{
    match one {
        Stage::AtStart => match other {
            Stage::AtStart => true,
            Stage::OverAll => false,
            Stage::AtEnd => false,
        },
        Stage::OverAll => match other {
            Stage::AtStart => false,
            Stage::OverAll => true,
            Stage::AtEnd => false,
        },
        Stage::AtEnd => match other {
            Stage::AtStart => false,
            Stage::OverAll => false,
            Stage::AtEnd => true,
        },
    }
}

// Puts the fluent of an assignment at the end.
fn push_moved(
    alloc: Global,
    tables: &Tables,
    env: &[Bound],
    kind: &ChangeKind,
    fluent: &Atom,
    out: &mut Items<Items<u32>>,
) -> Result<(), NoMemory>
    ensures { (e : ExprTree) → OnOk result (out.new ≡ out.old
        ++ assigned_by (world_of tables.now) (env_of env.now) (Moves kind.now fluent.now e)) }
{
    match kind {
        ChangeKind::Increase => Ok(()),
        ChangeKind::Decrease => Ok(()),
        ChangeKind::Assign => {
            let key = ground_fluent(alloc, tables, env, fluent)?;
            out.push(key)?;
            Ok(())
        }
    }
}

// Puts the fluent that a change assigns at the end.
fn push_assigned(
    alloc: Global,
    tables: &Tables,
    env: &[Bound],
    change: &Change,
    out: &mut Items<Items<u32>>,
) -> Result<(), NoMemory>
    ensures { OnOk result (out.new ≡ out.old
        ++ assigned_by (world_of tables.now) (env_of env.now) (change_of change.now)) }
{
    match change {
        Change::Adds(_) => Ok(()),
        Change::Deletes(_) => Ok(()),
        Change::Moves(kind, fluent, _) => push_moved(alloc, tables, env, kind, fluent, out),
        Change::Flows(_, _, _) => Ok(()),
    }
}

// Puts the fluent that a change assigns at the end, where it belongs to the stage.
fn push_assigned_at(
    alloc: Global,
    tables: &Tables,
    env: &[Bound],
    staged: &StagedChange,
    stage: &Stage,
    out: &mut Items<Items<u32>>,
) -> Result<(), NoMemory>
    ensures { OnOk result (out.new ≡ out.old ++ flat_map (assigned_by (world_of tables.now) (env_of env.now))
        (parts_at stage.now (changes_of (staged.now ∷ [])))) }
{
    if is_same_stage(&staged.stage, stage) {
        push_assigned(alloc, tables, env, &staged.change, out)
    } else {
        Ok(())
    }
}

// The fluents that changes of a stage assign, in the order of the text.
fn assigned_at(
    alloc: Global,
    tables: &Tables,
    env: &[Bound],
    changes: &[StagedChange],
    stage: &Stage,
) -> Result<Items<Items<u32>>, NoMemory>
    ensures { IfOk result (λ fluents. fluents ≡ flat_map (assigned_by (world_of tables.now) (env_of env.now))
        (parts_at stage.now (changes_of changes.now))) }
{
    let mut out = Items::new(alloc);
    for staged in changes {
        push_assigned_at(alloc, tables, env, staged, stage, &mut out)?;
    }
    Ok(out)
}

// Whether one of some fluents is there twice.
fn is_twice(alloc: Global, fluents: &[Items<u32>]) -> Result<bool, NoMemory>
    ensures { IfOk result (λ twice. twice ≡ is_twice fluents.now) }
{
    let mut seen = Numbering::new(alloc);
    for fluent in fluents {
        let key = fluent.as_slice();
        if seen.has(key) {
            return Ok(true);
        }
        seen.add(Vec::from_slice(alloc, key)?)?;
    }
    Ok(false)
}

// Whether changes of a stage assign a fluent twice.
fn twice_at(
    alloc: Global,
    tables: &Tables,
    env: &[Bound],
    changes: &[StagedChange],
    stage: &Stage,
) -> Result<bool, NoMemory>
    ensures { IfOk result (λ twice. twice
        ≡ twice_at (world_of tables.now) (env_of env.now) stage.now (changes_of changes.now)) }
{
    let fluents = assigned_at(alloc, tables, env, changes, stage)?;
    is_twice(alloc, fluents.as_slice())
}

/// Whether the changes at the start, or those at the end, assign a fluent twice.
pub fn assigns_twice(
    alloc: Global,
    tables: &Tables,
    env: &[Bound],
    changes: &[StagedChange],
) -> Result<bool, NoMemory>
    ensures { IfOk result (λ twice. twice
        ≡ twice_in (world_of tables.now) (env_of env.now) (changes_of changes.now)) }
{
    let at_start = twice_at(alloc, tables, env, changes, &Stage::AtStart)?;
    let at_end = twice_at(alloc, tables, env, changes, &Stage::AtEnd)?;
    Ok(at_start || at_end)
}
