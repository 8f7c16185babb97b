//! The tracked fluents: all but the meters, which nothing but the cost reads.

ghost use Rattle.std.specs.Prelude.{◌≡◌, ◌++◌, length, OnOk, IfOk};
ghost use Rattle.std.specs.List.{flat_map};
ghost use Rattle.task_types.specs.Clash.{form_fluents};
ghost use Rattle.task_types.specs.Touch.{snap_tracked, action_tracked, soft_fluents, tracked_fluents};
ghost use Rattle.task_types.specs.Related.{IsFlags};

use crate::actions::{Action, Bound, Snap};
use crate::costs::Soft;
use crate::parts::TaskParts;
use crate::touches::expressions::{
    push_amounts, push_changed, push_fluents, push_form, push_forms,
};
use exact_lin::NoMemory;
use sqlite_items::Items;
use std::alloc::Global;

// Puts the fluents that a snap action reads or assigns at the end.
fn push_snap(out: &mut Items<u32>, snap: &Snap) -> Result<(), NoMemory>
    ensures { OnOk result (out.new ≡ out.old ++ snap_tracked snap.now) }
{
    push_fluents(out, &snap.condition)?;
    push_amounts(out, snap.effect.assigns.as_slice())?;
    push_amounts(out, snap.effect.increases.as_slice())?;
    push_changed(out, snap.effect.assigns.as_slice())
}

fn push_snaps(out: &mut Items<u32>, snaps: &[Snap]) -> Result<(), NoMemory>
    ensures { OnOk result (out.new ≡ out.old ++ flat_map snap_tracked snaps.now) }
{
    for snap in snaps {
        push_snap(out, snap)?;
    }
    Ok(())
}

fn push_bounds(out: &mut Items<u32>, bounds: &[Bound]) -> Result<(), NoMemory>
    ensures { OnOk result (out.new ≡ out.old ++ flat_map (λ b. form_fluents b.form) bounds.now) }
{
    for bound in bounds {
        push_form(out, &bound.form)?;
    }
    Ok(())
}

// Puts the fluents that an action reads all the while, or for its duration, at the end.
fn push_action(out: &mut Items<u32>, action: &Action) -> Result<(), NoMemory>
    ensures { OnOk result (out.new ≡ out.old ++ action_tracked action.now) }
{
    push_fluents(out, &action.over_all)?;
    push_bounds(out, action.bounds.as_slice())
}

fn push_actions(out: &mut Items<u32>, actions: &[Action]) -> Result<(), NoMemory>
    ensures { OnOk result (out.new ≡ out.old ++ flat_map action_tracked actions.now) }
{
    for action in actions {
        push_action(out, action)?;
    }
    Ok(())
}

// Puts the fluents that a soft term reads at the end.
fn push_soft(out: &mut Items<u32>, soft: &Soft) -> Result<(), NoMemory>
    ensures { OnOk result (out.new ≡ out.old ++ soft_fluents soft.now) }
{
    match soft {
        Soft::Goal(_, forms, _) => push_forms(out, forms.as_slice()),
        Soft::Trail(_, _) | Soft::Late(_, _, _) | Soft::Pieces(_, _, _) => Ok(()),
    }
}

fn push_softs(out: &mut Items<u32>, softs: &[Soft]) -> Result<(), NoMemory>
    ensures { OnOk result (out.new ≡ out.old ++ flat_map soft_fluents softs.now) }
{
    for soft in softs {
        push_soft(out, soft)?;
    }
    Ok(())
}

// Puts the tracked fluents at the end, with repetitions.
fn push_tracked(out: &mut Items<u32>, parts: &TaskParts) -> Result<(), NoMemory>
    ensures { OnOk result (out.new ≡ out.old ++ tracked_fluents parts.now) }
{
    push_snaps(out, parts.snaps.as_slice())?;
    push_actions(out, parts.actions.as_slice())?;
    push_fluents(out, &parts.goal)?;
    push_softs(out, parts.soft.as_slice())?;
    Ok(())
}

// Flags that tell which of the numbers below `count` stand in the list.
fn flags_of(alloc: Global, numbers: &[u32], count: usize) -> Result<Vec<bool>, NoMemory>
    ensures { IfOk result (λ flags. IsFlags flags.items count numbers.now) }
{
    let mut flags = vec![in alloc; false; count]?;
    for number in numbers {
        let at = *number as usize;
        if at < flags.len() {
            flags[at] = true;
        }
    }
    Ok(flags)
}

/// A flag for each fluent, set where it is tracked.
pub fn tracked_flags(alloc: Global, parts: &TaskParts) -> Result<Vec<bool>, NoMemory>
    ensures { IfOk result
        (λ flags. IsFlags flags.items (length parts.now.fluents) (tracked_fluents parts.now)) }
{
    let mut fluents = Items::new(alloc);
    push_tracked(&mut fluents, parts)?;
    flags_of(alloc, fluents.as_slice(), parts.fluents.len())
}
