//! What a snap action looks at, changes or bends, and the action that it starts or ends, as lists of numbers.

ghost use Rattle.std.specs.Prelude.{◌≡◌, ◌++◌, [], ◌∷◌, OnOk, IfOk, MatchOption, option_to_list};
ghost use Rattle.std.specs.List.{flat_map, filter};
ghost use Rattle.task_types.specs.Plan.{action_of, snap_of, no_action, no_snap};
ghost use Rattle.task_types.specs.Clash.{form_fluents, condition_facts, condition_fluents, is_read_at, read_bounds};
ghost use Rattle.task_types.specs.Touch.{started_or_ended, watches, bent_fluents};
ghost use Rattle.task_types.specs.Related.{related};

use crate::actions::{Action, Bound, Snap, SnapKind};
use crate::conditions::Condition;
use crate::parts::TaskParts;
use crate::touches::expressions::{
    push_amounts, push_changed, push_facts, push_fluents, push_form, push_ids, push_rates,
};
use exact_lin::{ActionId, Id, NoMemory, SnapId};
use sqlite_items::Items;
use std::alloc::Global;

/// How a snap action stands to facts, to fluents, and to the action that it starts or ends.
#[derive(Clone, Copy, Drop)]
pub enum Relation {
    LookedFacts,
    ChangedFacts,
    LookedFluents,
    WrittenFluents,
    BentFluents,
    OwnAction,
}

fn is_read(kind: SnapKind, bound: &Bound) -> bool
    ensures { result ≡ is_read_at kind bound.now }
{
    match kind {
        SnapKind::Start => !bound.at_end,
        SnapKind::End => bound.at_end,
        SnapKind::Instant | SnapKind::Timed => false,
    }
}

// Puts the fluents of the bounds that are read at a kind of step at the end.
fn push_read_bounds(out: &mut Items<u32>, kind: SnapKind, bounds: &[Bound]) -> Result<(), NoMemory>
    ensures { OnOk result
        (out.new ≡ out.old
        ++ flat_map (λ b. form_fluents b.form) (filter (is_read_at kind) bounds.now)) }
{
    for bound in bounds {
        if is_read(kind, bound) {
            push_form(out, &bound.form)?;
        }
    }
    Ok(())
}

// The durative action that a snap action starts or ends.
fn durative_action(snap: &Snap) -> Option<ActionId>
    ensures { option_to_list result ≡ started_or_ended snap.now }
{
    match snap.kind {
        SnapKind::Start | SnapKind::End => snap.action,
        SnapKind::Instant | SnapKind::Timed => None,
    }
}

// The action of a number, if there is one.
fn action_at(parts: &TaskParts, id: ActionId) -> Option<&Action>
    ensures { MatchOption result
        (action_of parts.now id ≡ no_action)
        (λ action. action.now ≡ action_of parts.now id) }
{
    match parts.actions.get(id.number() as usize) {
        Some(action) => Some(action),
        None => None,
    }
}

// The snap action of a number, if there is one.
fn snap_at(parts: &TaskParts, id: SnapId) -> Option<&Snap>
    ensures { MatchOption result
        (snap_of parts.now id ≡ no_snap)
        (λ snap. snap.now ≡ snap_of parts.now id) }
{
    match parts.snaps.get(id.number() as usize) {
        Some(snap) => Some(snap),
        None => None,
    }
}

// The start of an action; a number without an action, which no task has, counts as one that starts with snap action 0.
fn start_of(parts: &TaskParts, id: ActionId) -> SnapId
    ensures { result ≡ (action_of parts.now id).start }
{
    match action_at(parts, id) {
        Some(action) => action.start,
        None => SnapId::of(0),
    }
}

// The over-all condition that a step watches, if there is one.
fn watched<'a>(parts: &'a TaskParts, snap: &Snap) -> Option<&'a Condition>
    ensures { MatchOption result
        ((flat_map condition_facts (watches parts.now snap.now) ≡ [])
        × (flat_map condition_fluents (watches parts.now snap.now) ≡ []))
        (λ condition. watches parts.now snap.now ≡ condition.now ∷ []) }
{
    let id = durative_action(snap)?;
    match action_at(parts, id) {
        Some(action) => Some(&action.over_all),
        None => None,
    }
}

// Puts the facts of the over-all condition that a step watches at the end.
fn push_watched_facts(out: &mut Items<u32>, parts: &TaskParts, snap: &Snap) -> Result<(), NoMemory>
    ensures { OnOk result
        (out.new ≡ out.old ++ flat_map condition_facts (watches parts.now snap.now)) }
{
    if let Some(condition) = watched(parts, snap) {
        push_facts(out, condition)?;
    }
    Ok(())
}

// Puts the fluents of the over-all condition that a step watches at the end.
fn push_watched_fluents(
    out: &mut Items<u32>,
    parts: &TaskParts,
    snap: &Snap,
) -> Result<(), NoMemory>
    ensures { OnOk result
        (out.new ≡ out.old ++ flat_map condition_fluents (watches parts.now snap.now)) }
{
    if let Some(condition) = watched(parts, snap) {
        push_fluents(out, condition)?;
    }
    Ok(())
}

// Puts the fluents of the duration bounds that are read at a step at the end.
fn push_own_bounds(out: &mut Items<u32>, parts: &TaskParts, snap: &Snap) -> Result<(), NoMemory>
    ensures { OnOk result
        (out.new ≡ out.old
        ++ flat_map (λ b. form_fluents b.form) (read_bounds parts.now snap.now)) }
{
    if let Some(id) = snap.action {
        if let Some(action) = action_at(parts, id) {
            push_read_bounds(out, snap.kind, action.bounds.as_slice())?;
        }
    }
    Ok(())
}

// Puts the fluents on which the action of a step has rates at the end.
fn push_bent(out: &mut Items<u32>, parts: &TaskParts, snap: &Snap) -> Result<(), NoMemory>
    ensures { OnOk result (out.new ≡ out.old ++ bent_fluents parts.now snap.now) }
{
    if let Some(id) = durative_action(snap) {
        if let Some(start) = snap_at(parts, start_of(parts, id)) {
            push_rates(out, start.rates.as_slice())?;
        }
    }
    Ok(())
}

fn push_looked_fluents(out: &mut Items<u32>, parts: &TaskParts, snap: &Snap) -> Result<(), NoMemory>
    ensures { OnOk result (out.new ≡ out.old ++ related parts.now Relation.LookedFluents snap.now) }
{
    push_fluents(out, &snap.condition)?;
    push_amounts(out, snap.effect.assigns.as_slice())?;
    push_amounts(out, snap.effect.increases.as_slice())?;
    push_own_bounds(out, parts, snap)?;
    push_watched_fluents(out, parts, snap)
}

// Puts what a snap action is related to at the end.
fn push_related(
    out: &mut Items<u32>,
    parts: &TaskParts,
    relation: Relation,
    snap: &Snap,
) -> Result<(), NoMemory>
    ensures { OnOk result (out.new ≡ out.old ++ related parts.now relation snap.now) }
{
    match relation {
        Relation::LookedFacts => {
            push_facts(out, &snap.condition)?;
            push_watched_facts(out, parts, snap)
        }
        Relation::ChangedFacts => {
            push_ids(out, snap.effect.adds.as_slice())?;
            push_ids(out, snap.effect.deletes.as_slice())
        }
        Relation::LookedFluents => push_looked_fluents(out, parts, snap),
        Relation::WrittenFluents => {
            push_changed(out, snap.effect.assigns.as_slice())?;
            push_changed(out, snap.effect.increases.as_slice())
        }
        Relation::BentFluents => push_bent(out, parts, snap),
        Relation::OwnAction => {
            if let Some(id) = durative_action(snap) {
                out.push(id.number())?;
            }
            Ok(())
        }
    }
}

/// What a snap action is related to, with repetitions.
pub fn related_numbers(
    alloc: Global,
    parts: &TaskParts,
    relation: Relation,
    snap: &Snap,
) -> Result<Items<u32>, NoMemory>
    ensures { IfOk result (λ numbers. numbers ≡ related parts.now relation snap.now) }
{
    let mut numbers = Items::new(alloc);
    push_related(&mut numbers, parts, relation, snap)?;
    Ok(numbers)
}
