//! What an action changes: the parts of its effects, in the order of the text.

ghost use Rattle.std.specs.Prelude.{◌≡◌, [], ◌∷◌, ◌++◌, map, IfOk, OnOk};
ghost use Rattle.std.specs.List.{flat_map};
ghost use Rattle.ground_world.specs.Changes.{Deletes, Moves, Flows, atoms_in, staged, effect_parts, timed_effect_parts, body_changes};
ghost use Rattle.ground_world.specs.ShownChanges.{change_of, changes_of};

use exact_lin::NoMemory;
use pddl_terms::{
    ActionBody, Atom, Call, ChangeKind, EffTree, ExprTree, RateTree, TimedEff, Trend,
};
use sqlite_items::Items;
use std::alloc::Global;

/// Where in an action a part belongs, which is its time specifier in PDDL 2.1. An instantaneous action has all its parts
/// at its start, and a rate belongs to the start.
#[derive(Clone, Copy, Debug, PartialEq, Eq)]
pub enum Stage {
    AtStart,
    OverAll,
    AtEnd,
}

/// A part of an effect: it makes a fact true or false, changes a fluent at a moment, or gives it a rate.
#[derive(Clone, Copy, Drop)]
pub enum Change<'a> {
    Adds(&'a Atom),
    Deletes(&'a Atom),
    Moves(ChangeKind, &'a Atom, &'a ExprTree),
    Flows(Trend, &'a Atom, &'a RateTree),
}

/// A part of an effect with the stage at which it belongs.
#[derive(Clone, Copy, Drop)]
pub struct StagedChange<'a> {
    pub stage: Stage,
    pub change: Change<'a>,
}

// Puts one change at the end.
fn push<'a>(
    stage: Stage,
    change: Change<'a>,
    out: &mut Items<StagedChange<'a>>,
) -> Result<(), NoMemory>
    ensures { OnOk result (changes_of out.new ≡ changes_of out.old ++ staged stage (change_of change.entry ∷ [])) }
{
    out.push(StagedChange { stage, change })?;
    Ok(())
}

// Puts what a `not` makes false at the end.
fn push_deleted<'a>(
    stage: Stage,
    call: &'a Call,
    out: &mut Items<StagedChange<'a>>,
) -> Result<(), NoMemory>
    ensures { OnOk result (changes_of out.new ≡ changes_of out.old ++ staged stage (map Deletes (atoms_in call.now))) }
{
    match call {
        Call::Named(atom) => push(stage, Change::Deletes(atom), out),
        Call::LeftOut(_) => Ok(()),
    }
}

// Puts the change of a fluent at the end.
fn push_moved<'a>(
    stage: Stage,
    kind: ChangeKind,
    call: &'a Call,
    amount: &'a ExprTree,
    out: &mut Items<StagedChange<'a>>,
) -> Result<(), NoMemory>
    ensures { OnOk result (changes_of out.new ≡ changes_of out.old
        ++ staged stage (map (λ f. Moves kind f amount.now) (atoms_in call.now))) }
{
    match call {
        Call::Named(atom) => push(stage, Change::Moves(kind, atom, amount), out),
        Call::LeftOut(_) => Ok(()),
    }
}

// Puts the rate of a fluent at the end.
fn push_flow<'a>(
    trend: Trend,
    call: &'a Call,
    rate: &'a RateTree,
    out: &mut Items<StagedChange<'a>>,
) -> Result<(), NoMemory>
    ensures { OnOk result (changes_of out.new ≡ changes_of out.old
        ++ staged Stage.AtStart (map (λ f. Flows trend f rate.now) (atoms_in call.now))) }
{
    match call {
        Call::Named(atom) => push(Stage::AtStart, Change::Flows(trend, atom, rate), out),
        Call::LeftOut(_) => Ok(()),
    }
}

// Puts the parts of an effect at the end.
#[cycle(effects)]
fn push_effect<'a>(
    stage: Stage,
    tree: &'a EffTree,
    out: &mut Items<StagedChange<'a>>,
) -> Result<(), NoMemory>
    ensures { OnOk result (changes_of out.new ≡ changes_of out.old ++ staged stage (effect_parts tree.now)) }
{
    match tree {
        EffTree::Empty(_) => Ok(()),
        EffTree::And(_, parts) => push_effects(stage, parts.as_slice(), out),
        EffTree::Add(atom) => push(stage, Change::Adds(atom), out),
        EffTree::Delete(_, call) => push_deleted(stage, call, out),
        EffTree::Change(_, kind, call, amount) => push_moved(stage, *kind, call, amount, out),
        EffTree::LeftOut(_) => Ok(()),
    }
}

// Puts the parts of some effects at the end.
#[cycle(effects)]
fn push_effects<'a>(
    stage: Stage,
    trees: &'a [EffTree],
    out: &mut Items<StagedChange<'a>>,
) -> Result<(), NoMemory>
    ensures { OnOk result (changes_of out.new ≡ changes_of out.old ++ staged stage (flat_map effect_parts trees.now)) }
{
    for tree in trees {
        push_effect(stage, tree, out)?;
    }
    Ok(())
}

// Puts the parts of an effect of a durative action at the end.
#[cycle(timed)]
fn push_timed_effect<'a>(
    tree: &'a TimedEff,
    out: &mut Items<StagedChange<'a>>,
) -> Result<(), NoMemory>
    ensures { OnOk result (changes_of out.new ≡ changes_of out.old ++ timed_effect_parts tree.now) }
{
    match tree {
        TimedEff::Empty(_) => Ok(()),
        TimedEff::And(_, parts) => push_timed_effects(parts.as_slice(), out),
        TimedEff::AtStart(_, effect) => push_effect(Stage::AtStart, effect, out),
        TimedEff::AtEnd(_, effect) => push_effect(Stage::AtEnd, effect, out),
        TimedEff::Rate(_, trend, call, rate) => push_flow(*trend, call, rate, out),
        TimedEff::LeftOut(_) => Ok(()),
    }
}

// Puts the parts of some effects of a durative action at the end.
#[cycle(timed)]
fn push_timed_effects<'a>(
    trees: &'a [TimedEff],
    out: &mut Items<StagedChange<'a>>,
) -> Result<(), NoMemory>
    ensures { OnOk result (changes_of out.new ≡ changes_of out.old ++ flat_map timed_effect_parts trees.now) }
{
    for tree in trees {
        push_timed_effect(tree, out)?;
    }
    Ok(())
}

/// The changes of an action, in the order of the text.
pub fn action_changes<'a>(
    alloc: Global,
    body: &'a ActionBody,
) -> Result<Items<StagedChange<'a>>, NoMemory>
    ensures { IfOk result (λ cs. changes_of cs ≡ body_changes body.now) }
{
    let mut out = Items::new(alloc);
    match body {
        ActionBody::Instant(_, Some(effect)) => push_effect(Stage::AtStart, effect, &mut out)?,
        ActionBody::Instant(_, None) => (),
        ActionBody::Durative(_, _, Some(effect)) => push_timed_effect(effect, &mut out)?,
        ActionBody::Durative(_, _, None) => (),
    }
    Ok(out)
}
