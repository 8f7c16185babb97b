//! The functions of a domain, and which of them are static.

ghost use Rattle.std.specs.Prelude.{◌≡◌, ◌∷◌, [], OnOk, IfOk};
ghost use Rattle.std.specs.List.{flat_map};
ghost use Rattle.pddl_names.specs.Declarations.{with_new};
ghost use Rattle.pddl_forms.specs.Functions.{function_of, changed_by, timed_changed_by, changed_by_some, timed_changed_by_some, changed_by_action, declared_name, functions_of, is_static};

use exact_lin::NoMemory;
use pddl_names::Names;
use pddl_terms::{ActionBody, ActionDef, Call, Declared, Domain, EffTree, TimedEff};
use std::alloc::Global;

/// The functions that a domain declares, and those that some effect of it changes.
#[derive(Drop)]
pub struct Functions {
    pub declared: Names,
    pub changed: Names,
}

/// Whether no effect of the domain changes the function.
pub(crate) fn is_static(functions: &Functions, name: &[u8]) -> bool
    ensures { result ≡ is_static functions.now name.now }
{
    !functions.changed.has(name)
}

fn add_call(alloc: Global, names: &mut Names, fluent: &Call) -> Result<(), NoMemory>
    ensures { OnOk result (names.new ≡ with_new names.old (function_of fluent.now)) }
{
    match fluent {
        Call::Named(atom) => names.add(alloc, atom.name.bytes.as_slice()),
        Call::LeftOut(_) => Ok(()),
    }
}

#[tactic(auto, using(crate::proofs::Changes::changes_of))]
fn add_changed(alloc: Global, names: &mut Names, effect: &EffTree) -> Result<(), NoMemory>
    ensures { OnOk result (names.new ≡ with_new names.old (changed_by effect.now)) }
{
    match effect {
        EffTree::Empty(_) => Ok(()),
        EffTree::And(_, parts) => {
            for part in parts.as_slice() {
                add_changed(alloc, names, part)?;
            }
            Ok(())
        }
        EffTree::Add(_) => Ok(()),
        EffTree::Delete(_, _) => Ok(()),
        EffTree::Change(_, _, fluent, _) => add_call(alloc, names, fluent),
        EffTree::LeftOut(_) => Ok(()),
    }
}

#[tactic(auto, using(crate::proofs::Changes::changes_of))]
fn add_timed_changed(alloc: Global, names: &mut Names, effect: &TimedEff) -> Result<(), NoMemory>
    ensures { OnOk result (names.new ≡ with_new names.old (timed_changed_by effect.now)) }
{
    match effect {
        TimedEff::Empty(_) => Ok(()),
        TimedEff::And(_, parts) => {
            for part in parts.as_slice() {
                add_timed_changed(alloc, names, part)?;
            }
            Ok(())
        }
        TimedEff::AtStart(_, effect) => add_changed(alloc, names, effect),
        TimedEff::AtEnd(_, effect) => add_changed(alloc, names, effect),
        TimedEff::Rate(_, _, fluent, _) => add_call(alloc, names, fluent),
        TimedEff::LeftOut(_) => Ok(()),
    }
}

fn add_changed_by_some(
    alloc: Global,
    names: &mut Names,
    effect: &Option<EffTree>,
) -> Result<(), NoMemory>
    ensures { OnOk result (names.new ≡ with_new names.old (changed_by_some effect.now)) }
{
    match effect {
        Some(effect) => add_changed(alloc, names, effect),
        None => Ok(()),
    }
}

fn add_timed_changed_by_some(
    alloc: Global,
    names: &mut Names,
    effect: &Option<TimedEff>,
) -> Result<(), NoMemory>
    ensures { OnOk result (names.new ≡ with_new names.old (timed_changed_by_some effect.now)) }
{
    match effect {
        Some(effect) => add_timed_changed(alloc, names, effect),
        None => Ok(()),
    }
}

fn add_changed_by_action(
    alloc: Global,
    names: &mut Names,
    action: &ActionDef,
) -> Result<(), NoMemory>
    ensures { OnOk result (names.new ≡ with_new names.old (changed_by_action action.now)) }
{
    match &action.body {
        ActionBody::Instant(_, effect) => add_changed_by_some(alloc, names, effect),
        ActionBody::Durative(_, _, effect) => add_timed_changed_by_some(alloc, names, effect),
    }
}

fn add_declared(alloc: Global, names: &mut Names, function: &Declared) -> Result<(), NoMemory>
    ensures { OnOk result (names.new ≡ with_new names.old (declared_name function.now)) }
{
    match function {
        Declared::Named(_, name, _) => names.add(alloc, name.bytes.as_slice()),
        Declared::LeftOut(_) => Ok(()),
    }
}

#[tactic(auto, using(crate::proofs::Changes::new_names))]
fn declared_names(alloc: Global, functions: &[Declared]) -> Result<Names, NoMemory>
    ensures { IfOk result (λ names. names ≡ with_new [] (flat_map declared_name functions.now)) }
{
    let mut names = Names::new(alloc);
    for function in functions {
        add_declared(alloc, &mut names, function)?;
    }
    Ok(names)
}

#[tactic(auto, using(crate::proofs::Changes::new_names))]
fn changed_names(alloc: Global, actions: &[ActionDef]) -> Result<Names, NoMemory>
    ensures { IfOk result (λ names. names ≡ with_new [] (flat_map changed_by_action actions.now)) }
{
    let mut names = Names::new(alloc);
    for action in actions {
        add_changed_by_action(alloc, &mut names, action)?;
    }
    Ok(names)
}

/// The functions of a domain.
#[tactic(auto, unfolding(crate::specs::Functions::functions_of))]
pub(crate) fn functions_of(alloc: Global, domain: &Domain) -> Result<Functions, NoMemory>
    ensures { IfOk result (λ functions. functions ≡ functions_of domain.now) }
{
    let declared = declared_names(alloc, domain.functions.as_slice())?;
    let changed = changed_names(alloc, domain.actions.as_slice())?;
    Ok(Functions { declared, changed })
}
