//! An index of a task: tables that lead from facts, fluents and actions back to the snap actions related to them.

ghost use Rattle.std.specs.Prelude.{◌≡◌, ◌<◌, ◌^◌, [], ◌∷◌, length, map, OnOk, IfOk};
ghost use Rattle.task_types.specs.Related.{related, related_count, IsPut, LeadsBack, Tells, IsIndex};
ghost use Rattle.task_types.specs.WellMade.{IsWellMade};

use crate::actions::Snap;
use crate::parts::TaskParts;
use crate::touches::relations::{Relation, related_numbers};
use crate::touches::rows::{empty_rows, put_in_row};
use exact_lin::NoMemory;
use sqlite_items::Items;
use std::alloc::Global;

/// The tables of a task that lead back to its snap actions, each from the facts, fluents or actions of its name.
#[derive(Drop)]
pub struct Index {
    pub looked_facts: Items<Items<u32>>,
    pub changed_facts: Items<Items<u32>>,
    pub looked_fluents: Items<Items<u32>>,
    pub written_fluents: Items<Items<u32>>,
    pub bent_fluents: Items<Items<u32>>,
    pub own_actions: Items<Items<u32>>,
}

// Puts a number at the end of a row, if there is such a row.
fn put_at(rows: &mut Vec<Items<u32>>, row: u32, put: u32) -> Result<(), NoMemory>
    ensures { OnOk result (IsPut rows.old.items rows.new.items (row ∷ []) put) }
{
    let at = row as usize;
    if at < rows.len() {
        put_in_row(rows, at, put)?;
    }
    Ok(())
}

// Puts a number at the end of each of some rows.
fn put_in_rows(rows: &mut Vec<Items<u32>>, numbers: &[u32], put: u32) -> Result<(), NoMemory>
    ensures { OnOk result (IsPut rows.old.items rows.new.items numbers.now put) }
{
    for number in numbers {
        put_at(rows, *number, put)?;
    }
    Ok(())
}

// Puts the place of a snap action at the end of the rows of all that it is related to.
fn put_snap(
    alloc: Global,
    rows: &mut Vec<Items<u32>>,
    parts: &TaskParts,
    relation: Relation,
    snap: &Snap,
    place: u32,
) -> Result<(), NoMemory>
    ensures { OnOk result
        (IsPut rows.old.items rows.new.items (related parts.now relation snap.now) place) }
{
    let numbers = related_numbers(alloc, parts, relation, snap)?;
    put_in_rows(rows, numbers.as_slice(), place)?;
    Ok(())
}

// The table that leads from numbers below `count` back to the snap actions that are so related to them.
fn leading_back(
    alloc: Global,
    parts: &TaskParts,
    relation: Relation,
    count: usize,
) -> Result<Vec<Items<u32>>, NoMemory>
    requires { length parts.now.snaps < 2 ^ 32 }
    ensures { IfOk result
        (λ rows. LeadsBack rows.items count (map (related parts.now relation) parts.now.snaps)) }
{
    let mut rows = empty_rows(alloc, count)?;
    let mut place = 0u32;
    for snap in parts.snaps.as_slice() {
        put_snap(alloc, &mut rows, parts, relation, snap, place)?;
        place += 1;
    }
    Ok(rows)
}

// How many facts, fluents or actions there are to lead back from.
fn count_of(parts: &TaskParts, relation: Relation) -> usize
    ensures { result ≡ related_count parts.now relation }
{
    match relation {
        Relation::LookedFacts | Relation::ChangedFacts => parts.facts.len(),
        Relation::LookedFluents | Relation::WrittenFluents | Relation::BentFluents => parts
            .fluents
            .len(),
        Relation::OwnAction => parts.actions.len(),
    }
}

// The table of one relation.
fn table_of(
    alloc: Global,
    parts: &TaskParts,
    relation: Relation,
) -> Result<Items<Items<u32>>, NoMemory>
    requires { IsWellMade parts.now }
    ensures { IfOk result (λ rows. Tells parts.now relation rows) }
{
    let rows = leading_back(alloc, parts, relation, count_of(parts, relation))?;
    Ok(Items::from_vec(rows))
}

// The tables of two relations.
fn two_tables(
    alloc: Global,
    parts: &TaskParts,
    one: Relation,
    other: Relation,
) -> Result<(Items<Items<u32>>, Items<Items<u32>>), NoMemory>
    requires { IsWellMade parts.now }
    ensures { IfOk result
        (λ tables. Tells parts.now one tables.0 × Tells parts.now other tables.1) }
{
    let table = table_of(alloc, parts, one)?;
    Ok((table, table_of(alloc, parts, other)?))
}

/// The tables of a task.
pub fn index_of(alloc: Global, parts: &TaskParts) -> Result<Index, NoMemory>
    requires { IsWellMade parts.now }
    ensures { IfOk result (λ index. IsIndex parts.now index) }
{
    let (looked_facts, changed_facts) = two_tables(
        alloc,
        parts,
        Relation::LookedFacts,
        Relation::ChangedFacts,
    )?;
    let (looked_fluents, written_fluents) = two_tables(
        alloc,
        parts,
        Relation::LookedFluents,
        Relation::WrittenFluents,
    )?;
    let (bent_fluents, own_actions) = two_tables(
        alloc,
        parts,
        Relation::BentFluents,
        Relation::OwnAction,
    )?;
    Ok(Index {
        looked_facts,
        changed_facts,
        looked_fluents,
        written_fluents,
        bent_fluents,
        own_actions,
    })
}
