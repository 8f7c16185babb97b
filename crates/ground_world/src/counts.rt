//! How many literals and comparisons conditions have, quantifiers written out. Counts stop at a cap.

ghost use Rattle.std.specs.Prelude.{◌≡◌, ℕ, ◌≤◌, map, min, IfOk};
ghost use Rattle.ground_world.specs.Counts as counts;
ghost use Rattle.ground_world.specs.Shown.{world_of};

use crate::choosing::{choices_within, variables};
use crate::tables::Tables;
use exact_lin::NoMemory;
use pddl_names::is_equality;
use pddl_terms::{ActionBody, Comparison, CondTree, Group, Side, TimedCond};
use sqlite_items::Items;
use std::alloc::Global;

/// Where a count stops: one more than the most literals and comparisons of a condition.
pub const COUNT_CAP: usize = 65_537;

// How many comparisons a mark stands for.
fn compare_count(order: Comparison) -> usize
    ensures { result ≡ counts.compare_count order }
{
    match order {
        Comparison::Equal => 2,
        Comparison::AtMost => 1,
        Comparison::AtLeast => 1,
        Comparison::Below => 1,
        Comparison::Above => 1,
    }
}

/// How many parts an `=` has.
pub(crate) fn equal_count(tables: &Tables, left: &Side, right: &Side) -> usize
    ensures { result ≡ counts.equal_count (world_of tables.now) left.now right.now }
{
    if is_equality(&tables.functions, left, right) {
        1
    } else {
        2
    }
}

/// How many parts there are below a quantifier that is written out, or the cap where there are more; its body has
/// `parts` of them, or more than the cap.
pub(crate) fn written_out(
    alloc: Global,
    tables: &Tables,
    groups: &[Group],
    parts: usize,
) -> Result<usize, NoMemory>
    ensures { IfOk result (λ count. (n : ℕ) → parts ≡ min 65537 n
        → count ≡ min 65537 (counts.written_out (world_of tables.now) groups.now n)) }
{
    let variables = variables(alloc, tables, groups)?;
    let slots = variables.as_slice();
    let ways = choices_within(slots, COUNT_CAP);
    Ok(ways.saturating_mul(parts.max(1)).max(1).min(COUNT_CAP))
}

/// How many literals and comparisons a condition has, or the cap where there are more.
#[cycle(counting)]
pub fn condition_count(
    alloc: Global,
    tables: &Tables,
    condition: &CondTree,
) -> Result<usize, NoMemory>
    ensures { IfOk result (λ count. count ≡ min 65537 (counts.condition_count (world_of tables.now) condition.now)) }
{
    match condition {
        CondTree::Empty(_) => Ok(1),
        CondTree::And(_, parts) => conditions_count(alloc, tables, parts.as_slice()),
        CondTree::Forall(_, groups, body) => {
            let parts = condition_count(alloc, tables, body.get())?;
            written_out(alloc, tables, groups.as_slice(), parts)
        }
        CondTree::Atom(_) => Ok(1),
        CondTree::Not(_, inner) => condition_count(alloc, tables, inner.get()),
        CondTree::Equal(_, left, right) => Ok(equal_count(tables, left, right)),
        CondTree::Compare(_, order, _, _) => Ok(compare_count(*order)),
        CondTree::LeftOut(_) => Ok(1),
    }
}

// How many parts some conditions have together; none count as one.
#[cycle(counting)]
fn conditions_count(
    alloc: Global,
    tables: &Tables,
    conditions: &[CondTree],
) -> Result<usize, NoMemory>
    ensures { IfOk result (λ count. count ≡ min 65537
        (counts.sum_or_one (map (counts.condition_count (world_of tables.now)) conditions.now))) }
{
    if conditions.len() == 0 {
        return Ok(1);
    }
    let mut sum = 0;
    for condition in conditions {
        let count = condition_count(alloc, tables, condition)?;
        sum = (sum + count).min(COUNT_CAP);
    }
    Ok(sum)
}

/// How many literals and comparisons the condition of a durative action has, all stages together, or the cap where there
/// are more.
#[cycle(timed_counting)]
pub fn timed_count(alloc: Global, tables: &Tables, condition: &TimedCond) -> Result<usize, NoMemory>
    ensures { IfOk result (λ count. count ≡ min 65537 (counts.timed_count (world_of tables.now) condition.now)) }
{
    match condition {
        TimedCond::Empty(_) => Ok(1),
        TimedCond::And(_, parts) => timed_counts(alloc, tables, parts.as_slice()),
        TimedCond::AtStart(_, part) => condition_count(alloc, tables, part),
        TimedCond::OverAll(_, part) => condition_count(alloc, tables, part),
        TimedCond::AtEnd(_, part) => condition_count(alloc, tables, part),
        TimedCond::LeftOut(_) => Ok(1),
    }
}

// How many parts some conditions of a durative action have together; none count as one.
#[cycle(timed_counting)]
fn timed_counts(alloc: Global, tables: &Tables, conditions: &[TimedCond]) -> Result<usize, NoMemory>
    ensures { IfOk result (λ count. count ≡ min 65537
        (counts.sum_or_one (map (counts.timed_count (world_of tables.now)) conditions.now))) }
{
    if conditions.len() == 0 {
        return Ok(1);
    }
    let mut sum = 0;
    for condition in conditions {
        let count = timed_count(alloc, tables, condition)?;
        sum = (sum + count).min(COUNT_CAP);
    }
    Ok(sum)
}

/// How many literals and comparisons the condition of an action has, or the cap where there are more; none where it has
/// no condition.
pub fn body_count(alloc: Global, tables: &Tables, body: &ActionBody) -> Result<usize, NoMemory>
    ensures { IfOk result (λ count. count ≡ min 65537 (counts.body_count (world_of tables.now) body.now)) }
{
    match body {
        ActionBody::Instant(Some(condition), _) => condition_count(alloc, tables, condition),
        ActionBody::Instant(None, _) => Ok(0),
        ActionBody::Durative(_, Some(condition), _) => timed_count(alloc, tables, condition),
        ActionBody::Durative(_, None, _) => Ok(0),
    }
}
