//! How many literals and comparisons goals and their preferences have, quantifiers written out. Counts stop at a cap.

ghost use Rattle.std.specs.Prelude.{◌≡◌, ℕ, Option, map, min, IfOk};
ghost use Rattle.std.specs.Option.{option_map};
ghost use Rattle.ground_world.specs.Counts as counts;
ghost use Rattle.ground_world.specs.Counting.{capped, both, somes_or_one};
ghost use Rattle.ground_world.specs.Shown.{world_of};

use crate::counts::{COUNT_CAP, condition_count, equal_count, written_out};
use crate::formula_counts::formula_count;
use crate::tables::Tables;
use exact_lin::NoMemory;
use pddl_terms::{GoalTree, Group, SoftTree};
use std::alloc::Global;

/// How many literals and comparisons the body of a preference has, or the cap where there are more.
#[cycle(softs)]
pub fn soft_count(alloc: Global, tables: &Tables, body: &SoftTree) -> Result<usize, NoMemory>
    ensures { IfOk result (λ count. count ≡ min 65537 (counts.soft_count (world_of tables.now) body.now)) }
{
    match body {
        SoftTree::Formula(formula) => formula_count(alloc, tables, formula),
        SoftTree::Equal(_, left, right) => Ok(equal_count(tables, left, right)),
        SoftTree::Comparison(condition) => condition_count(alloc, tables, condition),
        SoftTree::And(_, parts) => soft_counts(alloc, tables, parts.as_slice()),
    }
}

// How many parts some bodies of preferences have together; none count as one.
#[cycle(softs)]
fn soft_counts(alloc: Global, tables: &Tables, bodies: &[SoftTree]) -> Result<usize, NoMemory>
    ensures { IfOk result (λ count. count ≡ min 65537
        (counts.sum_or_one (map (counts.soft_count (world_of tables.now)) bodies.now))) }
{
    if bodies.len() == 0 {
        return Ok(1);
    }
    let mut sum = 0;
    for body in bodies {
        let count = soft_count(alloc, tables, body)?;
        sum = (sum + count).min(COUNT_CAP);
    }
    Ok(sum)
}

// The counts of two parts of a goal together.
fn both(one: &Option<usize>, other: &Option<usize>) -> Option<usize>
    ensures { (m n : Option ℕ) → one.now ≡ capped m → other.now ≡ capped n → result ≡ capped (both m n) }
{
    match (one, other) {
        (Some(first), Some(second)) => Some(first.saturating_add(*second).min(COUNT_CAP)),
        (Some(first), None) => Some(*first),
        (None, second) => *second,
    }
}

// How many parts there are below a quantifier of a goal, whose body has `parts`, if any.
fn some_written_out(
    alloc: Global,
    tables: &Tables,
    groups: &[Group],
    parts: &Option<usize>,
) -> Result<Option<usize>, NoMemory>
    ensures { IfOk result (λ count. (n : Option ℕ) → parts.now ≡ capped n
        → count ≡ capped (option_map (counts.written_out (world_of tables.now) groups.now) n)) }
{
    match parts {
        Some(parts) => {
            let count = written_out(alloc, tables, groups, *parts)?;
            Ok(Some(count))
        }
        None => Ok(None),
    }
}

// How many literals and comparisons a goal has beside its preferences, or the cap where there are more; none where it
// holds nothing but preferences.
#[cycle(goals)]
fn hard_count(alloc: Global, tables: &Tables, goal: &GoalTree) -> Result<Option<usize>, NoMemory>
    ensures { IfOk result (λ count. count ≡ capped (counts.hard_count (world_of tables.now) goal.now)) }
{
    match goal {
        GoalTree::Condition(condition) => {
            let count = condition_count(alloc, tables, condition)?;
            Ok(Some(count))
        }
        GoalTree::And(_, parts) => hard_counts(alloc, tables, parts.as_slice()),
        GoalTree::Forall(_, groups, body) => {
            let parts = hard_count(alloc, tables, body.get())?;
            some_written_out(alloc, tables, groups.as_slice(), &parts)
        }
        GoalTree::Preference(_, _, _) => Ok(None),
    }
}

// The same of the parts of a goal together; with no parts it is one.
#[cycle(goals)]
fn hard_counts(
    alloc: Global,
    tables: &Tables,
    goals: &[GoalTree],
) -> Result<Option<usize>, NoMemory>
    ensures { IfOk result (λ count. count
        ≡ capped (somes_or_one (map (counts.hard_count (world_of tables.now)) goals.now))) }
{
    if goals.len() == 0 {
        return Ok(Some(1));
    }
    let mut sum = None;
    for goal in goals {
        let count = hard_count(alloc, tables, goal)?;
        sum = both(&sum, &count);
    }
    Ok(sum)
}

/// How many literals and comparisons a goal has beside its preferences, or the cap where there are more.
pub fn goal_count(alloc: Global, tables: &Tables, goal: &GoalTree) -> Result<usize, NoMemory>
    ensures { IfOk result (λ count. count ≡ min 65537 (counts.goal_count (world_of tables.now) goal.now)) }
{
    let count = hard_count(alloc, tables, goal)?;
    Ok(count.unwrap_or(0))
}
