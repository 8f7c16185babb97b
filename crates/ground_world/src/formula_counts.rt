//! How many atoms formulas have, quantifiers written out. Counts stop at a cap.

ghost use Rattle.std.specs.Prelude.{◌≡◌, ◌+◌, map, min, IfOk};
ghost use Rattle.ground_world.specs.Counts as counts;
ghost use Rattle.ground_world.specs.Shown.{world_of};

use crate::counts::{COUNT_CAP, written_out};
use crate::tables::Tables;
use exact_lin::NoMemory;
use pddl_terms::{FactForm, Trajectory};
use std::alloc::Global;

/// How many atoms and equalities a formula has, or the cap where there are more.
#[cycle(formulas)]
pub fn formula_count(alloc: Global, tables: &Tables, formula: &FactForm) -> Result<usize, NoMemory>
    ensures { IfOk result (λ count. count ≡ min 65537 (counts.formula_count (world_of tables.now) formula.now)) }
{
    match formula {
        FactForm::Empty(_) => Ok(1),
        FactForm::Atom(_) => Ok(1),
        FactForm::Equal(_, _, _) => Ok(1),
        FactForm::And(_, parts) => formula_counts(alloc, tables, parts.as_slice()),
        FactForm::Or(_, parts) => formula_counts(alloc, tables, parts.as_slice()),
        FactForm::Not(_, inner) => formula_count(alloc, tables, inner.get()),
        FactForm::Imply(_, premise, conclusion) => {
            let given = premise.get();
            let wanted = conclusion.get();
            let first = formula_count(alloc, tables, given)?;
            let second = formula_count(alloc, tables, wanted)?;
            Ok((first + second).min(COUNT_CAP))
        }
        FactForm::Exists(_, groups, body) => {
            let parts = formula_count(alloc, tables, body.get())?;
            written_out(alloc, tables, groups.as_slice(), parts)
        }
        FactForm::Forall(_, groups, body) => {
            let parts = formula_count(alloc, tables, body.get())?;
            written_out(alloc, tables, groups.as_slice(), parts)
        }
        FactForm::LeftOut(_) => Ok(1),
    }
}

// How many atoms some formulas have together; none count as one.
#[cycle(formulas)]
fn formula_counts(alloc: Global, tables: &Tables, formulas: &[FactForm]) -> Result<usize, NoMemory>
    ensures { IfOk result (λ count. count ≡ min 65537
        (counts.sum_or_one (map (counts.formula_count (world_of tables.now)) formulas.now))) }
{
    if formulas.len() == 0 {
        return Ok(1);
    }
    let mut sum = 0;
    for formula in formulas {
        let count = formula_count(alloc, tables, formula)?;
        sum = (sum + count).min(COUNT_CAP);
    }
    Ok(sum)
}

// How many atoms two formulas have together.
fn both_count(
    alloc: Global,
    tables: &Tables,
    one: &FactForm,
    other: &FactForm,
) -> Result<usize, NoMemory>
    ensures { IfOk result (λ count. count ≡ min 65537
        (counts.formula_count (world_of tables.now) one.now + counts.formula_count (world_of tables.now) other.now)) }
{
    let first = formula_count(alloc, tables, one)?;
    let second = formula_count(alloc, tables, other)?;
    Ok((first + second).min(COUNT_CAP))
}

/// How many atoms the formulas of a constraint have together, or the cap where there are more.
pub fn trajectory_count(
    alloc: Global,
    tables: &Tables,
    trajectory: &Trajectory,
) -> Result<usize, NoMemory>
    ensures { IfOk result (λ count. count ≡ min 65537 (counts.trajectory_count (world_of tables.now) trajectory.now)) }
{
    match trajectory {
        Trajectory::Always(_, formula) => formula_count(alloc, tables, formula),
        Trajectory::Sometime(_, formula) => formula_count(alloc, tables, formula),
        Trajectory::Within(_, _, formula) => formula_count(alloc, tables, formula),
        Trajectory::AtMostOnce(_, formula) => formula_count(alloc, tables, formula),
        Trajectory::SometimeAfter(_, one, other) => both_count(alloc, tables, one, other),
        Trajectory::SometimeBefore(_, one, other) => both_count(alloc, tables, one, other),
        Trajectory::AtEnd(_, formula) => formula_count(alloc, tables, formula),
        Trajectory::LeftOut(_) => Ok(1),
    }
}
