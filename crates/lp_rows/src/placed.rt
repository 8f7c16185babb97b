//! The rows of moments, of the horizon and of the total time.

ghost use Rattle.std.specs.Prelude.{◌≡◌, ◌<◌, ◌+◌, ◌^◌, ◌==◌, ◌∷◌, ◌++◌, [], suc, length, map, IfOk, OnOk};
ghost use Rattle.std.specs.List.{flat_map, filter};
ghost use Rattle.task_types.specs.Plan.{snap_of};
ghost use Rattle.task_types.specs.Touch.{is_timed};
ghost use Rattle.lp_rows.specs.StepRows.{moments_of, moment_rows, horizon_row, last_row, placed_rows};

use crate::origins::Origin;
use crate::rows::OriginRow;
use exact_lin::{Fraction, Id, NoMemory, Scalar, SnapId, StepId, VarId};
use sqlite_items::Items;
use std::alloc::Global;
use task_types::{Rules, SnapKind, Task};

// A row of one term.
fn single(
    alloc: Global,
    v: VarId,
    factor: Fraction,
    bound: Fraction,
    origin: Origin,
) -> Result<OriginRow, NoMemory>
    ensures { IfOk result (λ row. row ≡ record { terms = (v, factor) ∷ []; bound = bound; origin = origin }) }
{
    let mut terms = Items::new(alloc);
    terms.push((v, factor))?;
    Ok(OriginRow {
        terms,
        bound,
        origin,
    })
}

// A timed step is at its moment.
fn push_moment(
    out: &mut Items<OriginRow>,
    alloc: Global,
    step: StepId,
    moment: Fraction,
) -> Result<(), NoMemory>
    requires { step < 2 ^ 31 }
    ensures { OnOk result (out.new ≡ out.old ++ moment_rows step moment) }
{
    let v = VarId::of(step.number());
    let number = step.number() + 1;
    let one = Fraction::of_int(1);
    out.push(single(alloc, v, one, moment, Origin::NoLater(number))?)?;
    out.push(single(alloc, v, one.neg(), moment.neg(), Origin::NoEarlier(number))?)?;
    Ok(())
}

// The rows of a moment, where it is that of a snap action.
fn push_if_its(
    out: &mut Items<OriginRow>,
    alloc: Global,
    step: StepId,
    snap: SnapId,
    timed: &(Fraction, SnapId),
) -> Result<(), NoMemory>
    requires { step < 2 ^ 31 }
    ensures { OnOk result (out.new ≡ out.old ++ flat_map (moment_rows step) (map (λ m. m.0) (filter (λ m. m.1 == snap) (timed.now ∷ [])))) }
{
    if timed.1 == snap {
        push_moment(out, alloc, step, timed.0)?;
    }
    Ok(())
}

#[tactic(auto, using(crate::proofs::Placing::moments_append))]
fn push_moments(
    out: &mut Items<OriginRow>,
    alloc: Global,
    task: &Task,
    step: StepId,
    snap: SnapId,
) -> Result<(), NoMemory>
    requires { step < 2 ^ 31 }
    ensures { OnOk result (out.new ≡ out.old ++ flat_map (moment_rows step) (moments_of task.now.parts snap)) }
{
    for timed in task.timed() {
        push_if_its(out, alloc, step, snap, timed)?;
    }
    Ok(())
}

// A plan step is within the horizon and no later than the total time, which is variable `last`.
fn push_within(
    out: &mut Items<OriginRow>,
    alloc: Global,
    rules: &Rules,
    last: VarId,
    step: StepId,
) -> Result<(), NoMemory>
    requires { step < 2 ^ 31 }
    ensures { OnOk result (out.new ≡ out.old ++ horizon_row rules.now step ∷ last_row last step ∷ []) }
{
    let v = VarId::of(step.number());
    let one = Fraction::of_int(1);
    let number = step.number() + 1;
    out.push(single(alloc, v, one, rules.horizon, Origin::Horizon(number))?)?;
    let mut terms = Items::new(alloc);
    terms.push((v, one))?;
    terms.push((last, one.neg()))?;
    out.push(OriginRow {
        terms,
        bound: Fraction::of_int(0),
        origin: Origin::Last(number),
    })?;
    Ok(())
}

/// The rows that place a step: at its moment, or within the horizon and the total time.
pub fn push_placed_rows(
    out: &mut Items<OriginRow>,
    alloc: Global,
    task: &Task,
    rules: &Rules,
    last: VarId,
    step: StepId,
    snap: SnapId,
) -> Result<(), NoMemory>
    requires step { step < 2 ^ 31 }
    requires snap { snap < length task.now.parts.snaps }
    ensures { OnOk result (out.new ≡ out.old ++ placed_rows task.now.parts rules.now last step snap) }
{
    if matches!(task.snaps()[snap.number() as usize].kind, SnapKind::Timed) {
        push_moments(out, alloc, task, step, snap)?;
    } else {
        push_within(out, alloc, rules, last, step)?;
    }
    Ok(())
}
