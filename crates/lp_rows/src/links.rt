//! The rows of links between steps.

ghost use Rattle.std.specs.Prelude.{◌≡◌, ◌<◌, ◌≤◌, ◌+◌, ◌^◌, ◌==◌, ◌&&◌, ◌∷◌, ◌++◌, [], suc, false, length, map, IfOk, OnOk};
ghost use Rattle.std.specs.List.{list_any, filter, flat_map, AllByRecursion};
ghost use Rattle.rational.specs.Rational.{oneℚ, neg_ℚ};
ghost use Rattle.task_types.specs.Order.{link};
ghost use Rattle.task_types.specs.Sets.{is_in, numbers};
ghost use Rattle.rate_ledger.specs.Answers.{Gives};
ghost use Rattle.rate_ledger.specs.Entries.{snap_at};
ghost use Rattle.rate_ledger.specs.Ledgers.{Keeps};
ghost use Rattle.lp_rows.specs.StepRows.{before_row, linked_row, link_rows};
ghost use Rattle.lp_rows.specs.Comparing.{pair_row};

use crate::origins::Origin;
use crate::rows::OriginRow;
use exact_lin::{Fraction, Id, NoMemory, Scalar, SnapId, StepId, VarId};
use ordering::link_of;
use sqlite_items::Items;
use std::alloc::Global;
use task_types::{Link, Rules, Task};

// One variable comes before another, with some room between.
fn before_row(
    alloc: Global,
    first: StepId,
    second: StepId,
    room: Fraction,
    origin: Origin,
) -> Result<OriginRow, NoMemory>
    ensures { IfOk result (λ row. row ≡ before_row first second room origin) }
{
    let one = Fraction::of_int(1);
    let mut terms = Items::new(alloc);
    terms.push((VarId::of(first.number()), one))?;
    terms.push((VarId::of(second.number()), one.neg()))?;
    Ok(OriginRow {
        terms,
        bound: room.neg(),
        origin,
    })
}

// The row of a link, where it makes one.
fn push_link(
    out: &mut Items<OriginRow>,
    alloc: Global,
    rules: &Rules,
    link: Link,
    first: StepId,
    second: StepId,
    origin: Origin,
) -> Result<(), NoMemory>
    ensures { OnOk result (out.new ≡ out.old ++ linked_row rules.now link first second origin) }
{
    let room = match link {
        Link::Free => return Ok(()),
        Link::Weak => Fraction::of_int(0),
        Link::Apart => rules.epsilon,
    };
    out.push(before_row(alloc, first, second, room, origin)?)?;
    Ok(())
}

fn push_first(
    out: &mut Items<StepId>,
    pair: &(StepId, StepId),
    second: StepId,
) -> Result<(), NoMemory>
    ensures { OnOk result (out.new ≡ out.old ++ map (λ p. p.0) (filter (λ p. p.1 == second) (pair.now ∷ []))) }
{
    if pair.1 == second {
        out.push(pair.0)?;
    }
    Ok(())
}

// The steps that extra pairs set before a step.
fn firsts_of(
    alloc: Global,
    extra: &[(StepId, StepId)],
    second: StepId,
) -> Result<Items<StepId>, NoMemory>
    ensures { IfOk result (λ out. out ≡ map (λ p. p.0) (filter (λ p. p.1 == second) extra.now)) }
{
    let mut out = Items::new(alloc);
    for pair in extra {
        push_first(&mut out, pair, second)?;
    }
    Ok(out)
}

fn is_among(steps: &[StepId], step: StepId) -> bool
    ensures { result ≡ is_in step steps.now }
{
    steps.iter().any(|other| *other == step)
}

// The row of a step and a later one, of which it is known whether an extra pair names them.
fn push_pair(
    out: &mut Items<OriginRow>,
    alloc: Global,
    task: &Task,
    rules: &Rules,
    steps: &[SnapId],
    first: StepId,
    second: StepId,
    extra: bool,
) -> Result<(), NoMemory>
    requires in_range { AllByRecursion (λ s. s < length task.now.parts.snaps) steps.now }
    requires order { first < second }
    requires there { second < length steps.now }
    requires few { length steps.now < 2 ^ 31 }
    ensures { OnOk result (out.new ≡ out.old ++ pair_row task.now.parts rules.now steps.now first second extra) }
{
    let i = first.number();
    let j = second.number();
    if extra {
        return push_link(
            out,
            alloc,
            rules,
            Link::Apart,
            first,
            second,
            Origin::Extra(i + 1, j + 1),
        );
    }
    let link = link_of(task, steps[i as usize], steps[j as usize]);
    push_link(
        out,
        alloc,
        rules,
        link,
        first,
        second,
        Origin::Pair(i + 1, j + 1),
    )
}

/// The rows of the links of a step with those before it.
pub fn push_link_rows(
    out: &mut Items<OriginRow>,
    alloc: Global,
    task: &Task,
    rules: &Rules,
    steps: &[SnapId],
    extra: &[(StepId, StepId)],
    second: StepId,
) -> Result<(), NoMemory>
    requires in_range { AllByRecursion (λ s. s < length task.now.parts.snaps) steps.now }
    requires there { second < length steps.now }
    requires few { length steps.now < 2 ^ 31 }
    ensures { OnOk result (out.new ≡ out.old ++ link_rows task.now.parts rules.now (record { steps = steps.now; extra = extra.now }) second) }
{
    let firsts = firsts_of(alloc, extra, second)?;
    for number in 0..second.number() {
        let first = StepId::of(number);
        let is_extra = is_among(firsts.as_slice(), first);
        push_pair(out, alloc, task, rules, steps, first, second, is_extra)?;
    }
    Ok(())
}
