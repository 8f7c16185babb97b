//! The rates of the actions that run.

ghost use Rattle.std.specs.Prelude.{◌≡◌, ◌++◌, ◌∷◌, [], IfOk, OnOk};
ghost use Rattle.std.specs.List.{flat_map};
ghost use Rattle.rational.specs.Rational.{zeroℚ};
ghost use Rattle.exact_lin.specs.Reckoning.{wide_limit, Reckons};
ghost use Rattle.exact_lin.specs.Reckonings.{AreDefined, sums};
ghost use Rattle.task_types.specs.Plan.{action_of, snap_of};
ghost use Rattle.task_types.specs.Course.{entries_of};
ghost use Rattle.task_types.specs.Tests.{total};
ghost use Rattle.rate_ledger.specs.Answers.{Gives};

use crate::snaps::rates_of;
use exact_lin::{ActionId, FluentId, FormFault, Fraction, NoMemory, Scalar, Wide};
use sqlite_items::Items;
use std::alloc::Global;
use task_types::Task;

fn push_rate(
    out: &mut Items<Fraction>,
    rate: &(FluentId, Fraction),
    fluent: FluentId,
) -> Result<(), NoMemory>
    ensures { OnOk result (out.new ≡ out.old ++ entries_of fluent (rate.now ∷ [])) }
{
    if rate.0 == fluent {
        out.push(rate.1)?;
    }
    Ok(())
}

#[tactic(auto, using(crate::proofs::Lists::entries_append))]
fn push_rates(
    out: &mut Items<Fraction>,
    rates: &[(FluentId, Fraction)],
    fluent: FluentId,
) -> Result<(), NoMemory>
    ensures { OnOk result (out.new ≡ out.old ++ entries_of fluent rates.now) }
{
    for rate in rates {
        push_rate(out, rate, fluent)?;
    }
    Ok(())
}

// The rates on a fluent of some actions, in their order.
fn rates_on(
    alloc: Global,
    task: &Task,
    actions: &[ActionId],
    fluent: FluentId,
) -> Result<Items<Fraction>, NoMemory>
    ensures { IfOk result (λ out. out ≡ flat_map (λ a. entries_of fluent (snap_of task.now.parts (action_of task.now.parts a).start).rates) actions.now) }
{
    let mut out = Items::new(alloc);
    for action in actions {
        push_rates(&mut out, rates_of(task, *action), fluent)?;
    }
    Ok(out)
}

// The sum of some numbers, reckoned from 0 on.
fn sum_of(numbers: &[Fraction]) -> Result<Fraction, Wide>
    ensures { Reckons (λ q. q) result (AreDefined wide_limit (sums zeroℚ numbers.now)) (total numbers.now) }
{
    let mut sum = Fraction::of_int(0);
    for number in numbers {
        match sum.add(*number) {
            Ok(more) => sum = more,
            Err(_) => return Err(Wide),
        }
    }
    Ok(sum)
}

/// The rate of a fluent while some actions run.
pub fn rate_of(
    alloc: Global,
    task: &Task,
    actions: &[ActionId],
    fluent: FluentId,
) -> Result<Fraction, FormFault>
    ensures { Gives result (AreDefined wide_limit (sums zeroℚ (flat_map (λ a. entries_of fluent (snap_of task.now.parts (action_of task.now.parts a).start).rates) actions.now)))
        (λ q. q ≡ total (flat_map (λ a. entries_of fluent (snap_of task.now.parts (action_of task.now.parts a).start).rates) actions.now)) }
{
    let rates = rates_on(alloc, task, actions, fluent)?;
    match sum_of(rates.as_slice()) {
        Ok(sum) => Ok(sum),
        Err(Wide) => Err(FormFault::Wide),
    }
}
