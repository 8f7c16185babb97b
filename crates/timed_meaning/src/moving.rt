//! How a state moves in place.

ghost use Rattle.std.specs.Prelude.{◌≡◌, ℕ, ◌<◌, ◌∷◌, ◌++◌, [], List, Bool, length, replicate, OnOk};
ghost use Rattle.std.specs.List.{AllByRecursion, flat_map, filter};
ghost use Rattle.rational.specs.Rational.{zeroℚ, ◌+ℚ◌, ◌*ℚ◌, ◌-ℚ◌};
ghost use Rattle.exact_lin.specs.Reckoning.{Fits, wide_limit};
ghost use Rattle.task_types.specs.Plan.{Plan, action_of, snap_of};
ghost use Rattle.task_types.specs.Course.{runs_between, moved};
ghost use Rattle.exact_lin.specs.Reckonings.{Sum, Product};
ghost use Rattle.task_types.specs.Reckoned.{by_start, move_reckoned};
ghost use Rattle.task_types.specs.WellMade.{IsWellMade};
ghost use Rattle.timed_meaning.specs.Told.{told, Defined, Tells, raised, raised_reckoned};
ghost use Rattle.timed_meaning.specs.Owned.{lines_of};
ghost use Rattle.timed_meaning.specs.Moves.{rates_on, AreLines, Motion, settled_at, settled, settled_reckoned};

use crate::applying::{raise, sum};
use crate::placing::PlacedLine;
use exact_lin::{FluentId, FormFault, Fraction, Id, Scalar, SnapId};
use task_types::{Action, PlanLine, TaskParts};

// The action of a line.
pub fn action<'a>(parts: &'a TaskParts, line: &PlanLine) -> &'a Action
    requires { line.now.action < length parts.now.actions }
    ensures { result.now ≡ action_of parts.now line.now.action }
{
    &parts.actions.as_slice()[line.action.number() as usize]
}

fn snap_rates(parts: &TaskParts, snap: SnapId) -> &[(FluentId, Fraction)]
    ensures { result.now ≡ (snap_of parts.now snap).rates }
{
    match parts.snaps.get(snap.number() as usize) {
        Some(snap) => snap.rates.as_slice(),
        None => &[],
    }
}

fn push_rates(
    parts: &TaskParts,
    line: &PlanLine,
    out: &mut Vec<(FluentId, Fraction)>,
) -> Result<(), FormFault>
    requires { line.now.action < length parts.now.actions }
    ensures { Tells result [] (λ _. out.new.items ≡ out.old.items ++ rates_on parts.now line.now) }
{
    match out.extend_from_slice(snap_rates(parts, action(parts, line).start)) {
        Ok(()) => Ok(()),
        Err(_) => Err(FormFault::Memory),
    }
}

// Gathers the rates of all running lines, in their order.
fn gather(
    parts: &TaskParts,
    running: &[PlacedLine],
    out: &mut Vec<(FluentId, Fraction)>,
) -> Result<(), FormFault>
    requires { AreLines parts.now (lines_of running.now) }
    ensures { Tells result [] (λ _. out.new.items
        ≡ out.old.items ++ flat_map (rates_on parts.now) (lines_of running.now)) }
{
    for placed in running {
        push_rates(parts, &placed.line, out)?;
    }
    Ok(())
}

fn settle_one(
    values: &mut [Fraction],
    rates: &mut [Fraction],
    at: usize,
    elapsed: Fraction,
) -> Result<(), FormFault>
    requires value { at < length values.old }
    requires rate { at < length rates.old }
    ensures { let p : Motion = record { values = values.old; rates = rates.old } in Tells result (settled_reckoned elapsed p ((at, zeroℚ) ∷ [])) (λ _. record { values = values.new; rates = rates.new } ≡ settled_at elapsed p at) }
{
    let change = rates[at].mul(elapsed)?;
    values[at] = values[at].add(change)?;
    rates[at] = Fraction::of_int(0);
    Ok(())
}

// Settles the fluents of some entries.
fn settle(
    values: &mut [Fraction],
    rates: &mut [Fraction],
    entries: &[(FluentId, Fraction)],
    elapsed: Fraction,
) -> Result<(), FormFault>
    requires value { AllByRecursion (λ e. e.0 < length values.old) entries.now }
    requires rate { AllByRecursion (λ e. e.0 < length rates.old) entries.now }
    ensures { let p : Motion = record { values = values.old; rates = rates.old } in Tells result (settled_reckoned elapsed p entries.now) (λ _. record { values = values.new; rates = rates.new } ≡ settled elapsed p entries.now) }
{
    for entry in entries {
        match settle_one(values, rates, entry.0.number() as usize, elapsed) {
            Ok(()) => {}
            Err(fault) => return Err(fault),
        }
    }
    Ok(())
}

// Adds up the rates of some entries and settles them.
fn shift(
    values: &mut [Fraction],
    rates: &mut [Fraction],
    entries: &[(FluentId, Fraction)],
    elapsed: Fraction,
) -> Result<(), FormFault>
    requires value { AllByRecursion (λ e. e.0 < length values.old) entries.now }
    requires rate { AllByRecursion (λ e. e.0 < length rates.old) entries.now }
    ensures { let p : Motion = record { values = values.old; rates = raised rates.old entries.now } in Tells result (raised_reckoned rates.old entries.now ++ settled_reckoned elapsed p entries.now) (λ _. record { values = values.new; rates = rates.new } ≡ settled elapsed p entries.now) }
{
    match raise(rates, entries) {
        Ok(()) => settle(values, rates, entries, elapsed),
        Err(fault) => Err(fault),
    }
}

/// Moves the fluents from one happening to the next, in place; the lines that run between are handed over in the order of their starts. `rates` holds 0 for each fluent, before and after.
pub fn advance(
    parts: &TaskParts,
    running: &[PlacedLine],
    from: Fraction,
    to: Fraction,
    values: &mut [Fraction],
    rates: &mut [Fraction],
    entries: &mut Vec<(FluentId, Fraction)>,
) -> Result<(), FormFault>
    requires well_made { IsWellMade parts.now }
    requires lines { AreLines parts.now (lines_of running.now) }
    requires some { 0 < length parts.now.fluents }
    requires values { length values.old ≡ length parts.now.fluents }
    requires rates { rates.old ≡ replicate (length parts.now.fluents) zeroℚ }
    requires fits { AllByRecursion (Fits wide_limit) values.old }
    ensures state { (facts : List Bool) (plan : Plan) → lines_of running.now ≡ by_start (filter (runs_between from to) plan) → Tells result (move_reckoned parts.now plan from to (told facts values.old)) (λ _. (told facts values.new ≡ moved parts.now plan from to (told facts values.old)) × (rates.new ≡ rates.old)) }
    ensures fits { OnOk result (AllByRecursion (Fits wide_limit) values.new) }
{
    entries.clear();
    match gather(parts, running, entries) {
        Ok(()) => match sum(to, from.neg()) {
            Ok(elapsed) => shift(values, rates, entries.as_slice(), elapsed),
            Err(fault) => Err(fault),
        },
        Err(fault) => Err(fault),
    }
}
