//! Lines whose start and end are in time.

ghost use Rattle.std.specs.Prelude.{◌≡◌, ◌&&◌};
ghost use Rattle.std.specs.List.{AllByRecursion};
ghost use Rattle.rational.specs.Rational.{zeroℚ};
ghost use Rattle.task_types.specs.Tests.{◌≤?◌};
ghost use Rattle.task_types.specs.Valid.{is_in_time};
ghost use Rattle.timed_meaning.specs.TimedPlans.{EndIsDefined};
ghost use Rattle.plan_validator.specs.Judged.{Judged};
ghost use Rattle.plan_validator.specs.Kinds.{time_duties};

use crate::conditions::{both, is_at_most};
use exact_lin::{Fraction, Scalar};
use task_types::{PlanLine, Reason, Rules};
use timed_meaning::end_of;

// Whether a time is from 0 to the horizon.
fn is_within(rules: &Rules, time: Fraction) -> bool
    ensures { result ≡ ((zeroℚ ≤? time) && (time ≤? rules.now.horizon)) }
{
    both(
        is_at_most(Fraction::of_int(0), time),
        is_at_most(time, rules.horizon),
    )
}

fn is_in_time(rules: &Rules, line: &PlanLine) -> bool
    requires { EndIsDefined line.now }
    ensures { result ≡ is_in_time rules.now line.now }
{
    is_within(rules, line.at) && is_within(rules, end_of(line))
}

/// The first line that isn't in time.
pub fn first_late(rules: &Rules, lines: &[PlanLine]) -> Option<Reason>
    requires { AllByRecursion EndIsDefined lines.now }
    ensures { Judged (time_duties rules.now lines.now) result }
{
    for line in lines {
        if !is_in_time(rules, line) {
            return Some(Reason::Time(line.line));
        }
    }
    None
}
