//! The time of the last plan step.

ghost use Rattle.std.specs.Prelude.{◌≡◌};
ghost use Rattle.std.specs.List.{AllByRecursion};
ghost use Rattle.task_types.specs.Plan.{end_of as end_of_line};
ghost use Rattle.task_types.specs.Cost.{total_time as total_time_of};
ghost use Rattle.timed_meaning.specs.TimedPlans.{EndIsDefined};

use crate::comparing::greater;
use exact_lin::{Fraction, Scalar, Wide};
use task_types::PlanLine;

fn end_of(line: &PlanLine) -> Fraction
    requires { EndIsDefined line.now }
    ensures { result ≡ end_of_line line.now }
{
    match line.duration {
        Some(duration) => match line.at.add(duration) {
            Ok(end) => end,
            // never: the end is defined
            Err(Wide) => line.at,
        },
        None => line.at,
    }
}

/// The time of the last plan step, and 0 where there is none. Timed literals don't count.
pub fn total_time(lines: &[PlanLine]) -> Fraction
    requires { AllByRecursion EndIsDefined lines.now }
    ensures { result ≡ total_time_of lines.now }
{
    let Some((first, rest)) = lines.split_first() else {
        return Fraction::of_int(0);
    };
    let mut last = greater(first.at, end_of(first));
    for line in rest {
        last = greater(greater(last, line.at), end_of(line));
    }
    last
}
