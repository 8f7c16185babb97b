//! Reasons, from the least places of unmet duties.

ghost use Rattle.std.specs.Prelude.{◌≡◌, suc, slice_index_or};
ghost use Rattle.std.specs.Option.{option_map};
ghost use Rattle.rational.specs.Rational.{zeroℚ};
ghost use Rattle.plan_validator.specs.Judged.{first_of};
ghost use Rattle.plan_validator.specs.Reasons.{no_line, duration_at, start_at, end_at, clash_at, over_all_at};

use crate::least::Least;
use exact_lin::{Fraction, Scalar, SnapId};
use task_types::{PlanLine, Reason};

fn line_number(lines: &[PlanLine], place: usize) -> u32
    ensures { result ≡ (slice_index_or lines.now place no_line).line }
{
    match lines.get(place) {
        Some(line) => line.line,
        None => 0,
    }
}

fn time_at(times: &[Fraction], place: usize) -> Fraction
    ensures { result ≡ slice_index_or times.now place zeroℚ }
{
    match times.get(place) {
        Some(time) => *time,
        None => Fraction::of_int(0),
    }
}

// The time behind that of a place.
fn next_time_at(times: &[Fraction], place: usize) -> Fraction
    ensures { result ≡ slice_index_or times.now (suc place) zeroℚ }
{
    match times.split_first() {
        Some((_, later)) => time_at(later, place),
        None => Fraction::of_int(0),
    }
}

fn moment_at(timed: &[(Fraction, SnapId)], place: usize) -> Fraction
    ensures { result ≡ (slice_index_or timed.now place (zeroℚ, 0)).0 }
{
    match timed.get(place) {
        Some(moment) => moment.0,
        None => Fraction::of_int(0),
    }
}

/// The reason of the first line whose duration doesn't fit.
pub fn duration_reason(least: Least, lines: &[PlanLine]) -> Option<Reason>
    ensures { result ≡ option_map (duration_at lines.now) least.place }
{
    match least.place {
        Some(place) => Some(Reason::Duration(line_number(lines, place.0))),
        None => None,
    }
}

/// The reason of the first line that can't start.
pub fn start_reason(least: Least, lines: &[PlanLine]) -> Option<Reason>
    ensures { result ≡ option_map (start_at lines.now) least.place }
{
    match least.place {
        Some(place) => Some(Reason::Start(line_number(lines, place.0))),
        None => None,
    }
}

/// The reason of the first line that can't end.
pub fn end_reason(least: Least, lines: &[PlanLine]) -> Option<Reason>
    ensures { result ≡ option_map (end_at lines.now) least.place }
{
    match least.place {
        Some(place) => Some(Reason::End(line_number(lines, place.0))),
        None => None,
    }
}

fn pair_reason(place: (usize, usize), lines: &[PlanLine], timed: &[(Fraction, SnapId)]) -> Reason
    ensures { result ≡ clash_at lines.now timed.now place }
{
    if lines.len() <= place.1 {
        let moment = moment_at(timed, place.1 - lines.len());
        return Reason::ClashTimed(line_number(lines, place.0), moment);
    }
    Reason::Clash(line_number(lines, place.0), line_number(lines, place.1))
}

/// The reason of the first clash.
pub fn clash_reason(
    least: Least,
    lines: &[PlanLine],
    timed: &[(Fraction, SnapId)],
) -> Option<Reason>
    ensures { result ≡ option_map (clash_at lines.now timed.now) least.place }
{
    match least.place {
        Some(place) => Some(pair_reason(place, lines, timed)),
        None => None,
    }
}

/// The reason of the first over-all condition that fails, with the times of its segment.
pub fn over_all_reason(least: Least, lines: &[PlanLine], times: &[Fraction]) -> Option<Reason>
    ensures { result ≡ option_map (over_all_at lines.now times.now) least.place }
{
    match least.place {
        Some(place) => {
            let from = time_at(times, place.1);
            let to = next_time_at(times, place.1);
            Some(Reason::OverAll(line_number(lines, place.0), from, to))
        }
        None => None,
    }
}

/// The first of two reasons, if there is one.
pub fn first_of(one: Option<Reason>, other: Option<Reason>) -> Option<Reason>
    ensures { result ≡ first_of one other }
{
    match one {
        Some(reason) => Some(reason),
        None => other,
    }
}
