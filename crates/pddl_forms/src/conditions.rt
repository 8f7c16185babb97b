//! Strict and negated comparisons, and what is left out, in conditions and bounds of durations.

ghost use Rattle.std.specs.Prelude.{◌≡◌, None};
ghost use Rattle.pddl_forms.specs.Offences.{least_with};
ghost use Rattle.pddl_forms.specs.Conditions.{negated, strict, equal_offences, condition_below, condition_offences, timed_condition_offences, duration_offences};

use crate::expressions::{least_of_expression, least_of_sides};
use crate::functions::Functions;
use crate::offences::met;
use crate::typed_lists::least_of_typed;
use pddl_names::{Offence, is_equality};
use pddl_terms::{Comparison, CondTree, DurTree, Kind, Side, TimedCond};

#[tactic(auto, using(crate::proofs::Least::least_of))]
fn met_negated(found: Option<Offence>, above: Option<u32>) -> Option<Offence>
    ensures { result ≡ least_with found (negated above) }
{
    match above {
        None => found,
        Some(at) => met(found, Kind::Strict, at),
    }
}

#[tactic(auto, using(crate::proofs::Least::least_of))]
fn met_strict(found: Option<Offence>, at: u32, comparison: Comparison) -> Option<Offence>
    ensures { result ≡ least_with found (strict at comparison) }
{
    match comparison {
        Comparison::Equal => found,
        Comparison::AtMost => found,
        Comparison::AtLeast => found,
        Comparison::Below => met(found, Kind::Strict, at),
        Comparison::Above => met(found, Kind::Strict, at),
    }
}

#[tactic(auto, using(crate::proofs::Least::least_of))]
fn least_of_equal(
    functions: &Functions,
    above: Option<u32>,
    left: &Side,
    right: &Side,
    found: Option<Offence>,
) -> Option<Offence>
    ensures { result ≡ least_with found (equal_offences functions.now above left.now right.now) }
{
    if is_equality(&functions.declared, left, right) {
        return found;
    }
    let found = met_negated(found, above);
    least_of_sides(functions, left, right, found)
}

/// The least of what was found before and in a condition, which stands right below the `not` at a place, if one does.
#[tactic(auto, using(crate::proofs::ConditionOffences::condition_rules))]
fn least_below(
    functions: &Functions,
    above: Option<u32>,
    condition: &CondTree,
    found: Option<Offence>,
) -> Option<Offence>
    ensures { result ≡ least_with found (condition_below functions.now above condition.now) }
{
    match condition {
        CondTree::Empty(_) => found,
        CondTree::And(_, parts) => {
            let mut found = found;
            for part in parts.as_slice() {
                found = least_below(functions, None, part, found);
            }
            found
        }
        CondTree::Forall(_, groups, body) => {
            let found = least_of_typed(groups.as_slice(), found);
            least_below(functions, None, body.get(), found)
        }
        CondTree::Atom(_) => found,
        CondTree::Not(at, part) => {
            let found = met_negated(found, above);
            least_below(functions, Some(*at), part.get(), found)
        }
        CondTree::Equal(_, left, right) => least_of_equal(functions, above, left, right, found),
        CondTree::Compare(at, comparison, left, right) => {
            let found = met_negated(found, above);
            let found = met_strict(found, *at, *comparison);
            let found = least_of_expression(functions, left, found);
            least_of_expression(functions, right, found)
        }
        CondTree::LeftOut(at) => met(found, Kind::LeftOut, *at),
    }
}

/// The least of what was found before and in a condition.
pub(crate) fn least_of_condition(
    functions: &Functions,
    condition: &CondTree,
    found: Option<Offence>,
) -> Option<Offence>
    ensures { result ≡ least_with found (condition_offences functions.now condition.now) }
{
    least_below(functions, None, condition, found)
}

/// The same of a condition of a durative action.
#[tactic(auto, using(crate::proofs::ConditionOffences::condition_rules))]
pub(crate) fn least_of_timed_condition(
    functions: &Functions,
    condition: &TimedCond,
    found: Option<Offence>,
) -> Option<Offence>
    ensures { result ≡ least_with found (timed_condition_offences functions.now condition.now) }
{
    match condition {
        TimedCond::Empty(_) => found,
        TimedCond::And(_, parts) => {
            let mut found = found;
            for part in parts.as_slice() {
                found = least_of_timed_condition(functions, part, found);
            }
            found
        }
        TimedCond::AtStart(_, part) => least_of_condition(functions, part, found),
        TimedCond::OverAll(_, part) => least_of_condition(functions, part, found),
        TimedCond::AtEnd(_, part) => least_of_condition(functions, part, found),
        TimedCond::LeftOut(at) => met(found, Kind::LeftOut, *at),
    }
}

/// The same of the bounds of a duration.
#[tactic(auto, using(crate::proofs::ConditionOffences::condition_rules))]
pub(crate) fn least_of_duration(
    functions: &Functions,
    tree: &DurTree,
    found: Option<Offence>,
) -> Option<Offence>
    ensures { result ≡ least_with found (duration_offences functions.now tree.now) }
{
    match tree {
        DurTree::And(_, parts) => {
            let mut found = found;
            for part in parts.as_slice() {
                found = least_of_duration(functions, part, found);
            }
            found
        }
        DurTree::AtStart(_, part) => least_of_duration(functions, part.get(), found),
        DurTree::AtEnd(_, part) => least_of_duration(functions, part.get(), found),
        DurTree::Bound(_, _, bound) => least_of_expression(functions, bound, found),
        DurTree::LeftOut(at) => met(found, Kind::LeftOut, *at),
    }
}
