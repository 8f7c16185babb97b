//! Comparisons of numbers, and what is left out, in formulas over facts and in constraints.

ghost use Rattle.std.specs.Prelude.{◌≡◌, ◌++◌};
ghost use Rattle.pddl_forms.specs.Offences.{least_with};
ghost use Rattle.pddl_forms.specs.Formulas.{below_not, compared, formula_in, formula_offences, trajectory_offences, constraint_offences};

use crate::expressions::least_of_sides;
use crate::functions::Functions;
use crate::offences::met;
use crate::typed_lists::least_of_typed;
use pddl_names::{Offence, is_equality};
use pddl_terms::{ConForm, FactForm, Kind, Side, Trajectory};

/// What a formula stands right in: a formula or constraint, a preference of a goal, or the `not` at a place which stands
/// right in a preference.
#[derive(Clone, Copy)]
pub enum Around {
    Formula,
    Preference,
    Negation(u32),
}

fn below_not(outside: Around, at: u32) -> Around
    ensures { result ≡ below_not outside at }
{
    match outside {
        Around::Formula => Around::Formula,
        Around::Preference => Around::Negation(at),
        Around::Negation(_) => Around::Formula,
    }
}

#[tactic(auto, using(crate::proofs::Least::least_of))]
fn least_of_compared(
    functions: &Functions,
    outside: Around,
    at: u32,
    left: &Side,
    right: &Side,
    found: Option<Offence>,
) -> Option<Offence>
    ensures { result ≡ least_with found (compared functions.now outside at left.now right.now) }
{
    match outside {
        Around::Formula => met(found, Kind::LeftOut, at),
        Around::Preference => least_of_sides(functions, left, right, found),
        Around::Negation(place) => {
            let found = met(found, Kind::Strict, place);
            least_of_sides(functions, left, right, found)
        }
    }
}

/// The least of what was found before and in a formula.
#[tactic(auto, using(crate::proofs::FormulaOffences::formula_rules))]
pub(crate) fn least_in_formula(
    functions: &Functions,
    outside: Around,
    tree: &FactForm,
    found: Option<Offence>,
) -> Option<Offence>
    ensures { result ≡ least_with found (formula_in functions.now outside tree.now) }
{
    match tree {
        FactForm::Empty(_) => found,
        FactForm::Atom(_) => found,
        FactForm::Equal(at, left, right) => {
            if is_equality(&functions.declared, left, right) {
                found
            } else {
                least_of_compared(functions, outside, *at, left, right, found)
            }
        }
        FactForm::And(_, parts) | FactForm::Or(_, parts) => {
            let mut found = found;
            for part in parts.as_slice() {
                found = least_in_formula(functions, Around::Formula, part, found);
            }
            found
        }
        FactForm::Not(at, part) => {
            least_in_formula(functions, below_not(outside, *at), part.get(), found)
        }
        FactForm::Imply(_, left, right) => {
            let found = least_in_formula(functions, Around::Formula, left.get(), found);
            least_in_formula(functions, Around::Formula, right.get(), found)
        }
        FactForm::Exists(_, groups, body) => {
            let found = least_of_typed(groups.as_slice(), found);
            least_in_formula(functions, Around::Formula, body.get(), found)
        }
        FactForm::Forall(_, groups, body) => {
            let found = least_of_typed(groups.as_slice(), found);
            least_in_formula(functions, Around::Formula, body.get(), found)
        }
        FactForm::LeftOut(at) => met(found, Kind::LeftOut, *at),
    }
}

/// The same of a formula that stands in no preference of a goal.
pub(crate) fn least_of_formula(
    functions: &Functions,
    tree: &FactForm,
    found: Option<Offence>,
) -> Option<Offence>
    ensures { result ≡ least_with found (formula_offences functions.now tree.now) }
{
    least_in_formula(functions, Around::Formula, tree, found)
}

#[tactic(auto, using(crate::proofs::Least::least_of))]
fn least_of_two(
    functions: &Functions,
    first: &FactForm,
    second: &FactForm,
    found: Option<Offence>,
) -> Option<Offence>
    ensures { result ≡ least_with found
        (formula_offences functions.now first.now ++ formula_offences functions.now second.now) }
{
    let found = least_of_formula(functions, first, found);
    least_of_formula(functions, second, found)
}

#[tactic(auto, using(crate::proofs::Least::least_of))]
fn least_of_trajectory(
    functions: &Functions,
    trajectory: &Trajectory,
    found: Option<Offence>,
) -> Option<Offence>
    ensures { result ≡ least_with found (trajectory_offences functions.now trajectory.now) }
{
    match trajectory {
        Trajectory::Always(_, tree) => least_of_formula(functions, tree, found),
        Trajectory::Sometime(_, tree) => least_of_formula(functions, tree, found),
        Trajectory::Within(_, _, tree) => least_of_formula(functions, tree, found),
        Trajectory::AtMostOnce(_, tree) => least_of_formula(functions, tree, found),
        Trajectory::SometimeAfter(_, first, second) => {
            least_of_two(functions, first, second, found)
        }
        Trajectory::SometimeBefore(_, first, second) => {
            least_of_two(functions, first, second, found)
        }
        Trajectory::AtEnd(_, tree) => least_of_formula(functions, tree, found),
        Trajectory::LeftOut(at) => met(found, Kind::LeftOut, *at),
    }
}

/// The same of constraints.
#[tactic(auto, using(crate::proofs::FormulaOffences::formula_rules))]
pub(crate) fn least_of_constraint(
    functions: &Functions,
    constraint: &ConForm,
    found: Option<Offence>,
) -> Option<Offence>
    ensures { result ≡ least_with found (constraint_offences functions.now constraint.now) }
{
    match constraint {
        ConForm::And(_, parts) => {
            let mut found = found;
            for part in parts.as_slice() {
                found = least_of_constraint(functions, part, found);
            }
            found
        }
        ConForm::Forall(_, groups, body) => {
            let found = least_of_typed(groups.as_slice(), found);
            least_of_constraint(functions, body.get(), found)
        }
        ConForm::Hard(trajectory) => least_of_trajectory(functions, trajectory, found),
        ConForm::Preference(_, _, trajectory) => {
            least_of_trajectory(functions, trajectory, found)
        }
    }
}
