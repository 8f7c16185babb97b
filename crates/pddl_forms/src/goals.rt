//! What is wrong in goals and their preferences.

ghost use Rattle.std.specs.Prelude.{◌≡◌};
ghost use Rattle.pddl_forms.specs.Offences.{least_with};
ghost use Rattle.pddl_forms.specs.Goals.{soft_offences, goal_offences};

use crate::conditions::least_of_condition;
use crate::expressions::least_of_sides;
use crate::formulas::{Around, least_in_formula};
use crate::functions::Functions;
use crate::typed_lists::least_of_typed;
use pddl_names::{Offence, is_equality};
use pddl_terms::{GoalTree, SoftTree};

/// The least of what was found before and in what a preference asks.
#[tactic(auto, using(crate::proofs::GoalOffences::goal_rules))]
fn least_of_soft(functions: &Functions, tree: &SoftTree, found: Option<Offence>) -> Option<Offence>
    ensures { result ≡ least_with found (soft_offences functions.now tree.now) }
{
    match tree {
        SoftTree::Formula(formula) => {
            least_in_formula(functions, Around::Preference, formula, found)
        }
        SoftTree::Equal(_, left, right) => {
            if is_equality(&functions.declared, left, right) {
                found
            } else {
                least_of_sides(functions, left, right, found)
            }
        }
        SoftTree::Comparison(condition) => least_of_condition(functions, condition, found),
        SoftTree::And(_, parts) => {
            let mut found = found;
            for part in parts.as_slice() {
                found = least_of_soft(functions, part, found);
            }
            found
        }
    }
}

/// The least of what was found before and in a goal.
#[tactic(auto, using(crate::proofs::GoalOffences::goal_rules))]
pub(crate) fn least_of_goal(
    functions: &Functions,
    goal: &GoalTree,
    found: Option<Offence>,
) -> Option<Offence>
    ensures { result ≡ least_with found (goal_offences functions.now goal.now) }
{
    match goal {
        GoalTree::Condition(condition) => least_of_condition(functions, condition, found),
        GoalTree::And(_, parts) => {
            let mut found = found;
            for part in parts.as_slice() {
                found = least_of_goal(functions, part, found);
            }
            found
        }
        GoalTree::Forall(_, groups, body) => {
            let found = least_of_typed(groups.as_slice(), found);
            least_of_goal(functions, body.get(), found)
        }
        GoalTree::Preference(_, _, soft) => least_of_soft(functions, soft, found),
    }
}
