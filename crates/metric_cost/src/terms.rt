//! Soft terms, reckoned one after the other in the order of the task.

ghost use Rattle.std.specs.Prelude.{◌≡◌, ◌&&◌, ◌∷◌, [], length, map, fold, if◌then◌else◌};
ghost use Rattle.std.specs.List.{AllByRecursion, list_all};
ghost use Rattle.rational.specs.Rational.{ℚ, zeroℚ, ◌+ℚ◌};
ghost use Rattle.exact_lin.specs.Forms.{Covers};
ghost use Rattle.exact_lin.specs.Reckonings.{Value};
ghost use Rattle.task_types.specs.State.{comparison_holds};
ghost use Rattle.task_types.specs.Trace.{Trace};
ghost use Rattle.task_types.specs.Touch.{tree_facts};
ghost use Rattle.task_types.specs.Cost.{goal_met, soft_cost as cost_of};
ghost use Rattle.task_types.specs.Reckoned.{soft_reckoned};
ghost use Rattle.trajectory.specs.Facts.{AreCovered};
ghost use Rattle.timed_meaning.specs.Answers.{told};
ghost use Rattle.metric_cost.specs.Answers.{Amounts};
ghost use Rattle.metric_cost.specs.Terms.{CanReckon, IsWeighed, term_reckoned, terms_reckoned};
ghost use Rattle.metric_cost.specs.Watching.{Watches, WatchEach};

use crate::comparing::is_at_most;
use crate::late::late_value;
use crate::pieces::pieces_value;
use crate::watch::Watch;
use exact_lin::{FluentId, Form, Fraction, Scalar, Wide};
use task_types::{FactTree, Soft};
use trajectory::tree_holds;

fn holds_at(form: &Form<FluentId, Fraction>, fluents: &[Fraction]) -> Result<bool, Wide>
    requires { Covers (length fluents.now) form.now.terms }
    ensures { Amounts result (Value form.now (told [] fluents.now).fluents ∷ [])
        (λ b. b ≡ comparison_holds form.now (told [] fluents.now).fluents) }
{
    match form.value_at(fluents) {
        Ok(value) => Ok(is_at_most(Fraction::of_int(0), value)),
        Err(wide) => Err(wide),
    }
}

fn both(one: bool, other: bool) -> bool
    ensures { result ≡ (one && other) }
{
    one && other
}

// Whether all comparisons hold; each of them is reckoned.
fn all_hold(forms: &[Form<FluentId, Fraction>], fluents: &[Fraction]) -> Result<bool, Wide>
    requires { AllByRecursion (λ e. Covers (length fluents.now) e.terms) forms.now }
    ensures { Amounts result (map (λ e. Value e (told [] fluents.now).fluents) forms.now)
        (λ b. b ≡ list_all (λ e. comparison_holds e (told [] fluents.now).fluents) forms.now) }
{
    let mut all = true;
    for form in forms {
        match holds_at(form, fluents) {
            Ok(holds) => all = both(all, holds),
            Err(wide) => return Err(wide),
        }
    }
    Ok(all)
}

fn goal_cost(
    formula: &FactTree,
    forms: &[Form<FluentId, Fraction>],
    weight: Fraction,
    facts: &[bool],
    fluents: &[Fraction],
) -> Result<Fraction, Wide>
    requires formula { AreCovered (tree_facts formula.now) facts.now }
    requires forms { AllByRecursion (λ e. Covers (length fluents.now) e.terms) forms.now }
    ensures { Amounts result (map (λ e. Value e (told [] fluents.now).fluents) forms.now)
        (λ q. q ≡ (if goal_met formula.now forms.now (told facts.now fluents.now) then zeroℚ else weight)) }
{
    match all_hold(forms, fluents) {
        Ok(hold) => {
            if tree_holds(formula, facts) && hold {
                Ok(Fraction::of_int(0))
            } else {
                Ok(weight)
            }
        }
        Err(wide) => Err(wide),
    }
}

fn weighed(weight: Fraction, value: Result<Fraction, Wide>) -> Result<Fraction, Wide>
    ensures { IsWeighed weight value result }
{
    match value {
        Ok(value) => weight.mul(value),
        Err(wide) => Err(wide),
    }
}

// What a soft term costs.
fn soft_cost(
    soft: &Soft,
    watch: &Watch,
    facts: &[bool],
    fluents: &[Fraction],
) -> Result<Fraction, Wide>
    requires { CanReckon soft.now facts.now fluents.now }
    ensures { (states : Trace) → Watches soft.now watch.now states
        → Amounts result (soft_reckoned soft.now states (told facts.now fluents.now))
        (λ q. q ≡ cost_of soft.now states (told facts.now fluents.now)) }
{
    match soft {
        Soft::Trail(_, weight) => {
            if watch.is_met() {
                Ok(Fraction::of_int(0))
            } else {
                Ok(*weight)
            }
        }
        Soft::Goal(formula, forms, weight) => {
            goal_cost(formula, forms.as_slice(), *weight, facts, fluents)
        }
        Soft::Late(_, cost, weight) => weighed(*weight, late_value(cost, watch.first())),
        Soft::Pieces(_, pieces, weight) => {
            weighed(*weight, pieces_value(pieces.as_slice(), watch.first()))
        }
    }
}

fn add_cost(
    sum: Fraction,
    soft: &Soft,
    watch: &Watch,
    facts: &[bool],
    fluents: &[Fraction],
) -> Result<Fraction, Wide>
    requires { CanReckon soft.now facts.now fluents.now }
    ensures { (states : Trace) → Watches soft.now watch.now states
        → Amounts result (term_reckoned sum soft.now states (told facts.now fluents.now))
        (λ q. q ≡ sum +ℚ cost_of soft.now states (told facts.now fluents.now)) }
{
    match soft_cost(soft, watch, facts, fluents) {
        Ok(cost) => sum.add(cost),
        Err(wide) => Err(wide),
    }
}

/// A number with the costs of some soft terms added one after the other.
pub fn add_costs(
    start: Fraction,
    softs: &[Soft],
    watches: &[Watch],
    facts: &[bool],
    fluents: &[Fraction],
) -> Result<Fraction, Wide>
    requires covered { AllByRecursion (λ s. CanReckon s facts.now fluents.now) softs.now }
    requires each { length watches.now ≡ length softs.now }
    ensures { (states : Trace) → WatchEach softs.now watches.now states
        → Amounts result (terms_reckoned start softs.now states (told facts.now fluents.now))
        (λ q. q ≡ fold (λ q r. q +ℚ r) start (map (λ s. cost_of s states (told facts.now fluents.now)) softs.now)) }
{
    let mut sum = start;
    for i in 0..softs.len() {
        match add_cost(sum, &softs[i], &watches[i], facts, fluents) {
            Ok(more) => sum = more,
            Err(wide) => return Err(wide),
        }
    }
    Ok(sum)
}
