//! Time costs in three numbers.

ghost use Rattle.std.specs.Prelude.{◌≡◌, ◌||◌, not, IsTrue, Some};
ghost use Rattle.rational.specs.Rational.{◌*ℚ◌, ◌-ℚ◌, inverse};
ghost use Rattle.task_types.specs.Tests.{◌≤?◌, ◌<?◌};
ghost use Rattle.task_types.specs.Cost.{late_value as value_of};
ghost use Rattle.task_types.specs.Reckoned.{late_reckoned};
ghost use Rattle.metric_cost.specs.Answers.{Amounts};

use crate::comparing::is_at_most;
use exact_lin::{Fraction, Scalar, Wide};
use task_types::LateCost;

// The cost at a moment between `soft` and `hard`, where it rises evenly.
fn rising(cost: &LateCost, moment: Fraction) -> Result<Fraction, Wide>
    requires span { IsTrue (cost.now.soft <? cost.now.hard) }
    requires between { IsTrue (not ((moment ≤? cost.now.soft) || (cost.now.hard ≤? moment))) }
    ensures { Amounts result (late_reckoned cost.now (Some moment))
        (λ q. q ≡ value_of cost.now (Some moment)) }
{
    let late = moment.add(cost.soft.neg())?;
    let span = cost.hard.add(cost.soft.neg())?;
    let full = cost.top.mul(late)?;
    full.mul(span.recip())
}

fn late_at(cost: &LateCost, moment: Fraction) -> Result<Fraction, Wide>
    requires { IsTrue (cost.now.soft <? cost.now.hard) }
    ensures { Amounts result (late_reckoned cost.now (Some moment))
        (λ q. q ≡ value_of cost.now (Some moment)) }
{
    if is_at_most(moment, cost.soft) {
        Ok(Fraction::of_int(0))
    } else if is_at_most(cost.hard, moment) {
        Ok(cost.top)
    } else {
        rising(cost, moment)
    }
}

/// The value of a time cost in three numbers, given the first moment of its formula.
pub fn late_value(cost: &LateCost, first: Option<Fraction>) -> Result<Fraction, Wide>
    requires { IsTrue (cost.now.soft <? cost.now.hard) }
    ensures { Amounts result (late_reckoned cost.now first) (λ q. q ≡ value_of cost.now first) }
{
    match first {
        Some(moment) => late_at(cost, moment),
        None => Ok(cost.top),
    }
}
