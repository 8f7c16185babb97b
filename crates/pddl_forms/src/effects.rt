//! Effects with linear amounts and constant rates.

ghost use Rattle.std.specs.Prelude.{◌≡◌};
ghost use Rattle.pddl_forms.specs.Offences.{least_with};
ghost use Rattle.pddl_forms.specs.Effects.{call_offences, effect_offences, rate_offences, timed_effect_offences};

use crate::expressions::{judge, least_of_expression, met_unless};
use crate::functions::Functions;
use crate::offences::met;
use pddl_names::Offence;
use pddl_terms::{Call, EffTree, Kind, RateTree, TimedEff};

/// The least of what was found before and of a list that is left out in place of an atom or a fluent.
#[tactic(auto, using(crate::proofs::Least::least_of))]
pub(crate) fn least_of_call(call: &Call, found: Option<Offence>) -> Option<Offence>
    ensures { result ≡ least_with found (call_offences call.now) }
{
    match call {
        Call::Named(_) => found,
        Call::LeftOut(at) => met(found, Kind::LeftOut, *at),
    }
}

/// The least of what was found before and in an effect.
#[tactic(auto, using(crate::proofs::EffectOffences::effect_rules))]
pub(crate) fn least_of_effect(
    functions: &Functions,
    effect: &EffTree,
    found: Option<Offence>,
) -> Option<Offence>
    ensures { result ≡ least_with found (effect_offences functions.now effect.now) }
{
    match effect {
        EffTree::Empty(_) => found,
        EffTree::And(_, parts) => {
            let mut found = found;
            for part in parts.as_slice() {
                found = least_of_effect(functions, part, found);
            }
            found
        }
        EffTree::Add(_) => found,
        EffTree::Delete(_, fact) => least_of_call(fact, found),
        EffTree::Change(_, _, fluent, amount) => {
            let found = least_of_call(fluent, found);
            least_of_expression(functions, amount, found)
        }
        EffTree::LeftOut(at) => met(found, Kind::LeftOut, *at),
    }
}

#[tactic(auto, using(crate::proofs::Least::least_of))]
fn least_of_rate(functions: &Functions, rate: &RateTree, found: Option<Offence>) -> Option<Offence>
    ensures { result ≡ least_with found (rate_offences functions.now rate.now) }
{
    match rate {
        RateTree::One(_) => found,
        RateTree::Times(at, speed) => {
            let judged = judge(functions, speed, found);
            met_unless(judged.found, judged.is_constant, Kind::Nonlinear, *at)
        }
        RateTree::LeftOut(at) => met(found, Kind::LeftOut, *at),
    }
}

/// The same of an effect of a durative action.
#[tactic(auto, using(crate::proofs::EffectOffences::effect_rules))]
pub(crate) fn least_of_timed_effect(
    functions: &Functions,
    effect: &TimedEff,
    found: Option<Offence>,
) -> Option<Offence>
    ensures { result ≡ least_with found (timed_effect_offences functions.now effect.now) }
{
    match effect {
        TimedEff::Empty(_) => found,
        TimedEff::And(_, parts) => {
            let mut found = found;
            for part in parts.as_slice() {
                found = least_of_timed_effect(functions, part, found);
            }
            found
        }
        TimedEff::AtStart(_, part) => least_of_effect(functions, part, found),
        TimedEff::AtEnd(_, part) => least_of_effect(functions, part, found),
        TimedEff::Rate(_, _, fluent, rate) => {
            let found = least_of_call(fluent, found);
            least_of_rate(functions, rate, found)
        }
        TimedEff::LeftOut(at) => met(found, Kind::LeftOut, *at),
    }
}
