//! What preferences and time costs weigh in the metric.

ghost use Rattle.std.specs.Prelude.{◌≡◌};
ghost use Rattle.grounder.specs.ShownGrounding.{ground_of};
ghost use Rattle.grounder.specs.Task.{preference_weight, cost_weight};

use crate::grounding::Grounding;
use exact_lin::{FluentId, Fraction, Id};
use ground_world::{Reading, cost_unknown, preference_unknown};

/// The weight of the preferences of a name.
pub fn preference_weight(grounding: &Grounding, name: &[u8]) -> Fraction
    ensures { result ≡ preference_weight (ground_of grounding.now) name.now }
{
    let reading = Reading {
        tables: &grounding.tables,
        names: &grounding.names,
        env: &[],
    };
    let unknown = preference_unknown(&reading, name);
    grounding.cost.coefficient(FluentId::of(unknown))
}

/// The weight of the time costs of a name.
pub fn cost_weight(grounding: &Grounding, name: &[u8]) -> Fraction
    ensures { result ≡ cost_weight (ground_of grounding.now) name.now }
{
    let reading = Reading {
        tables: &grounding.tables,
        names: &grounding.names,
        env: &[],
    };
    let unknown = cost_unknown(&reading, name);
    grounding.cost.coefficient(FluentId::of(unknown))
}
