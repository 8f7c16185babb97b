//! What the parts of a ground task are numbered and weighed by.

ghost use Rattle.std.specs.Prelude.{◌<◌, ◌^◌, length};

use exact_lin::{FluentId, Form, Fraction};
use ground_world::{MetricNames, Numbering, Tables};

/// What the parts of a ground task are numbered and weighed by: the world's tables, the facts in their order, the names
/// that stand for unknowns in the metric, and the metric as a form to be minimised.
#[derive(Drop)]
pub struct Grounding {
    pub tables: Tables,
    pub facts: Numbering,
    pub names: MetricNames,
    pub cost: Form<FluentId, Fraction>,
    pub ghost few_facts: { length facts < 2 ^ 32 },
}
