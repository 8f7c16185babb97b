//! The metric of the task: what a plan costs but for the soft terms.

ghost use Rattle.std.specs.Prelude.{◌≡◌, IfOk};
ghost use Rattle.grounder.specs.ShownGrounding.{ground_of};
ghost use Rattle.grounder.specs.Task.{metric};

use crate::fluent_forms::fluent_terms;
use crate::grounding::Grounding;
use exact_lin::{FluentId, Id, NoMemory};
use std::alloc::Global;
use task_types::Metric;

/// The metric of the task: its constant, what the time of the last plan step weighs, and the terms over the fluents.
pub fn task_metric(alloc: Global, grounding: &Grounding) -> Result<Metric, NoMemory>
    ensures { IfOk result (λ m. m ≡ metric (ground_of grounding.now)) }
{
    let own = FluentId::of(grounding.tables.fluents.len() as u32);
    let fluents = fluent_terms(alloc, grounding, &grounding.cost)?;
    Ok(Metric {
        constant: grounding.cost.constant(),
        last: grounding.cost.coefficient(own),
        fluents,
    })
}
