//! The numbers of facts and fluents.

ghost use Rattle.std.specs.Prelude.{◌≡◌};
ghost use Rattle.grounder.specs.ShownGrounding.{ground_of};
ghost use Rattle.grounder.specs.Task.{fact_number, fluent_number};

use crate::grounding::Grounding;
use exact_lin::{FactId, FluentId, Id};

/// The number of a ground atom among the facts.
pub fn fact_id(grounding: &Grounding, atom: &[u32]) -> FactId
    ensures { result ≡ fact_number (ground_of grounding.now) atom.now }
{
    FactId::of(grounding.facts.place_or_len(atom) as u32)
}

/// The number of a ground fluent among the fluents.
pub fn fluent_id(grounding: &Grounding, fluent: &[u32]) -> FluentId
    ensures { result ≡ fluent_number (ground_of grounding.now) fluent.now }
{
    FluentId::of(grounding.tables.fluents.place_or_len(fluent) as u32)
}
