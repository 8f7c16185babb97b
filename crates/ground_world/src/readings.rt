//! Under what expressions are read.

ghost use Rattle.std.specs.Prelude.{◌<◌, ◌^◌, length};

use crate::binding::Bound;
use crate::tables::Tables;
use pddl_names::Names;

/// The names that stand for unknowns in a metric: those of preferences and of time costs. In an action there are none.
#[derive(Drop)]
pub struct MetricNames {
    pub preferences: Names,
    pub costs: Names,
    pub ghost few_preferences: { length preferences < 2 ^ 30 },
    pub ghost few_costs: { length costs < 2 ^ 30 },
}

/// Under what an expression is read: the tables of its world, the names of a metric, and a binding.
#[derive(Clone, Copy, Drop)]
pub struct Reading<'a, 'b> {
    pub tables: &'a Tables,
    pub names: &'a MetricNames,
    pub env: &'a [Bound<'b>],
}
