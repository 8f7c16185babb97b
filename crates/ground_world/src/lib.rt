//! What stands between the trees of a domain and a problem and the ground task: bindings of variables, ground atoms, the
//! first state, conditions with their quantifiers written out, and the reckoning of expressions.
#![tactic(auto)]

mod action_parts;
mod binding;
mod bindings_limit;
mod building;
mod changes;
mod changing;
mod choosing;
mod columns;
mod comparing;
mod conditions;
mod counts;
mod declarations;
mod durations;
mod expressions;
mod first_state;
mod firsts;
mod fluents;
mod formula_counts;
mod goal_counts;
pub mod laws;
mod leaf_limits;
mod leaves;
mod lookups;
mod metric;
mod metric_unknowns;
mod numbering;
mod operations;
mod outer_bindings;
mod parts;
mod places;
mod readings;
mod staged_parts;
mod sums;
mod tables;
mod unvalued;

pub use action_parts::parts_of_action;
pub use binding::{Bound, bound_object, ground_atom, ground_fluent, symbol};
pub use bindings_limit::bindings_fit;
pub use building::world_tables;
pub use changes::{Change, Stage, StagedChange, action_changes};
pub use choosing::{Variable, bound, choices_within, nested_variables, variables};
pub use comparing::{form_or_zero, negative, push_test_unvalued, test_difference, test_forms};
pub use conditions::{MOST_PARTS, equal_part, push_parts, side_object, static_holds};
pub use counts::{COUNT_CAP, body_count, condition_count, timed_count};
pub use durations::{DurationBound, action_bounds};
pub use expressions::{cost_unknown, fluent_form, own_unknown, preference_unknown, reckon};
pub use formula_counts::{formula_count, trajectory_count};
pub use goal_counts::{goal_count, soft_count};
pub use leaves::{ConstraintLeaf, CostLeaf, GoalPreference, constraints, costs, goal_preferences};
pub use metric::minimised;
pub use metric_unknowns::metric_names;
pub use numbering::Numbering;
pub use operations::Flaw;
pub use outer_bindings::MOST_BINDINGS;
pub use parts::{CondPart, CondTest, Operand};
pub use places::Places;
pub use readings::{MetricNames, Reading};
pub use staged_parts::StagedParts;
pub use sums::added;
pub use tables::Tables;
pub use unvalued::{push_fluent as push_unvalued_fluent, push_unvalued};

#[cfg(test)]
mod tests;
