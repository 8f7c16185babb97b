//! Outer bindings of actions, preferences and constraints: counts of them that stop at a cap, and their limit.

ghost use Rattle.std.specs.Prelude.{◌≡◌, ℕ, ◌*◌, min, IfOk};
ghost use Rattle.ground_world.specs.World.{columns};
ghost use Rattle.ground_world.specs.Bindings.{choice_count};
ghost use Rattle.ground_world.specs.Counts as counts;
ghost use Rattle.ground_world.specs.Shown.{world_of};

use crate::choosing::{choices_within, variables};
use crate::conditions::MOST_PARTS;
use crate::tables::Tables;
use exact_lin::NoMemory;
use pddl_terms::Group;
use std::alloc::Global;

/// The most outer bindings of an action, a preference or a constraint.
pub const MOST_BINDINGS: usize = 1_048_576;

// Where a count of bindings stops.
const BINDING_CAP: usize = 1_048_577;

/// Whether a number of outer bindings, and the literals and comparisons of one of them, are within their limits.
pub(crate) fn fit_limits(outer: usize, parts: usize) -> bool
    ensures { (n m : ℕ) → outer ≡ min 1048577 n → parts ≡ min 65537 m → result ≡ counts.fit_limits n m }
{
    outer <= MOST_BINDINGS && (parts <= MOST_PARTS || outer == 0)
}

/// How many bindings some variables have inside `outer` others, or the cap where there are more.
pub(crate) fn inner_count(
    alloc: Global,
    tables: &Tables,
    outer: usize,
    groups: &[Group],
) -> Result<usize, NoMemory>
    ensures { IfOk result (λ count. (n : ℕ) → outer ≡ min 1048577 n
        → count ≡ min 1048577 (n * choice_count (columns (world_of tables.now) groups.now))) }
{
    let variables = variables(alloc, tables, groups)?;
    let slots = variables.as_slice();
    let ways = choices_within(slots, BINDING_CAP);
    Ok(outer.saturating_mul(ways).min(BINDING_CAP))
}
