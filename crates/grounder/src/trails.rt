//! Trajectory constraints over numbered facts.

ghost use Rattle.std.specs.Prelude.{◌≡◌, ◌≤◌, ◌+◌, IfOk};
ghost use Rattle.rational.specs.Rational.{zeroℚ};
ghost use Rattle.task_types.specs.declared.formulas.FactTree.TheVariants as fact;
ghost use Rattle.ground_world.specs.Counts.{formula_count, trajectory_count, part_limit};
ghost use Rattle.ground_world.specs.Shown.{env_of};
ghost use Rattle.grounder.specs.ShownGrounding.{ground_of};
ghost use Rattle.grounder.specs.Task.{fact_number, trail_of};
ghost use Rattle.grounder.specs.Terms.{formula};

use crate::formulas::formula;
use crate::grounding::Grounding;
use exact_lin::{Fraction, NoMemory, Scalar};
use ground_world::Bound;
use pddl_terms::{FactForm, Trajectory};
use std::alloc::Global;
use task_types::{FactTree, Trail, TrailKind};

// A constraint with one formula.
fn one_formula<'a>(
    alloc: Global,
    grounding: &'a Grounding,
    env: &[Bound<'a>],
    kind: TrailKind,
    first: &'a FactForm,
    moment: Fraction,
) -> Result<Trail, NoMemory>
    requires { formula_count (ground_of grounding.now).world first.now ≤ part_limit }
    ensures { IfOk result (λ t. t ≡ record {
      kind = kind;
      first = formula (ground_of grounding.now).world (fact_number (ground_of grounding.now)) (env_of env.now) first.now;
      second = fact.True;
      moment = moment;
    }) }
{
    Ok(Trail {
        kind,
        first: formula(alloc, grounding, env, first)?,
        second: FactTree::True,
        moment,
    })
}

// A constraint with two formulas.
fn two_formulas<'a>(
    alloc: Global,
    grounding: &'a Grounding,
    env: &[Bound<'a>],
    kind: TrailKind,
    first: &'a FactForm,
    second: &'a FactForm,
) -> Result<Trail, NoMemory>
    requires { formula_count (ground_of grounding.now).world first.now + formula_count (ground_of grounding.now).world second.now ≤ part_limit }
    ensures { IfOk result (λ t. t ≡ record {
      kind = kind;
      first = formula (ground_of grounding.now).world (fact_number (ground_of grounding.now)) (env_of env.now) first.now;
      second = formula (ground_of grounding.now).world (fact_number (ground_of grounding.now)) (env_of env.now) second.now;
      moment = zeroℚ;
    }) }
{
    let first = formula(alloc, grounding, env, first)?;
    let second = formula(alloc, grounding, env, second)?;
    Ok(Trail {
        kind,
        first,
        second,
        moment: Fraction::of_int(0),
    })
}

/// A trajectory constraint under a binding.
pub fn trail<'a>(
    alloc: Global,
    grounding: &'a Grounding,
    env: &[Bound<'a>],
    trajectory: &'a Trajectory,
) -> Result<Trail, NoMemory>
    requires { trajectory_count (ground_of grounding.now).world trajectory.now ≤ part_limit }
    ensures { IfOk result (λ t. t ≡ trail_of (ground_of grounding.now) trajectory.now (env_of env.now)) }
{
    let zero = Fraction::of_int(0);
    match trajectory {
        Trajectory::Always(_, first) => {
            one_formula(alloc, grounding, env, TrailKind::Always, first, zero)
        }
        Trajectory::Sometime(_, first) => {
            one_formula(alloc, grounding, env, TrailKind::Sometime, first, zero)
        }
        Trajectory::Within(_, moment, first) => {
            one_formula(alloc, grounding, env, TrailKind::Within, first, *moment)
        }
        Trajectory::AtMostOnce(_, first) => {
            one_formula(alloc, grounding, env, TrailKind::AtMostOnce, first, zero)
        }
        Trajectory::SometimeAfter(_, first, second) => {
            let kind = TrailKind::SometimeAfter;
            two_formulas(alloc, grounding, env, kind, first, second)
        }
        Trajectory::SometimeBefore(_, first, second) => {
            let kind = TrailKind::SometimeBefore;
            two_formulas(alloc, grounding, env, kind, first, second)
        }
        Trajectory::AtEnd(_, first) => {
            one_formula(alloc, grounding, env, TrailKind::AtEnd, first, zero)
        }
        Trajectory::LeftOut(_) => Ok(Trail {
            kind: TrailKind::Always,
            first: FactTree::True,
            second: FactTree::True,
            moment: zero,
        }),
    }
}
