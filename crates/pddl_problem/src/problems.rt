//! The problem of a text.

ghost use Rattle.std.specs.Prelude.{◌≡◌, IfOk};
ghost use lib.Chars.{codes};
ghost use Rattle.pddl_terms.specs.Content.{content_at, behind};
ghost use Rattle.pddl_terms.specs.Sections.{
  section,
  left_out,
  heading,
  names_of,
  groups_of,
  constraints_of,
};
ghost use Rattle.pddl_problem.specs.Entries.{entries_of};
ghost use Rattle.pddl_problem.specs.TimeCosts.{costs_of};
ghost use Rattle.pddl_problem.specs.Metrics.{metric_of};
ghost use Rattle.pddl_problem.specs.Problems.{goal_of, problem_of, problem_tree};

use crate::entries::init;
use crate::goals::goal_tree;
use crate::metrics::metric;
use crate::time_costs::time_costs;
use exact_lin::NoMemory;
use pddl_terms::items::{Item, item_at, next};
use pddl_terms::sections::{constraints_of, groups_of, heading, left_out, names_of, section};
use pddl_terms::{CondTree, GoalTree, Group, InitEntry, Metric, Name, Problem, TimeCost};
use sexpr_text::Forms;
use sqlite_items::{Boxed, Items};
use std::alloc::Global;

/// The name of the problem, and that of its domain.
fn head(alloc: Global, forms: &Forms, from: usize) -> Result<(Name, Name), NoMemory>
    ensures name { IfOk result (λ pair. pair.0 ≡ heading (content_at forms.now from)) }
    ensures domain { IfOk result (λ pair. pair.1 ≡ heading (behind (content_at forms.now from))) }
{
    let name = heading(alloc, forms, from)?;
    let domain = heading(alloc, forms, next(forms, from))?;
    Ok((name, domain))
}

/// Its requirements and objects.
fn objects(
    alloc: Global,
    forms: &Forms,
    from: usize,
) -> Result<(Items<Name>, Items<Group>), NoMemory>
    ensures requirements { let x = content_at forms.now from in
        IfOk result (λ pair. pair.0 ≡ names_of (section (codes ":requirements") x)) }
    ensures objects { let x = content_at forms.now from in
        IfOk result (λ pair. pair.1 ≡ groups_of (section (codes ":objects") x)) }
{
    let requirements = names_of(alloc, forms, from, b":requirements")?;
    let objects = groups_of(alloc, forms, from, b":objects")?;
    Ok((requirements, objects))
}

/// Its entries and time costs.
fn values(
    alloc: Global,
    forms: &Forms,
    from: usize,
) -> Result<(Items<InitEntry>, Items<TimeCost>), NoMemory>
    ensures init { let x = content_at forms.now from in
        IfOk result (λ pair. pair.0 ≡ entries_of (section (codes ":init") x)) }
    ensures costs { let x = content_at forms.now from in
        IfOk result (λ pair. pair.1 ≡ costs_of (section (codes ":time-costs") x)) }
{
    let init = init(alloc, forms, from)?;
    let costs = time_costs(alloc, forms, from)?;
    Ok((init, costs))
}

/// Its metric, and the sections that are left out.
fn measure(
    alloc: Global,
    forms: &Forms,
    from: usize,
) -> Result<(Option<Metric>, Items<u32>), NoMemory>
    ensures metric { let x = content_at forms.now from in
        IfOk result (λ pair. pair.0 ≡ metric_of (section (codes ":metric") x)) }
    ensures left { IfOk result (λ pair. pair.1 ≡ left_out (content_at forms.now from)) }
{
    let metric = metric(alloc, forms, from)?;
    let left = left_out(alloc, forms, from)?;
    Ok((metric, left))
}

fn goal(alloc: Global, forms: &Forms, from: usize) -> Result<GoalTree, NoMemory>
    ensures { let x = content_at forms.now from in
        IfOk result (λ goal. goal ≡ goal_of (section (codes ":goal") x)) }
{
    match section(forms, from, b":goal") {
        None => Ok(GoalTree::Condition(CondTree::Empty(0))),
        Some(at) => goal_tree(alloc, forms, at),
    }
}

/// Its goal in a box, which is let go of in one step.
fn boxed_goal(alloc: Global, forms: &Forms, from: usize) -> Result<Boxed<GoalTree>, NoMemory>
    ensures { let x = content_at forms.now from in
        IfOk result (λ goal. goal ≡ goal_of (section (codes ":goal") x)) }
{
    let goal = goal(alloc, forms, from)?;
    Ok(Boxed::new(alloc, goal)?)
}

/// The problem whose heading stands at a token.
fn problem_of(alloc: Global, forms: &Forms, from: usize) -> Result<Problem, NoMemory>
    ensures { IfOk result (λ problem. problem ≡ problem_of (content_at forms.now from)) }
{
    let (name, domain) = head(alloc, forms, from)?;
    let (requirements, objects) = objects(alloc, forms, from)?;
    let (init, time_costs) = values(alloc, forms, from)?;
    let (metric, left_out) = measure(alloc, forms, from)?;
    let goal = boxed_goal(alloc, forms, from)?;
    let constraints = constraints_of(alloc, forms, from, b":constraints")?;
    Ok(Problem {
        name,
        domain,
        requirements,
        objects,
        init,
        goal: goal.into_inner(),
        constraints,
        time_costs,
        metric,
        left_out,
    })
}

/// The problem that the text is, where it has the right shape.
pub(crate) fn problem_tree(alloc: Global, forms: &Forms) -> Result<Problem, NoMemory>
    ensures { IfOk result (λ problem. problem ≡ problem_tree (content_at forms.now 0)) }
{
    match item_at(forms, 0) {
        Item::List(_) => problem_of(alloc, forms, next(forms, 1)),
        Item::End(_) => problem_of(alloc, forms, 0),
        Item::Word(_) => problem_of(alloc, forms, 1),
    }
}
