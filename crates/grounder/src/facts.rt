//! The facts in their order: the bindings of the predicates that change, then each other atom that is mentioned.

ghost use Rattle.std.specs.Prelude.{◌≡◌, ◌≤◌, ◌<◌, [], true, length, IfOk, OnOk, MatchOption};
ghost use Rattle.std.specs.List.{flat_map, list_all};
ghost use Rattle.pddl_names.specs.Declarations.{with_new};
ghost use Rattle.ground_world.specs.World.{either};
ghost use Rattle.ground_world.specs.Counts.{bindings_fit};
ghost use Rattle.ground_world.specs.FirstState.{world};
ghost use Rattle.ground_world.specs.Leaves.{constraint_leaves, cost_of};
ghost use Rattle.ground_world.specs.Shown.{world_of};
ghost use Rattle.grounder.specs.Reach.{leaf_fits, cost_fits};
ghost use Rattle.grounder.specs.Terms.{formula_atoms, constraint_atoms};
ghost use Rattle.grounder.specs.Task.{fact_atoms, mentioned_atoms};

use crate::atoms::add_formula_atoms;
use crate::changing_atoms::changing_atoms;
use crate::mentioned_atoms::{add_constraint_atoms, add_goal_atoms};
use exact_lin::NoMemory;
use ground_world::{Numbering, Tables};
use pddl_terms::{ConForm, Domain, Problem, TimeCost};
use std::alloc::Global;

/// The most facts that a task may have.
const MOST_FACTS: usize = 16_384;

// Adds the atoms that constraints mention, if there are any.
fn add_optional<'a>(
    alloc: Global,
    tables: &'a Tables,
    constraints: &'a Option<ConForm>,
    atoms: &mut Numbering,
) -> Result<(), NoMemory>
    requires { list_all (leaf_fits (world_of tables.now)) (either [] constraint_leaves constraints.now) ≡ true }
    ensures { OnOk result (atoms.new
        ≡ with_new atoms.old (either [] (constraint_atoms (world_of tables.now) []) constraints.now)) }
{
    match constraints {
        Some(tree) => add_constraint_atoms(alloc, tables, &[], tree, atoms),
        None => Ok(()),
    }
}

// Adds the atoms that a time cost mentions.
fn add_cost_atoms<'a>(
    alloc: Global,
    tables: &'a Tables,
    cost: &'a TimeCost,
    atoms: &mut Numbering,
) -> Result<(), NoMemory>
    requires { list_all (cost_fits (world_of tables.now)) (cost_of cost.now) ≡ true }
    ensures { OnOk result (atoms.new ≡ with_new atoms.old
        (flat_map (λ c. formula_atoms (world_of tables.now) [] c.formula) (cost_of cost.now))) }
{
    match cost {
        TimeCost::Named(_, _, formula, _) => add_formula_atoms(alloc, tables, &[], formula, atoms),
        TimeCost::LeftOut(_) => Ok(()),
    }
}

// Adds the atoms that time costs mention.
fn add_all_cost_atoms<'a>(
    alloc: Global,
    tables: &'a Tables,
    costs: &'a [TimeCost],
    atoms: &mut Numbering,
) -> Result<(), NoMemory>
    requires { list_all (cost_fits (world_of tables.now)) (flat_map cost_of costs.now) ≡ true }
    ensures { OnOk result (atoms.new ≡ with_new atoms.old
        (flat_map (λ c. formula_atoms (world_of tables.now) [] c.formula) (flat_map cost_of costs.now))) }
{
    for cost in costs {
        add_cost_atoms(alloc, tables, cost, atoms)?;
    }
    Ok(())
}

// Adds the atoms that the goal, the constraints and the time costs mention.
fn add_mentioned<'a>(
    alloc: Global,
    tables: &'a Tables,
    domain: &'a Domain,
    problem: &'a Problem,
    atoms: &mut Numbering,
) -> Result<(), NoMemory>
    requires { bindings_fit (world_of tables.now) domain.now problem.now ≡ true }
    ensures { OnOk result (atoms.new
        ≡ with_new atoms.old (mentioned_atoms (world_of tables.now) domain.now problem.now)) }
{
    add_goal_atoms(alloc, tables, &[], &problem.goal, atoms)?;
    add_optional(alloc, tables, &domain.constraints, atoms)?;
    add_optional(alloc, tables, &problem.constraints, atoms)?;
    add_all_cost_atoms(alloc, tables, problem.time_costs.as_slice(), atoms)
}

// The facts, where these are the bindings of the predicates that change, or None where they are more than a task may have.
fn with_mentioned<'a>(
    alloc: Global,
    tables: &'a Tables,
    domain: &'a Domain,
    problem: &'a Problem,
    changing: Numbering,
) -> Result<Option<Numbering>, NoMemory>
    requires { bindings_fit (world_of tables.now) domain.now problem.now ≡ true }
    ensures { let all = with_new changing (mentioned_atoms (world_of tables.now) domain.now problem.now) in
        IfOk result (λ found. MatchOption found (16384 < length all) (λ facts. (facts ≡ all) × (length all ≤ 16384))) }
{
    let mut facts = changing;
    add_mentioned(alloc, tables, domain, problem, &mut facts)?;
    if facts.len() > MOST_FACTS {
        return Ok(None);
    }
    Ok(Some(facts))
}

/// The facts of a domain and a problem: the bindings of the predicates that change, then each other atom that the goal,
/// the constraints and the time costs mention. None where they are more than a task may have; the bindings are counted
/// before they are made.
pub fn facts(
    alloc: Global,
    tables: &Tables,
    domain: &Domain,
    problem: &Problem,
) -> Result<Option<Numbering>, NoMemory>
    requires world { world_of tables.now ≡ world domain.now problem.now }
    requires fit { bindings_fit (world_of tables.now) domain.now problem.now ≡ true }
    ensures { let all = fact_atoms (world_of tables.now) domain.now problem.now in
        IfOk result (λ found. MatchOption found (16384 < length all) (λ facts. (facts ≡ all) × (length all ≤ 16384))) }
{
    match changing_atoms(alloc, tables, domain.predicates.as_slice())? {
        Some(changing) => with_mentioned(alloc, tables, domain, problem, changing),
        None => Ok(None),
    }
}
