//! The preferences of a goal, the constraints and the time costs, with the lists of variables around them.

ghost use Rattle.std.specs.Prelude.{◌≡◌, [], ◌∷◌, ◌++◌, map, IfOk, OnOk};
ghost use Rattle.std.specs.List.{flat_map};
ghost use Rattle.ground_world.specs.World.{either};
ghost use Rattle.ground_world.specs.Leaves.{name_or_anonymous, goal_preferences, constraint_leaves, constraints, cost_of, costs};
ghost use Rattle.ground_world.specs.Insides.{inside};
ghost use Rattle.ground_world.specs.ShownLeaves.{lists_of, text_of, preferences_of, constraints_of, costs_of};

use exact_lin::NoMemory;
use pddl_terms::{
    ConForm, CostCurve, Domain, FactForm, GoalTree, Group, Name, Problem, SoftTree, TimeCost,
    Trajectory,
};
use sqlite_items::Items;
use std::alloc::Global;

/// A preference of a goal with its name, or `anonymous`, and the lists of variables around it, outer first.
#[derive(Drop)]
pub struct GoalPreference<'a> {
    pub around: Items<&'a [Group]>,
    pub name: &'a [u8],
    pub body: &'a SoftTree,
}

/// A constraint with the lists of variables around it, outer first; a preference has a name, or `anonymous`.
#[derive(Drop)]
pub struct ConstraintLeaf<'a> {
    pub around: Items<&'a [Group]>,
    pub name: Option<&'a [u8]>,
    pub trajectory: &'a Trajectory,
}

/// A time cost with its name.
#[derive(Clone, Copy, Drop)]
pub struct CostLeaf<'a> {
    pub name: &'a [u8],
    pub formula: &'a FactForm,
    pub curve: &'a CostCurve,
}

// The name of a preference.
fn name_or_anonymous<'a>(name: &'a Option<Name>) -> &'a [u8]
    ensures { result.now ≡ name_or_anonymous name.now }
{
    match name {
        Some(name) => name.bytes.as_slice(),
        None => b"anonymous",
    }
}

// Some lists of variables with one more inside.
fn with_inner<'a>(
    alloc: Global,
    around: &[&'a [Group]],
    groups: &'a [Group],
) -> Result<Items<&'a [Group]>, NoMemory>
    ensures { IfOk result (λ lists. lists_of lists ≡ lists_of around.now ++ (groups.now ∷ [])) }
{
    let mut lists = Items::from_slice(alloc, around)?;
    lists.push(groups)?;
    Ok(lists)
}

// Puts a preference at the end.
fn push_preference<'a>(
    alloc: Global,
    around: &[&'a [Group]],
    name: &'a [u8],
    body: &'a SoftTree,
    out: &mut Items<GoalPreference<'a>>,
) -> Result<(), NoMemory>
    ensures { OnOk result (preferences_of out.new ≡ preferences_of out.old
        ++ (record { around = lists_of around.now; leaf = record { name = name.now; body = body.now } } ∷ [])) }
{
    let around = Items::from_slice(alloc, around)?;
    out.push(GoalPreference { around, name, body })?;
    Ok(())
}

// Puts the preferences of a goal at the end, inside some lists of variables.
#[cycle(preferences)]
fn push_preferences<'a>(
    alloc: Global,
    around: &[&'a [Group]],
    goal: &'a GoalTree,
    out: &mut Items<GoalPreference<'a>>,
) -> Result<(), NoMemory>
    ensures { OnOk result (preferences_of out.new
        ≡ preferences_of out.old ++ map (inside (lists_of around.now)) (goal_preferences goal.now)) }
{
    match goal {
        GoalTree::Condition(_) => Ok(()),
        GoalTree::And(_, parts) => push_all_preferences(alloc, around, parts.as_slice(), out),
        GoalTree::Forall(_, groups, body) => {
            let lists = with_inner(alloc, around, groups.as_slice())?;
            let inner = lists.as_slice();
            push_preferences(alloc, inner, body.get(), out)
        }
        GoalTree::Preference(_, name, body) => {
            push_preference(alloc, around, name_or_anonymous(name), body, out)
        }
    }
}

// Puts the preferences of some goals at the end.
#[cycle(preferences)]
fn push_all_preferences<'a>(
    alloc: Global,
    around: &[&'a [Group]],
    goals: &'a [GoalTree],
    out: &mut Items<GoalPreference<'a>>,
) -> Result<(), NoMemory>
    ensures { OnOk result (preferences_of out.new
        ≡ preferences_of out.old ++ map (inside (lists_of around.now)) (flat_map goal_preferences goals.now)) }
{
    for part in goals {
        push_preferences(alloc, around, part, out)?;
    }
    Ok(())
}

/// The preferences of a goal, in the order of the text.
pub fn goal_preferences<'a>(
    alloc: Global,
    goal: &'a GoalTree,
) -> Result<Items<GoalPreference<'a>>, NoMemory>
    ensures { IfOk result (λ found. preferences_of found ≡ goal_preferences goal.now) }
{
    let mut out = Items::new(alloc);
    push_preferences(alloc, &[], goal, &mut out)?;
    Ok(out)
}

// Puts a constraint at the end.
fn push_leaf<'a>(
    alloc: Global,
    around: &[&'a [Group]],
    name: Option<&'a [u8]>,
    trajectory: &'a Trajectory,
    out: &mut Items<ConstraintLeaf<'a>>,
) -> Result<(), NoMemory>
    ensures { OnOk result (constraints_of out.new ≡ constraints_of out.old
        ++ (record { around = lists_of around.now; leaf = (text_of name.entry, trajectory.now) } ∷ [])) }
{
    let around = Items::from_slice(alloc, around)?;
    out.push(ConstraintLeaf {
        around,
        name,
        trajectory,
    })?;
    Ok(())
}

// Puts the leaves of some constraints at the end, inside some lists of variables.
#[cycle(leaves)]
fn push_constraints<'a>(
    alloc: Global,
    around: &[&'a [Group]],
    tree: &'a ConForm,
    out: &mut Items<ConstraintLeaf<'a>>,
) -> Result<(), NoMemory>
    ensures { OnOk result (constraints_of out.new
        ≡ constraints_of out.old ++ map (inside (lists_of around.now)) (constraint_leaves tree.now)) }
{
    match tree {
        ConForm::And(_, parts) => push_all_constraints(alloc, around, parts.as_slice(), out),
        ConForm::Forall(_, groups, body) => {
            let lists = with_inner(alloc, around, groups.as_slice())?;
            let inner = lists.as_slice();
            push_constraints(alloc, inner, body.get(), out)
        }
        ConForm::Hard(trajectory) => push_leaf(alloc, around, None, trajectory, out),
        ConForm::Preference(_, name, trajectory) => {
            push_leaf(
                alloc,
                around,
                Some(name_or_anonymous(name)),
                trajectory,
                out,
            )
        }
    }
}

// Puts the leaves of lists of constraints at the end.
#[cycle(leaves)]
fn push_all_constraints<'a>(
    alloc: Global,
    around: &[&'a [Group]],
    trees: &'a [ConForm],
    out: &mut Items<ConstraintLeaf<'a>>,
) -> Result<(), NoMemory>
    ensures { OnOk result (constraints_of out.new
        ≡ constraints_of out.old ++ map (inside (lists_of around.now)) (flat_map constraint_leaves trees.now)) }
{
    for tree in trees {
        push_constraints(alloc, around, tree, out)?;
    }
    Ok(())
}

// Puts the constraints of a domain or a problem at the end, where it has some.
fn push_section<'a>(
    alloc: Global,
    section: &'a Option<ConForm>,
    out: &mut Items<ConstraintLeaf<'a>>,
) -> Result<(), NoMemory>
    ensures { OnOk result (constraints_of out.new ≡ constraints_of out.old ++ either [] constraint_leaves section.now) }
{
    match section {
        Some(tree) => push_constraints(alloc, &[], tree, out),
        None => Ok(()),
    }
}

/// The constraints of a domain, then those of its problem, in the order of the text.
pub fn constraints<'a>(
    alloc: Global,
    domain: &'a Domain,
    problem: &'a Problem,
) -> Result<Items<ConstraintLeaf<'a>>, NoMemory>
    ensures { IfOk result (λ found. constraints_of found ≡ constraints domain.now problem.now) }
{
    let mut out = Items::new(alloc);
    push_section(alloc, &domain.constraints, &mut out)?;
    push_section(alloc, &problem.constraints, &mut out)?;
    Ok(out)
}

// Puts a time cost at the end.
fn push_cost<'a>(cost: &'a TimeCost, out: &mut Items<CostLeaf<'a>>) -> Result<(), NoMemory>
    ensures { OnOk result (costs_of out.new ≡ costs_of out.old ++ cost_of cost.now) }
{
    match cost {
        TimeCost::Named(_, name, formula, curve) => {
            let name = name.bytes.as_slice();
            out.push(CostLeaf {
                name,
                formula,
                curve,
            })?;
            Ok(())
        }
        TimeCost::LeftOut(_) => Ok(()),
    }
}

/// The time costs of a problem, in the order of the text.
pub fn costs<'a>(alloc: Global, problem: &'a Problem) -> Result<Items<CostLeaf<'a>>, NoMemory>
    ensures { IfOk result (λ found. costs_of found ≡ costs problem.now) }
{
    let mut out = Items::new(alloc);
    for cost in problem.time_costs.as_slice() {
        push_cost(cost, &mut out)?;
    }
    Ok(out)
}
