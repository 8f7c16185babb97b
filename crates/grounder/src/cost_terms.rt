//! Time costs as soft terms.

ghost use Rattle.std.specs.Prelude.{◌≡◌, ◌++◌, true, map, IfOk, OnOk};
ghost use Rattle.std.specs.List.{list_all};
ghost use Rattle.ground_world.specs.ShownLeaves.{costs_of};
ghost use Rattle.grounder.specs.GoalTerms.{cost_term};
ghost use Rattle.grounder.specs.Reach.{cost_fits};
ghost use Rattle.grounder.specs.ShownGrounding.{ground_of};
ghost use Rattle.grounder.specs.ShownTerms.{cost_leaf};

use crate::curves::soft_cost;
use crate::formulas::formula;
use crate::grounding::Grounding;
use crate::weights::cost_weight;
use exact_lin::NoMemory;
use ground_world::CostLeaf;
use sqlite_items::Items;
use std::alloc::Global;
use task_types::Soft;

// The soft term of a time cost.
fn cost_term<'a>(
    alloc: Global,
    grounding: &'a Grounding,
    leaf: &CostLeaf<'a>,
) -> Result<Soft, NoMemory>
    requires { cost_fits (ground_of grounding.now).world (cost_leaf leaf.now) ≡ true }
    ensures { IfOk result (λ term. term ≡ cost_term (ground_of grounding.now) (cost_leaf leaf.now)) }
{
    let tree = formula(alloc, grounding, &[], leaf.formula)?;
    soft_cost(alloc, tree, leaf.curve, cost_weight(grounding, leaf.name))
}

/// Puts the time costs at the end.
pub fn push_cost_terms<'a>(
    alloc: Global,
    grounding: &'a Grounding,
    leaves: &[CostLeaf<'a>],
    out: &mut Items<Soft>,
) -> Result<(), NoMemory>
    requires { list_all (cost_fits (ground_of grounding.now).world) (costs_of leaves.now) ≡ true }
    ensures { OnOk result (out.new ≡ out.old ++ map (cost_term (ground_of grounding.now)) (costs_of leaves.now)) }
{
    for leaf in leaves {
        out.push(cost_term(alloc, grounding, leaf)?)?;
    }
    Ok(())
}
