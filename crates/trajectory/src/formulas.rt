//! Formulas over facts: their truth in the facts of a state, and copies of them.

ghost use Rattle.std.specs.Prelude.{◌≡◌, ◌<◌, IfOk, length};
ghost use Rattle.task_types.specs.State.{literal_holds as literal_holds_in, tree_holds as truth_of};
ghost use Rattle.task_types.specs.Touch.{tree_facts};
ghost use Rattle.trajectory.specs.Facts.{AreCovered, facts_told};

use exact_lin::{FactId, Id, NoMemory};
use sqlite_items::{Boxed, Items};
use std::alloc::Global;
use task_types::{FactTree, Literal, Trail};

// Whether a literal holds in some facts.
fn literal_holds(literal: &Literal, facts: &[bool]) -> bool
    requires { literal.now.fact < length facts.now }
    ensures { result ≡ literal_holds_in literal.now (facts_told facts.now) }
{
    facts[literal.fact.number() as usize] == literal.holds
}

/// Whether a formula holds in a state in which exactly those facts hold that the slice says so of, each at the place
/// of its number.
#[tactic(auto, using(crate::proofs::Truths::formula_truths))]
pub fn tree_holds(tree: &FactTree, facts: &[bool]) -> bool
    requires { AreCovered (tree_facts tree.now) facts.now }
    ensures { result ≡ truth_of tree.now (facts_told facts.now) }
{
    match tree {
        FactTree::True => true,
        FactTree::Is(literal) => literal_holds(literal, facts),
        FactTree::Not(part) => !tree_holds(part.get(), facts),
        FactTree::And(parts) => {
            for part in parts.as_slice() {
                if !tree_holds(part, facts) {
                    return false;
                }
            }
            true
        }
        FactTree::Or(parts) => {
            for choice in parts.as_slice() {
                if tree_holds(choice, facts) {
                    return true;
                }
            }
            false
        }
    }
}

// A copy of a formula.
#[cycle(copies)]
fn copy_tree(alloc: Global, tree: &FactTree) -> Result<FactTree, NoMemory>
    ensures { IfOk result (λ copy. copy ≡ tree.now) }
{
    match tree {
        FactTree::True => Ok(FactTree::True),
        FactTree::Is(literal) => Ok(FactTree::Is(*literal)),
        FactTree::Not(part) => {
            let copy = copy_tree(alloc, part.get())?;
            Ok(FactTree::Not(Boxed::new(alloc, copy)?))
        }
        FactTree::And(parts) => Ok(FactTree::And(copy_trees(alloc, parts.as_slice())?)),
        FactTree::Or(parts) => Ok(FactTree::Or(copy_trees(alloc, parts.as_slice())?)),
    }
}

// Copies of some formulas.
#[cycle(copies)]
fn copy_trees(alloc: Global, trees: &[FactTree]) -> Result<Items<FactTree>, NoMemory>
    ensures { IfOk result (λ copies. copies ≡ trees.now) }
{
    let mut copies = Items::new(alloc);
    for tree in trees {
        copies.push(copy_tree(alloc, tree)?)?;
    }
    Ok(copies)
}

/// A copy of a constraint.
pub fn copy_trail(alloc: Global, trail: &Trail) -> Result<Trail, NoMemory>
    ensures { IfOk result (λ copy. copy ≡ trail.now) }
{
    let first = copy_tree(alloc, &trail.first)?;
    let second = copy_tree(alloc, &trail.second)?;
    Ok(Trail {
        kind: trail.kind,
        first,
        second,
        moment: trail.moment,
    })
}
