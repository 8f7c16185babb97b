//! The bounds of a duration, in the order of the text.

ghost use Rattle.std.specs.Prelude.{◌≡◌, [], ◌++◌, false, IfOk, OnOk};
ghost use Rattle.std.specs.List.{flat_map};
ghost use Rattle.ground_world.specs.Conditions.{duration_bounds, body_bounds};
ghost use Rattle.ground_world.specs.ShownBounds.{bounds_of};

use exact_lin::NoMemory;
use pddl_terms::{ActionBody, Comparison, DurTree, ExprTree};
use sqlite_items::Items;
use std::alloc::Global;

/// A bound of a duration, read at the start or at the end of the action.
#[derive(Clone, Copy, Drop)]
pub struct DurationBound<'a> {
    pub at_end: bool,
    pub order: Comparison,
    pub expression: &'a ExprTree,
}

// Puts the bounds of a duration at the end; those below no tag are read at the end where `at_end` says so.
#[cycle(bounds)]
fn push_bounds<'a>(
    at_end: bool,
    tree: &'a DurTree,
    out: &mut Items<DurationBound<'a>>,
) -> Result<(), NoMemory>
    ensures { OnOk result (bounds_of out.new ≡ bounds_of out.old ++ duration_bounds at_end tree.now) }
{
    match tree {
        DurTree::And(_, parts) => push_all_bounds(at_end, parts.as_slice(), out),
        DurTree::AtStart(_, part) => push_bounds(false, part.get(), out),
        DurTree::AtEnd(_, part) => push_bounds(true, part.get(), out),
        DurTree::Bound(_, order, expression) => {
            out.push(DurationBound {
                at_end,
                order: *order,
                expression,
            })?;
            Ok(())
        }
        DurTree::LeftOut(_) => Ok(()),
    }
}

// Puts the bounds of some durations at the end.
#[cycle(bounds)]
fn push_all_bounds<'a>(
    at_end: bool,
    trees: &'a [DurTree],
    out: &mut Items<DurationBound<'a>>,
) -> Result<(), NoMemory>
    ensures { OnOk result (bounds_of out.new ≡ bounds_of out.old ++ flat_map (duration_bounds at_end) trees.now) }
{
    for tree in trees {
        push_bounds(at_end, tree, out)?;
    }
    Ok(())
}

/// The bounds of an action's duration; an instantaneous action has none.
pub fn action_bounds<'a>(
    alloc: Global,
    body: &'a ActionBody,
) -> Result<Items<DurationBound<'a>>, NoMemory>
    ensures { IfOk result (λ bounds. bounds_of bounds ≡ body_bounds body.now) }
{
    let mut out = Items::new(alloc);
    match body {
        ActionBody::Instant(_, _) => (),
        ActionBody::Durative(duration, _, _) => push_bounds(false, duration, &mut out)?,
    }
    Ok(out)
}
