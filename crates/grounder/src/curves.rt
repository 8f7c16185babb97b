//! Time costs: the cost of the moment at which a formula first holds.

ghost use Rattle.std.specs.Prelude.{◌≡◌, ◌++◌, IfOk, OnOk};
ghost use Rattle.std.specs.List.{flat_map};
ghost use Rattle.grounder.specs.Task.{piece_of, soft_cost};

use exact_lin::{Fraction, NoMemory};
use pddl_terms::{CostCurve, PieceDef};
use sqlite_items::Items;
use std::alloc::Global;
use task_types::{FactTree, LateCost, Piece, Soft};

// Puts a piece at the end.
fn push_piece(piece: &PieceDef, out: &mut Items<Piece>) -> Result<(), NoMemory>
    ensures { OnOk result (out.new ≡ out.old ++ piece_of piece.now) }
{
    match piece {
        PieceDef::Piece {
            at: _,
            until,
            from,
            to,
        } => {
            out.push(Piece {
                until: *until,
                from: *from,
                to: *to,
            })?;
            Ok(())
        }
        PieceDef::LeftOut(_) => Ok(()),
    }
}

// The pieces of a time cost.
fn pieces(alloc: Global, list: &[PieceDef]) -> Result<Items<Piece>, NoMemory>
    ensures { IfOk result (λ pieces. pieces ≡ flat_map piece_of list.now) }
{
    let mut out = Items::new(alloc);
    for piece in list {
        push_piece(piece, &mut out)?;
    }
    Ok(out)
}

/// The soft term of a time cost of a formula.
pub fn soft_cost(
    alloc: Global,
    formula: FactTree,
    curve: &CostCurve,
    weight: Fraction,
) -> Result<Soft, NoMemory>
    ensures { IfOk result (λ term. term ≡ soft_cost formula curve.now weight) }
{
    match curve {
        CostCurve::Three { soft, hard, top } => {
            let cost = LateCost {
                soft: *soft,
                hard: *hard,
                top: *top,
            };
            Ok(Soft::Late(formula, cost, weight))
        }
        CostCurve::Pieces(list) => {
            let pieces = pieces(alloc, list.as_slice())?;
            Ok(Soft::Pieces(formula, pieces, weight))
        }
    }
}
