//! Time costs that rise.

ghost use Rattle.std.specs.Prelude.{◌≡◌, List, ◌∷◌};
ghost use Rattle.rational.specs.Rational.{zeroℚ};
ghost use Rattle.pddl_terms.specs.declared.files.PieceDef.{PieceDef};
ghost use Rattle.pddl_forms.specs.Offences.{least_with};
ghost use Rattle.pddl_forms.specs.TimeCosts.{is_below, is_at_most, is_rise, goes_on, pieces_from, curve_offences, time_cost_offences};

use crate::expressions::met_unless;
use crate::formulas::least_of_formula;
use crate::functions::Functions;
use crate::offences::met;
use exact_lin::{Fraction, Scalar};
use pddl_names::Offence;
use pddl_terms::{CostCurve, Kind, PieceDef, TimeCost};
use std::cmp::Ordering;

/// Whether a number is below another.
pub(crate) fn is_below(one: Fraction, other: Fraction) -> bool
    ensures { result ≡ is_below one other }
{
    match Scalar::cmp(one, other) {
        Ordering::Less => true,
        Ordering::Equal => false,
        Ordering::Greater => false,
    }
}

fn is_at_most(one: Fraction, other: Fraction) -> bool
    ensures { result ≡ is_at_most one other }
{
    !is_below(other, one)
}

fn is_rise(soft: Fraction, hard: Fraction, top: Fraction) -> bool
    ensures { result ≡ is_rise soft hard top }
{
    let zero = Fraction::of_int(0);
    is_at_most(zero, soft) && is_below(soft, hard) && is_at_most(zero, top)
}

fn goes_on(moment: Fraction, cost: Fraction, until: Fraction, from: Fraction, to: Fraction) -> bool
    ensures { result ≡ goes_on moment cost until from to }
{
    is_below(moment, until) && is_at_most(cost, from) && is_at_most(from, to)
}

/// How far the pieces of a time cost have come: the moment at which the last one ends, its cost there, and the least of
/// what was found.
#[derive(Clone, Copy)]
struct Reached {
    moment: Fraction,
    cost: Fraction,
    found: Option<Offence>,
}

#[tactic(auto, using(crate::proofs::Pieces::pieces_of))]
fn after_piece(piece: &PieceDef, before: Reached) -> Reached
    ensures { (ps : List PieceDef)
        → least_with result.found (pieces_from result.moment result.cost ps)
        ≡ least_with before.found (pieces_from before.moment before.cost (piece.now ∷ ps)) }
{
    match piece {
        PieceDef::Piece {
            at,
            until,
            from,
            to,
        } => {
            let right = goes_on(before.moment, before.cost, *until, *from, *to);
            Reached {
                moment: *until,
                cost: *to,
                found: met_unless(before.found, right, Kind::Nonlinear, *at),
            }
        }
        PieceDef::LeftOut(at) => Reached {
            moment: before.moment,
            cost: before.cost,
            found: met(before.found, Kind::LeftOut, *at),
        },
    }
}

#[tactic(auto, using(crate::proofs::Pieces::pieces_of))]
fn least_of_pieces(pieces: &[PieceDef], found: Option<Offence>) -> Option<Offence>
    ensures { result ≡ least_with found (pieces_from zeroℚ zeroℚ pieces.now) }
{
    let zero = Fraction::of_int(0);
    let mut reached = Reached {
        moment: zero,
        cost: zero,
        found,
    };
    let mut left = pieces;
    while let Some((piece, more)) = left.split_first() {
        reached = after_piece(piece, reached);
        left = more;
    }
    reached.found
}

#[tactic(auto, using(crate::proofs::Least::least_of))]
fn least_of_curve(at: u32, curve: &CostCurve, found: Option<Offence>) -> Option<Offence>
    ensures { result ≡ least_with found (curve_offences at curve.now) }
{
    match curve {
        CostCurve::Three { soft, hard, top } => {
            met_unless(found, is_rise(*soft, *hard, *top), Kind::Nonlinear, at)
        }
        CostCurve::Pieces(pieces) => least_of_pieces(pieces.as_slice(), found),
    }
}

/// The least of what was found before and in a time cost.
#[tactic(auto, using(crate::proofs::Least::least_of))]
pub(crate) fn least_of_time_cost(
    functions: &Functions,
    cost: &TimeCost,
    found: Option<Offence>,
) -> Option<Offence>
    ensures { result ≡ least_with found (time_cost_offences functions.now cost.now) }
{
    match cost {
        TimeCost::Named(at, _, formula, curve) => {
            let found = least_of_formula(functions, formula, found);
            least_of_curve(*at, curve, found)
        }
        TimeCost::LeftOut(at) => met(found, Kind::LeftOut, *at),
    }
}
