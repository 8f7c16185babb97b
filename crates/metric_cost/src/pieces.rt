//! Time costs in pieces.

ghost use Rattle.std.specs.Prelude.{◌≡◌, IsTrue, false, Some};
ghost use Rattle.rational.specs.Rational.{zeroℚ, ◌+ℚ◌, ◌*ℚ◌, ◌-ℚ◌};
ghost use Rattle.task_types.specs.Tests.{◌≤?◌, ◌<?◌};
ghost use Rattle.task_types.specs.Cost.{piece_value as value_on, piece_at, pieces_value as value_of, last_to as last_of};
ghost use Rattle.task_types.specs.Reckoned.{piece_reckoned, pieces_reckoned, at_some};
ghost use Rattle.task_types.specs.WellMade.{pieces_rise};
ghost use Rattle.metric_cost.specs.Answers.{Amounts};
ghost use Rattle.metric_cost.specs.Slopes.{slope, slope_reckoned, risen_reckoned};

use crate::comparing::is_at_most;
use exact_lin::{Fraction, Scalar, Wide};
use task_types::Piece;

// How steeply a piece with a lower end rises.
fn slope_of(lower: Fraction, piece: &Piece) -> Result<Fraction, Wide>
    requires { IsTrue (lower <? piece.now.until) }
    ensures { Amounts result (slope_reckoned lower piece.now) (λ q. q ≡ slope lower piece.now) }
{
    let span = piece.until.add(lower.neg())?;
    let rise = piece.to.add(piece.from.neg())?;
    rise.mul(span.recip())
}

// Where a line of this slope that begins at a number is at a moment.
fn risen(
    from: Fraction,
    slope: Fraction,
    lower: Fraction,
    moment: Fraction,
) -> Result<Fraction, Wide>
    ensures { Amounts result (risen_reckoned from slope lower moment)
        (λ q. q ≡ from +ℚ slope *ℚ (moment -ℚ lower)) }
{
    let elapsed = moment.add(lower.neg())?;
    let grown = slope.mul(elapsed)?;
    from.add(grown)
}

// The value of a piece with a lower end at a moment.
fn piece_value(lower: Fraction, piece: &Piece, moment: Fraction) -> Result<Fraction, Wide>
    requires { IsTrue (lower <? piece.now.until) }
    ensures { Amounts result (piece_reckoned lower piece.now moment)
        (λ q. q ≡ value_on lower piece.now moment) }
{
    match slope_of(lower, piece) {
        Ok(slope) => risen(piece.from, slope, lower, moment),
        Err(wide) => Err(wide),
    }
}

// The value at a moment above 0.
fn value_past_0(pieces: &[Piece], moment: Fraction) -> Result<Fraction, Wide>
    requires rise { IsTrue (pieces_rise zeroℚ zeroℚ pieces.now) }
    requires late { (moment ≤? zeroℚ) ≡ false }
    ensures { Amounts result (pieces_reckoned zeroℚ pieces.now moment)
        (λ q. q ≡ piece_at zeroℚ zeroℚ pieces.now moment) }
{
    let mut lower = Fraction::of_int(0);
    let mut last = Fraction::of_int(0);
    for piece in pieces {
        if is_at_most(moment, piece.until) {
            return piece_value(lower, piece, moment);
        }
        lower = piece.until;
        last = piece.to;
    }
    Ok(last)
}

fn first_from(pieces: &[Piece]) -> Fraction
    requires { IsTrue (pieces_rise zeroℚ zeroℚ pieces.now) }
    ensures { result ≡ piece_at zeroℚ zeroℚ pieces.now zeroℚ }
{
    match pieces.split_first() {
        Some((first, _)) => first.from,
        None => Fraction::of_int(0),
    }
}

fn last_to(pieces: &[Piece]) -> Fraction
    ensures { result ≡ last_of zeroℚ pieces.now }
{
    let mut last = Fraction::of_int(0);
    for piece in pieces {
        last = piece.to;
    }
    last
}

/// The value of a time cost in pieces, given the first moment of its formula.
pub fn pieces_value(pieces: &[Piece], first: Option<Fraction>) -> Result<Fraction, Wide>
    requires { IsTrue (pieces_rise zeroℚ zeroℚ pieces.now) }
    ensures { Amounts result (at_some (pieces_reckoned zeroℚ pieces.now) first)
        (λ q. q ≡ value_of pieces.now first) }
{
    match first {
        Some(moment) => {
            if is_at_most(moment, Fraction::of_int(0)) {
                Ok(first_from(pieces))
            } else {
                value_past_0(pieces, moment)
            }
        }
        None => Ok(last_to(pieces)),
    }
}
