//! Rows of comparisons.

ghost use Rattle.std.specs.Prelude.{◌≡◌, ◌++◌, ◌∷◌, [], IfOk};
ghost use Rattle.rate_ledger.specs.Answers.{Gives};
ghost use Rattle.lp_rows.specs.StepRows.{negated};
ghost use Rattle.lp_rows.specs.Comparing.{row_of};

use crate::origins::Origin;
use crate::rows::OriginRow;
use exact_lin::{Form, FormFault, Fraction, NoMemory, Scalar, VarId};
use sqlite_items::Items;
use std::alloc::Global;

fn negated(alloc: Global, terms: &[(VarId, Fraction)]) -> Result<Items<(VarId, Fraction)>, NoMemory>
    ensures { IfOk result (λ out. out ≡ negated terms.now) }
{
    let mut out = Items::new(alloc);
    for term in terms {
        out.push((term.0, term.1.neg()))?;
    }
    Ok(out)
}

// The row of a form that is to be at least 0, or at most 0.
fn row_of(
    alloc: Global,
    form: &Form<VarId, Fraction>,
    at_least: bool,
    origin: Origin,
) -> Result<OriginRow, NoMemory>
    ensures { IfOk result (λ row. row ≡ row_of form.now at_least origin) }
{
    if at_least {
        let terms = negated(alloc, form.terms())?;
        return Ok(OriginRow {
            terms,
            bound: form.constant(),
            origin,
        });
    }
    let terms = Items::from_slice(alloc, form.terms())?;
    Ok(OriginRow {
        terms,
        bound: form.constant().neg(),
        origin,
    })
}

/// Puts the row of a comparison at the end.
pub fn push_row(
    out: &mut Items<OriginRow>,
    alloc: Global,
    form: &Form<VarId, Fraction>,
    at_least: bool,
    origin: Origin,
) -> Result<(), FormFault>
    ensures { Gives result (Unit {0}) (λ _. out.new ≡ out.old ++ row_of form.now at_least origin ∷ []) }
{
    let row = row_of(alloc, form, at_least, origin)?;
    match out.push(row) {
        Ok(()) => Ok(()),
        Err(_) => Err(FormFault::Memory),
    }
}
