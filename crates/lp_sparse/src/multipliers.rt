//! Multipliers of rows without those that are 0.

ghost use Rattle.std.specs.Prelude.{◌≡◌, ◌<◌, ◌^◌, ◌++◌, [], length, map, IfOk, OnOk};
ghost use Rattle.exact_lin.specs.Forms.{shown, with_term};
ghost use Rattle.lp_tableau.specs.Multipliers.{numbered};
ghost use Rattle.lp_sparse.specs.NonzeroMultipliers.{without_zeros, ZerosProveNothing};

use crate::merge::vanishes;
use exact_lin::{Id, NoMemory, Scalar};
use std::alloc::Global;

// Puts a pair at the end, unless its multiplier is 0.
fn push_pair<R: Id, S: Scalar>(pairs: &mut Vec<(R, S)>, row: R, y: S) -> Result<(), NoMemory>
    ensures { OnOk result (shown R.number_of S.value pairs.new.items
        ≡ shown R.number_of S.value pairs.old.items ++ with_term (R.number_of row) (S.value y) []) }
{
    if !vanishes(y) {
        pairs.push((row, y))?;
    }
    Ok(())
}

/// The multipliers, one for each row of a program, as pairs of a row and a multiplier, ascending and without zeros:
/// what `FarkasRow::of_pairs` and `DualRow::of_pairs` take.
pub fn nonzero_pairs<R: Id, S: Scalar>(
    alloc: Global,
    multipliers: &[S],
) -> Result<Vec<(R, S)>, NoMemory>
    requires { length multipliers.now < 2 ^ 32 }
    ensures { IfOk result (λ pairs. shown R.number_of S.value pairs.items
        ≡ without_zeros (numbered 0 (map S.value multipliers.now))) }
{
    let mut pairs = Vec::new(alloc);
    for k in 0..multipliers.len() {
        push_pair(&mut pairs, R::of(k as u32), multipliers[k])?;
    }
    Ok(pairs)
}

/// Multipliers that are 0 may be left out of a certificate. The function does nothing, and claims a law by its
/// contract.
pub fn zeros_prove_nothing()
    ensures { ZerosProveNothing }
{}
