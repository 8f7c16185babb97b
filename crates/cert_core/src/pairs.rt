//! Certificates: Farkas rows and dual rows, each a list of pairs of a row and a multiplier.

ghost use Rattle.std.specs.Prelude.{◌≡◌, IfOk};

use exact_lin::NoMemory;
use std::alloc::Global;
use std::marker::Model;

// Pairs of a row and a multiplier, in the order given.
#[derive(Drop)]
struct Pairs<R, S> {
    pairs: Vec<(R, S)>,
}

impl<R, S> Model for Pairs<R, S> {
    ghost use Rattle.std.specs.Prelude.{List};
    ghost use Rattle.std.specs.Coded.{coded_list, coded×};

    ghost Value = { List (R × S) };

    ghost coded = { coded_list (coded× R.code S.code) };

    ghost view = { λ p. p.pairs.items };
}

impl<R: Copy, S: Copy> Pairs<R, S> {
    fn of(alloc: Global, pairs: &[(R, S)]) -> Result<Pairs<R, S>, NoMemory>
        ensures { IfOk result (λ p. p ≡ pairs.now) }
    {
        match Vec::from_slice(alloc, pairs) {
            Ok(pairs) => Ok(Pairs { pairs }),
            Err(_) => Err(NoMemory),
        }
    }

    fn as_slice(&self) -> &[(R, S)]
        ensures { result.now ≡ self.now }
    {
        self.pairs.as_slice()
    }
}

/// Multipliers that show that a program has no solution: pairs of a row and a multiplier (Farkas 1902).
#[derive(Drop)]
pub struct FarkasRow<R, S> {
    pairs: Pairs<R, S>,
}

impl<R, S> Model for FarkasRow<R, S> {
    ghost use Rattle.std.specs.Prelude.{List};
    ghost use Rattle.std.specs.Coded.{coded_list, coded×};

    ghost Value = { List (R × S) };

    ghost coded = { coded_list (coded× R.code S.code) };

    ghost view = { λ row. row.pairs };
}

impl<R: Copy, S: Copy> FarkasRow<R, S> {
    /// The row of these pairs, in the order given.
    pub fn of_pairs(alloc: Global, pairs: &[(R, S)]) -> Result<FarkasRow<R, S>, NoMemory>
        ensures { IfOk result (λ row. row ≡ pairs.now) }
    {
        Ok(FarkasRow {
            pairs: Pairs::of(alloc, pairs)?,
        })
    }

    /// The pairs in the order given.
    pub fn pairs(&self) -> &[(R, S)]
        ensures { result.now ≡ self.now }
    {
        self.pairs.as_slice()
    }
}

/// Multipliers that bound a program's cost from below: pairs of a row and a multiplier (weak duality).
#[derive(Drop)]
pub struct DualRow<R, S> {
    pairs: Pairs<R, S>,
}

impl<R, S> Model for DualRow<R, S> {
    ghost use Rattle.std.specs.Prelude.{List};
    ghost use Rattle.std.specs.Coded.{coded_list, coded×};

    ghost Value = { List (R × S) };

    ghost coded = { coded_list (coded× R.code S.code) };

    ghost view = { λ row. row.pairs };
}

impl<R: Copy, S: Copy> DualRow<R, S> {
    /// The row of these pairs, in the order given.
    pub fn of_pairs(alloc: Global, pairs: &[(R, S)]) -> Result<DualRow<R, S>, NoMemory>
        ensures { IfOk result (λ row. row ≡ pairs.now) }
    {
        Ok(DualRow {
            pairs: Pairs::of(alloc, pairs)?,
        })
    }

    /// The pairs in the order given.
    pub fn pairs(&self) -> &[(R, S)]
        ensures { result.now ≡ self.now }
    {
        self.pairs.as_slice()
    }
}
