//! The numbers of a dictionary without the zeros, and how they are read.

ghost use Rattle.std.specs.Prelude.{◌≡◌, ◌<◌, length};
ghost use Rattle.rational.specs.Lists.{at};
ghost use Rattle.lp_tableau.specs.Dictionaries.{constant_of, entry_of, value_of};
ghost use Rattle.lp_sparse.specs.SparseTableaus.{AreRows, dictionary_of};

use crate::marks::may_hold;
use crate::rows::{entry_in, last_in};
use exact_lin::Scalar;

// Each basic variable and the cost as a linear function of the nonbasic variables: a row of columns and numbers, in the
// order of the columns and without zeros. A column is the place of a nonbasic variable; the last is the constant's. The
// marks tell for each column which rows may hold it.
#[derive(Drop)]
pub(crate) struct Tableau<S> {
    pub(crate) basic: Vec<usize>,
    pub(crate) nonbasic: Vec<usize>,
    pub(crate) rows: Vec<Vec<(usize, S)>>,
    pub(crate) cost: Vec<(usize, S)>,
    pub(crate) marks: Vec<Vec<bool>>,
}

impl<S: Scalar> Tableau<S> {
    // The constant of the basic variable at i.
    pub(crate) fn constant(&self, i: usize) -> S
        requires rows { AreRows S.value S.limit self.now }
        requires row { i < length self.now.rows.items }
        ensures { S.value result ≡ constant_of (dictionary_of S.value self.now) i }
    {
        last_in(&self.rows[i], self.nonbasic.len())
    }

    // The entry of the basic variable at i in the column of the nonbasic one at j.
    pub(crate) fn entry(&self, i: usize, j: usize) -> S
        requires rows { AreRows S.value S.limit self.now }
        requires row { i < length self.now.rows.items }
        requires column { j < length self.now.nonbasic.items }
        ensures { S.value result ≡ entry_of (dictionary_of S.value self.now) i j }
    {
        if !may_hold(&self.marks, j, i) {
            return S::of_int(0);
        }
        entry_in(&self.rows[i], j)
    }

    // The cost's entry in the column of the nonbasic variable at j.
    pub(crate) fn cost_entry(&self, j: usize) -> S
        requires rows { AreRows S.value S.limit self.now }
        requires column { j < length self.now.nonbasic.items }
        ensures { S.value result ≡ at (dictionary_of S.value self.now).cost j }
    {
        entry_in(&self.cost, j)
    }

    // The cost where each nonbasic variable is 0.
    pub(crate) fn value(&self) -> S
        requires { AreRows S.value S.limit self.now }
        ensures { S.value result ≡ value_of (dictionary_of S.value self.now) }
    {
        last_in(&self.cost, self.nonbasic.len())
    }
}
