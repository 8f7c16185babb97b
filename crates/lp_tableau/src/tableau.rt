//! The numbers of a dictionary, and how they are read.

ghost use Rattle.std.specs.Prelude.{◌≡◌, ◌<◌, length};
ghost use Rattle.rational.specs.Lists.{at};
ghost use Rattle.lp_tableau.specs.Dictionaries.{constant_of, entry_of, value_of};
ghost use Rattle.lp_tableau.specs.Tableaus.{AreEven, dictionary_of};

use exact_lin::Scalar;

// Each basic variable and the cost as a linear function of the nonbasic variables: a row of entries, in the order of
// the nonbasic variables, and at its end the constant.
#[derive(Drop)]
pub(crate) struct Tableau<S> {
    pub(crate) basic: Vec<usize>,
    pub(crate) nonbasic: Vec<usize>,
    pub(crate) rows: Vec<Vec<S>>,
    pub(crate) cost: Vec<S>,
}

impl<S: Scalar> Tableau<S> {
    // The constant of the basic variable at i.
    pub(crate) fn constant(&self, i: usize) -> S
        requires even { AreEven self.now }
        requires row { i < length self.now.rows.items }
        ensures { S.value result ≡ constant_of (dictionary_of S.value self.now) i }
    {
        self.rows[i][self.nonbasic.len()]
    }

    // The entry of the basic variable at i in the column of the nonbasic one at j.
    pub(crate) fn entry(&self, i: usize, j: usize) -> S
        requires even { AreEven self.now }
        requires row { i < length self.now.rows.items }
        requires column { j < length self.now.nonbasic.items }
        ensures { S.value result ≡ entry_of (dictionary_of S.value self.now) i j }
    {
        self.rows[i][j]
    }

    // The cost's entry in the column of the nonbasic variable at j.
    pub(crate) fn cost_entry(&self, j: usize) -> S
        requires even { AreEven self.now }
        requires column { j < length self.now.nonbasic.items }
        ensures { S.value result ≡ at (dictionary_of S.value self.now).cost j }
    {
        self.cost[j]
    }

    // The cost where each nonbasic variable is 0.
    pub(crate) fn value(&self) -> S
        requires { AreEven self.now }
        ensures { S.value result ≡ value_of (dictionary_of S.value self.now) }
    {
        self.cost[self.nonbasic.len()]
    }
}
