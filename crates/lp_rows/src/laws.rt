//! Laws of the definitions: each function does nothing, and its contract is the law.

ghost use Rattle.lp_rows.specs.Laws.{ComparedRowsAreMet, DenseRowsAreSparse};
ghost use Rattle.lp_rows.specs.MadeRows.{MadeRowsComeOut};

/// A row of a comparison is met at a point exactly where the comparison holds there.
pub fn compared_rows_are_met()
    ensures { ComparedRowsAreMet }
{}

/// A row with one factor for each variable comes, at a point, to what its terms come to.
pub fn dense_rows_are_sparse()
    ensures { DenseRowsAreSparse }
{}

/// The rows of some tasks made at random, as an independent program makes them.
pub fn made_rows_come_out()
    ensures { MadeRowsComeOut }
{}
