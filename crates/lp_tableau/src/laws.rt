//! Laws of the chain of pivots: each function does nothing, and claims a law by its contract.

ghost use Rattle.lp_tableau.specs.Laws.{NarrowPivotsAreWide, NarrowChainsAreWide, ChoicesAreOne, OutcomesAreOne};

/// What is defined over narrow numbers is defined over wide ones, with the same dictionaries.
pub fn narrow_chains_are_wide()
    ensures pivots { NarrowPivotsAreWide }
    ensures chains { NarrowChainsAreWide }
{}

/// The rules name one pivot, and a dictionary has one outcome under a budget.
pub fn chains_are_one()
    ensures choices { ChoicesAreOne }
    ensures outcomes { OutcomesAreOne }
{}
