//! Laws of the definitions: each function does nothing, and its contract is the law.

ghost use Rattle.ground_world.specs.Laws.{ChoicesByNumber, FilterIsNested, NestedAsOne};
ghost use Rattle.ground_world.specs.Exact.{ReckonedIsExact};

/// Bindings can be counted through: each has its number.
pub fn choices_by_number()
    ensures { ChoicesByNumber }
{}

/// Bindings that pass a test can be found in nested loops, one for each variable.
pub fn filter_is_nested()
    ensures { FilterIsNested }
{}

/// Lists of variables, one inside the other, have the bindings of one list with all their variables.
pub fn nested_as_one()
    ensures { NestedAsOne }
{}

/// Where an expression is reckoned, its form has the exact value of the expression.
pub fn reckoned_is_exact()
    ensures { ReckonedIsExact }
{}
