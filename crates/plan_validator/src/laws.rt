//! What the definitions imply, as contracts of functions without a body.

ghost use Rattle.plan_validator.specs.Laws.{OneAnswer};

/// A validation has one right answer at most, but for what memory allows.
pub fn one_answer()
    ensures { OneAnswer }
{}
