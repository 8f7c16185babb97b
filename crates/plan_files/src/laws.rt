//! Laws of the definitions: each function does nothing, and its contract is the law.

ghost use Rattle.plan_files.specs.Laws.{WordsAreOne, PlanFilesAreOne, OrderFilesAreOne, LinesComeOut};

/// A line is made of one list of words at most.
pub fn words_are_one()
    ensures { WordsAreOne }
{}

/// A text stands for one plan at most, is refused in one way at most, and not both.
pub fn plan_files_are_one()
    ensures { PlanFilesAreOne }
{}

/// A text stands for one ordering at most, is refused in one way at most, and not both.
pub fn order_files_are_one()
    ensures { OrderFilesAreOne }
{}

/// Small lines and texts, cut by hand.
pub fn lines_come_out()
    ensures { LinesComeOut }
{}
