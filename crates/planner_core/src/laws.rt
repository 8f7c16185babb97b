//! What holds of the definitions: texts are answered in one way at most, and the right answer is told.

ghost use Rattle.planner_core.specs.Laws.{AnswersAreOne, AnswersAreTold};

/// Three texts have one right answer at most. A run over a desk that tells its files gives the right
/// answer to them, but for a fault of the desk or the sink.
pub fn answers_are_one()
    ensures one { AnswersAreOne }
    ensures told { AnswersAreTold }
{}
