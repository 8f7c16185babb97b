//! Linear functions on an interval, which is how a value moves between two happenings.

ghost use Rattle.rational.specs.Laws.{EndsDecideBetween, BetweenDecidesEnds};

/// A linear function that is at least 0 at two ends is so everywhere between them; and where it is so at every number
/// strictly between two different ends, it is so at both.
pub fn ends_decide()
    ensures between { EndsDecideBetween }
    ensures ends { BetweenDecidesEnds }
{}
