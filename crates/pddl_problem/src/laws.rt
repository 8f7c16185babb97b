//! Laws of reading problems.

ghost use Rattle.pddl_problem.specs.Laws.{
  TextsAreOneProblem,
  TextsHaveOneFault,
  ProblemsHaveNoFault,
};

/// A text is one problem of a domain at most, and is refused for one thing at most, and not both.
pub fn a_text_is_one_problem()
    ensures tree { TextsAreOneProblem }
    ensures fault { TextsHaveOneFault }
    ensures apart { ProblemsHaveNoFault }
{}
