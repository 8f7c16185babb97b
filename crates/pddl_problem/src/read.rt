//! The reader of problems.

ghost use Rattle.std.specs.Prelude.{◌<◌, ◌^◌, length, None};
ghost use Rattle.pddl_terms.specs.Files.{ReadsFile};
ghost use Rattle.pddl_problem.specs.Problems.{wrong_problem, problem_told};
ghost use Rattle.pddl_problem.specs.Readings.{ReadsProblem};

use crate::phases::first_offence;
use crate::problems::problem_tree;
use pddl_terms::shape::first_wrong;
use pddl_terms::{Domain, Kind, Line, PddlFault, Problem, ProblemLine, Rest, tokens_of};
use std::alloc::Global;

/// Reads a problem as far as its shape says: the tree that the grammar derives, or the first fault of its tokens, or
/// `Shape` at the first byte at which no accepted text can go on.
pub(crate) fn read_shape(alloc: Global, text: &[u8]) -> Result<Problem, PddlFault>
    requires { length text.now < 2 ^ 32 }
    ensures { ReadsFile wrong_problem problem_told (λ _. None) text.now result }
{
    let forms = match tokens_of(alloc, text) {
        Ok(forms) => forms,
        Err(fault) => return Err(fault),
    };
    let line = Line::Problem(ProblemLine::File);
    if let Some(place) = first_wrong(&forms, 0, Rest::One(line)) {
        return Err(PddlFault::At(Kind::Shape, place));
    }
    match problem_tree(alloc, &forms) {
        Ok(problem) => Ok(problem),
        Err(_) => Err(PddlFault::Memory),
    }
}

/// Reads a problem of a domain: the tree that the grammar derives, where nothing is wrong with its names, types, forms
/// and limits. Else the first fault of the tokens; or `Shape` at the first byte at which no accepted text can go on; or
/// what is wrong in the first of those four phases that finds anything, at its least byte. That a metric doesn't reward
/// late plans, violated preferences or time costs is asked with the forms. A call may also fail for want of memory.
pub fn read_problem(alloc: Global, text: &[u8], domain: &Domain) -> Result<Problem, PddlFault>
    requires { length text.now < 2 ^ 32 }
    ensures { ReadsProblem domain.now text.now result }
{
    let problem = match read_shape(alloc, text) {
        Ok(problem) => problem,
        Err(fault) => return Err(fault),
    };
    match first_offence(alloc, domain, &problem) {
        Ok(None) => Ok(problem),
        Ok(Some(offence)) => Err(PddlFault::At(offence.kind, offence.place)),
        Err(_) => Err(PddlFault::Memory),
    }
}
