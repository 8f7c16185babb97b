//! The table of the lines of a problem.

ghost use Rattle.std.specs.Prelude.{◌≡◌};
ghost use Rattle.pddl_terms.specs.Goals.{
  goal_cond_rest,
  goal_rest,
  denied_tree_rest,
  soft_denied_rest,
  soft_tree_rest,
  soft_rest,
  measure_rest,
};
ghost use Rattle.pddl_terms.specs.Problems.{
  problem_section_rest,
  is_given,
  and_given,
  init_rest,
  literal_rest,
  at_init,
  time_cost_rest,
  piece_rest,
  problem_begins,
  problem_stands,
  problem_may_be_empty,
  problem_may_end,
  problem_takes,
  problem_section_enters,
  problem_leaves,
};

use crate::grammar::{
    Line, Listed, ProblemGiven, ProblemLine, ProblemRest, Rest, only_if, problem_after,
};
use crate::heads::{CondHead, TreeHead};
use crate::lines::{cond_rest, expr_rest, named, tree_rest};
use crate::problem_heads::{
    GoalHead, InitHead, MeasureHead, ProblemHead, SoftHead, goal_head, init_head, measure_head,
    problem_head, soft_head,
};
use crate::words::{is_left_out, is_name, is_number, is_variable, same_word};
use sexpr_text::TokenKind;

fn section_rest(head: ProblemHead) -> Option<Rest>
    ensures { result ≡ problem_section_rest head }
{
    match head {
        ProblemHead::LeftOut => Some(Rest::Skipped),
        ProblemHead::Requirements => Some(Rest::Many(Line::Keyword)),
        ProblemHead::Objects => Some(Rest::Typed(Listed::Names)),
        ProblemHead::Init => Some(Rest::Many(Line::Problem(ProblemLine::Init))),
        ProblemHead::Goal => Some(Rest::One(Line::Problem(ProblemLine::Goal))),
        ProblemHead::Constraints => Some(Rest::One(Line::Con)),
        ProblemHead::TimeCosts => Some(Rest::Many(Line::Problem(ProblemLine::TimeCost))),
        ProblemHead::Metric => Some(Rest::Problem(ProblemRest::Metric)),
        ProblemHead::Unknown => None,
    }
}

/// Whether a section that stands once at most has been given.
fn is_given(given: ProblemGiven, head: ProblemHead) -> bool
    ensures { result ≡ is_given given head }
{
    match head {
        ProblemHead::Requirements => given.requirements,
        ProblemHead::Objects => given.objects,
        ProblemHead::Init => given.init,
        ProblemHead::Goal => given.goal,
        ProblemHead::Constraints => given.constraints,
        ProblemHead::TimeCosts => given.time_costs,
        ProblemHead::Metric => given.metric,
        ProblemHead::LeftOut | ProblemHead::Unknown => false,
    }
}

/// The sections that are given, with one more.
fn and_given(given: ProblemGiven, head: ProblemHead) -> ProblemGiven
    ensures { result ≡ and_given given head }
{
    let mut given = given;
    match head {
        ProblemHead::Requirements => given.requirements = true,
        ProblemHead::Objects => given.objects = true,
        ProblemHead::Init => given.init = true,
        ProblemHead::Goal => given.goal = true,
        ProblemHead::Constraints => given.constraints = true,
        ProblemHead::TimeCosts => given.time_costs = true,
        ProblemHead::Metric => given.metric = true,
        ProblemHead::LeftOut | ProblemHead::Unknown => {}
    }
    given
}

fn init_rest(head: InitHead, kind: TokenKind) -> Option<Rest>
    ensures { result ≡ init_rest head kind }
{
    match head {
        InitHead::LeftOut => Some(Rest::Skipped),
        InitHead::Not => Some(Rest::One(Line::Atom)),
        InitHead::Value => Some(Rest::Two(Line::Fluent, Line::Number)),
        InitHead::At => Some(Rest::Problem(ProblemRest::AtInit)),
        InitHead::Named => named(kind),
    }
}

fn literal_rest(head: InitHead, kind: TokenKind) -> Option<Rest>
    ensures { result ≡ literal_rest head kind }
{
    match head {
        InitHead::LeftOut => Some(Rest::Skipped),
        InitHead::Not => Some(Rest::One(Line::Atom)),
        InitHead::Value | InitHead::At | InitHead::Named => named(kind),
    }
}

/// Behind `at` in `:init`: a moment, or the first term.
fn at_init(kind: TokenKind) -> Option<Rest>
    ensures { result ≡ at_init kind }
{
    if is_number(kind) {
        Some(Rest::One(Line::Problem(ProblemLine::Literal)))
    } else {
        only_if(is_name(kind) || is_variable(kind), Rest::Many(Line::Term))
    }
}

fn goal_cond_rest(head: CondHead, kind: TokenKind) -> Option<Rest>
    ensures { result ≡ goal_cond_rest head kind }
{
    match head {
        CondHead::And => Some(Rest::Many(Line::Problem(ProblemLine::Goal))),
        CondHead::Forall => Some(Rest::Two(Line::VariableList, Line::Problem(ProblemLine::Goal))),
        CondHead::LeftOut
        | CondHead::Not
        | CondHead::Equal
        | CondHead::Compare(_)
        | CondHead::Named => cond_rest(head, kind),
    }
}

fn goal_rest(head: GoalHead, kind: TokenKind) -> Option<Rest>
    ensures { result ≡ goal_rest head kind }
{
    match head {
        GoalHead::Preference => Some(Rest::OptionalName(Line::Problem(ProblemLine::Soft))),
        GoalHead::Condition(head) => goal_cond_rest(head, kind),
    }
}

fn denied_tree_rest(head: TreeHead, kind: TokenKind) -> Option<Rest>
    ensures { result ≡ denied_tree_rest head kind }
{
    match head {
        TreeHead::Not => Some(Rest::One(Line::Problem(ProblemLine::SoftDenied))),
        TreeHead::LeftOut
        | TreeHead::Named
        | TreeHead::Equal
        | TreeHead::And
        | TreeHead::Or
        | TreeHead::Imply
        | TreeHead::Exists
        | TreeHead::Forall => tree_rest(head, kind),
    }
}

fn soft_denied_rest(head: SoftHead, kind: TokenKind) -> Option<Rest>
    ensures { result ≡ soft_denied_rest head kind }
{
    match head {
        SoftHead::Compare(_) => Some(Rest::Two(Line::Expr, Line::Expr)),
        SoftHead::Formula(head) => denied_tree_rest(head, kind),
    }
}

fn soft_tree_rest(head: TreeHead, kind: TokenKind) -> Option<Rest>
    ensures { result ≡ soft_tree_rest head kind }
{
    match head {
        TreeHead::And => Some(Rest::Many(Line::Problem(ProblemLine::Soft))),
        TreeHead::LeftOut
        | TreeHead::Named
        | TreeHead::Equal
        | TreeHead::Or
        | TreeHead::Not
        | TreeHead::Imply
        | TreeHead::Exists
        | TreeHead::Forall => denied_tree_rest(head, kind),
    }
}

fn soft_rest(head: SoftHead, kind: TokenKind) -> Option<Rest>
    ensures { result ≡ soft_rest head kind }
{
    match head {
        SoftHead::Compare(_) => Some(Rest::Two(Line::Expr, Line::Expr)),
        SoftHead::Formula(head) => soft_tree_rest(head, kind),
    }
}

fn measure_rest(head: MeasureHead, kind: TokenKind) -> Option<Rest>
    ensures { result ≡ measure_rest head kind }
{
    match head {
        MeasureHead::TotalTime => Some(Rest::Nothing),
        MeasureHead::Violated | MeasureHead::TimeCost => Some(Rest::One(Line::Name)),
        MeasureHead::Expression(head) => {
            expr_rest(Line::Problem(ProblemLine::Measure), head, kind)
        }
    }
}

fn time_cost_rest(word: &[u8], kind: TokenKind) -> Option<Rest>
    ensures { result ≡ time_cost_rest word.now kind }
{
    if is_left_out(word) {
        Some(Rest::Skipped)
    } else {
        only_if(is_name(kind), Rest::Problem(ProblemRest::CostFormula))
    }
}

fn piece_rest(word: &[u8], kind: TokenKind) -> Option<Rest>
    ensures { result ≡ piece_rest word.now kind }
{
    if is_left_out(word) {
        Some(Rest::Skipped)
    } else {
        only_if(is_number(kind), Rest::Two(Line::Number, Line::Number))
    }
}

/// What may follow the word where it begins a list of the line.
#[tactic(auto, unfolding(crate::specs::Problems::problem_begins))]
pub(crate) fn problem_begins(line: ProblemLine, word: &[u8], kind: TokenKind) -> Option<Rest>
    ensures { result ≡ problem_begins line word.now kind }
{
    match line {
        ProblemLine::File => only_if(
            same_word(word, b"define"),
            Rest::Problem(ProblemRest::Heading),
        ),
        ProblemLine::Heading => only_if(same_word(word, b"problem"), Rest::One(Line::Name)),
        ProblemLine::DomainName => only_if(same_word(word, b":domain"), Rest::One(Line::Name)),
        ProblemLine::Section => section_rest(problem_head(word)),
        ProblemLine::Init => init_rest(init_head(word), kind),
        ProblemLine::Literal => literal_rest(init_head(word), kind),
        ProblemLine::Goal => goal_rest(goal_head(word), kind),
        ProblemLine::Soft => soft_rest(soft_head(word), kind),
        ProblemLine::SoftDenied => soft_denied_rest(soft_head(word), kind),
        ProblemLine::TimeCost => time_cost_rest(word, kind),
        ProblemLine::Piece => piece_rest(word, kind),
        ProblemLine::Measure => measure_rest(measure_head(word), kind),
    }
}

/// Whether a word of the kind may stand alone where the line is wanted.
pub(crate) fn problem_stands(line: ProblemLine, kind: TokenKind) -> bool
    ensures { result ≡ problem_stands line kind }
{
    match line {
        ProblemLine::Measure => is_name(kind) || is_number(kind),
        ProblemLine::File
        | ProblemLine::Heading
        | ProblemLine::DomainName
        | ProblemLine::Section
        | ProblemLine::Init
        | ProblemLine::Literal
        | ProblemLine::Goal
        | ProblemLine::Soft
        | ProblemLine::SoftDenied
        | ProblemLine::TimeCost
        | ProblemLine::Piece => false,
    }
}

/// Whether `( )` is a list of the line.
pub(crate) fn problem_may_be_empty(line: ProblemLine) -> bool
    ensures { result ≡ problem_may_be_empty line }
{
    matches!(
        line,
        ProblemLine::Goal | ProblemLine::Soft | ProblemLine::SoftDenied
    )
}

/// Whether a list may end here.
pub(crate) fn problem_may_end(rest: ProblemRest) -> bool
    ensures { result ≡ problem_may_end rest }
{
    match rest {
        ProblemRest::Sections(given) => given.init && given.goal,
        ProblemRest::AtInit => true,
        ProblemRest::Heading
        | ProblemRest::DomainName
        | ProblemRest::CostFormula
        | ProblemRest::CostCurve
        | ProblemRest::Metric => false,
    }
}

/// What may follow behind a word that stands next, if it may stand there.
#[tactic(auto, unfolding(crate::specs::Problems::problem_takes))]
pub(crate) fn problem_takes(rest: ProblemRest, word: &[u8], kind: TokenKind) -> Option<Rest>
    ensures { result ≡ problem_takes rest word.now kind }
{
    match rest {
        ProblemRest::AtInit => at_init(kind),
        ProblemRest::CostCurve => only_if(is_number(kind), Rest::Two(Line::Number, Line::Number)),
        ProblemRest::Metric => only_if(
            same_word(word, b"minimize") || same_word(word, b"maximize"),
            Rest::One(Line::Problem(ProblemLine::Measure)),
        ),
        ProblemRest::Heading
        | ProblemRest::DomainName
        | ProblemRest::Sections(_)
        | ProblemRest::CostFormula => None,
    }
}

/// What the section may hold whose first word this is, unless it was given before.
pub(crate) fn problem_section_enters(given: ProblemGiven, first: &[u8]) -> Option<Rest>
    ensures { result ≡ problem_section_enters given first.now }
{
    if is_given(given, problem_head(first)) {
        None
    } else {
        Some(Rest::Whole(Line::Problem(ProblemLine::Section)))
    }
}

/// What may follow behind a list that stands next and that the word begins.
pub(crate) fn problem_leaves(rest: ProblemRest, first: &[u8]) -> Rest
    ensures { result ≡ problem_leaves rest first.now }
{
    match rest {
        ProblemRest::Sections(given) => {
            Rest::Problem(ProblemRest::Sections(and_given(given, problem_head(first))))
        }
        ProblemRest::Heading
        | ProblemRest::DomainName
        | ProblemRest::AtInit
        | ProblemRest::CostFormula
        | ProblemRest::CostCurve
        | ProblemRest::Metric => problem_after(rest),
    }
}
