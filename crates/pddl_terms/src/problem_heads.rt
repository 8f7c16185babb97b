//! What a word begins in a list of a problem.

ghost use Rattle.std.specs.Prelude.{◌≡◌};
ghost use Rattle.pddl_terms.specs.Problems.{problem_head, init_head};
ghost use Rattle.pddl_terms.specs.Goals.{goal_head, compared_soft, soft_head, measure_head};

use crate::heads::{CondHead, ExprHead, TreeHead, comparison_of, cond_head, expr_head, tree_head};
use crate::trees::Comparison;
use crate::words::{is_left_out, same_word};

/// What a word begins as a section of a problem.
#[derive(Clone, Copy)]
pub enum ProblemHead {
    LeftOut,
    Requirements,
    Objects,
    Init,
    Goal,
    Constraints,
    TimeCosts,
    Metric,
    Unknown,
}

/// What a word begins in `:init`.
#[derive(Clone, Copy)]
pub enum InitHead {
    LeftOut,
    Not,
    Value,
    At,
    Named,
}

/// What a word begins in a goal.
#[derive(Clone, Copy)]
pub enum GoalHead {
    Preference,
    Condition(CondHead),
}

/// What a word begins in a preference of a goal.
#[derive(Clone, Copy)]
pub enum SoftHead {
    Compare(Comparison),
    Formula(TreeHead),
}

/// What a word begins in the expression of a metric.
#[derive(Clone, Copy)]
pub enum MeasureHead {
    TotalTime,
    Violated,
    TimeCost,
    Expression(ExprHead),
}

/// What a word begins as a section of a problem.
#[tactic(auto, unfolding(crate::specs::Problems::problem_head))]
pub fn problem_head(word: &[u8]) -> ProblemHead
    ensures { result ≡ problem_head word.now }
{
    if is_left_out(word) {
        ProblemHead::LeftOut
    } else if same_word(word, b":requirements") {
        ProblemHead::Requirements
    } else if same_word(word, b":objects") {
        ProblemHead::Objects
    } else if same_word(word, b":init") {
        ProblemHead::Init
    } else if same_word(word, b":goal") {
        ProblemHead::Goal
    } else if same_word(word, b":constraints") {
        ProblemHead::Constraints
    } else if same_word(word, b":time-costs") {
        ProblemHead::TimeCosts
    } else if same_word(word, b":metric") {
        ProblemHead::Metric
    } else {
        ProblemHead::Unknown
    }
}

/// What a word begins in `:init`.
#[tactic(auto, unfolding(crate::specs::Problems::init_head))]
pub fn init_head(word: &[u8]) -> InitHead
    ensures { result ≡ init_head word.now }
{
    if is_left_out(word) {
        InitHead::LeftOut
    } else if same_word(word, b"not") {
        InitHead::Not
    } else if same_word(word, b"=") {
        InitHead::Value
    } else if same_word(word, b"at") {
        InitHead::At
    } else {
        InitHead::Named
    }
}

/// What a word begins in a goal.
#[tactic(auto, unfolding(crate::specs::Goals::goal_head))]
pub fn goal_head(word: &[u8]) -> GoalHead
    ensures { result ≡ goal_head word.now }
{
    if same_word(word, b"preference") {
        GoalHead::Preference
    } else {
        GoalHead::Condition(cond_head(word))
    }
}

fn compared_soft(comparison: Option<Comparison>, head: TreeHead) -> SoftHead
    ensures { result ≡ compared_soft comparison head }
{
    match comparison {
        None => SoftHead::Formula(head),
        Some(comparison) => SoftHead::Compare(comparison),
    }
}

/// What a word begins in a preference of a goal.
#[tactic(auto, unfolding(crate::specs::Goals::soft_head))]
pub fn soft_head(word: &[u8]) -> SoftHead
    ensures { result ≡ soft_head word.now }
{
    compared_soft(comparison_of(word), tree_head(word))
}

/// What a word begins in the expression of a metric.
#[tactic(auto, unfolding(crate::specs::Goals::measure_head))]
pub fn measure_head(word: &[u8]) -> MeasureHead
    ensures { result ≡ measure_head word.now }
{
    if same_word(word, b"total-time") {
        MeasureHead::TotalTime
    } else if same_word(word, b"is-violated") {
        MeasureHead::Violated
    } else if same_word(word, b"time-cost") {
        MeasureHead::TimeCost
    } else {
        MeasureHead::Expression(expr_head(word))
    }
}
