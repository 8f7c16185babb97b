//! The words for kinds of faults.

ghost use Rattle.std.specs.Prelude.{◌≡◌};
ghost use Rattle.reply_text.specs.Words.{kind_word, limit_word};

use grounder::LimitName;
use pddl_terms::Kind;

/// What is wrong at a place of a domain or a problem.
pub fn kind_word(kind: Kind) -> &'static str
    ensures { result.now ≡ kind_word kind }
{
    match kind {
        Kind::Shape => "Shape",
        Kind::Name => "Name",
        Kind::Double => "Double",
        Kind::Sort => "Sort",
        Kind::Arity => "Arity",
        Kind::Strict => "Strict",
        Kind::Nonlinear => "Nonlinear",
        Kind::LeftOut => "LeftOut",
        Kind::Requirement => "Requirement",
        Kind::MetricSign => "MetricSign",
        Kind::TilClash => "TilClash",
        Kind::Limit => "Limit",
    }
}

/// What of a ground task passed its limit.
pub fn limit_word(name: LimitName) -> &'static str
    ensures { result.now ≡ limit_word name }
{
    match name {
        LimitName::Bindings => "Bindings",
        LimitName::Facts => "Facts",
        LimitName::Fluents => "Fluents",
        LimitName::Actions => "Actions",
        LimitName::Terms => "Terms",
        LimitName::Timed => "Timed",
        LimitName::Watches => "Watches",
        LimitName::Moments => "Moments",
    }
}
