//! The lines of the grammar, and what may still follow in a list.

ghost use Rattle.std.specs.Prelude.{◌≡◌};
ghost use Rattle.pddl_terms.specs.Grammar.{
  no_domain_section,
  no_problem_section,
  action_wanted,
  action_after,
  domain_wanted,
  domain_after,
  problem_wanted,
  problem_after,
  wanted,
  after,
  only_if,
};

/// What may stand at one place: a line of the grammar.
#[derive(Clone, Copy)]
pub enum Line {
    Term,
    Number,
    /// `( typedvars )`
    VariableList,
    /// An expression outside of effects, where no `?duration` stands.
    Expr,
    /// An expression that may hold `?duration`.
    EffectExpr,
    Cond,
    /// What a `not` of a condition holds: an atom, an equality, or a comparison.
    Denied,
    /// A comparison, or a negated one: what a second `not` holds.
    Cmp,
    Tree,
    Con,
    Trail,
    /// The word `?duration`.
    DurationName,
    Dur,
    /// A duration below a tag, in which no other tag stands.
    UntaggedDur,
    Name,
    Keyword,
    /// A name alone, or `( NAME term* )`.
    Fluent,
    /// `( NAME term* )`
    Atom,
    Domain(DomainLine),
    Problem(ProblemLine),
}

/// What may stand at one place of a domain.
#[derive(Clone, Copy)]
pub enum DomainLine {
    /// `( define ( domain NAME ) dsec* )`
    File,
    /// `( domain NAME )`
    Heading,
    Section,
    /// `( NAME typedvars )`
    Declared,
    TimedCond,
    /// An effect of an instantaneous action.
    Effect,
    /// An effect at the start or end of a durative action, where `?duration` may stand.
    SnapEffect,
    TimedEffect,
    /// What a `not` of an effect holds: an atom.
    Deleted,
    Rate,
    /// The word `#t`.
    Time,
}

/// What may stand at one place of a problem.
#[derive(Clone, Copy)]
pub enum ProblemLine {
    /// `( define ( problem NAME ) ( :domain NAME ) psec* )`
    File,
    /// `( problem NAME )`
    Heading,
    /// `( :domain NAME )`
    DomainName,
    Section,
    Init,
    /// What a timed literal makes true or false: an atom, or a negated one.
    Literal,
    Goal,
    Soft,
    /// What a `not` of a soft formula holds.
    SoftDenied,
    TimeCost,
    /// `( NUMBER NUMBER NUMBER )`
    Piece,
    /// The expression of a metric.
    Measure,
}

/// What a typed list lists.
#[derive(Clone, Copy)]
pub enum Listed {
    Names,
    Variables,
}

/// Whether an action is instantaneous or durative.
#[derive(Clone, Copy)]
pub enum ActionSort {
    Instant,
    Durative,
}

/// A place in an action, by what may follow there.
#[derive(Clone, Copy)]
pub enum ActionPlace {
    Name(ActionSort),
    /// Behind the name.
    Head(ActionSort),
    /// Behind `:parameters`.
    Parameters(ActionSort),
    /// Behind the parameters.
    Body(ActionSort),
    /// Behind `:duration`.
    Duration,
    /// Behind the duration.
    Timed,
    /// Behind `:precondition` or `:condition`.
    Condition(ActionSort),
    /// Behind the condition.
    Tail(ActionSort),
}

/// The sections that a domain has given so far, of those that stand once at most.
#[derive(Clone, Copy)]
pub struct DomainGiven {
    pub requirements: bool,
    pub types: bool,
    pub constants: bool,
    pub predicates: bool,
    pub functions: bool,
    pub constraints: bool,
}

/// The sections that a problem has given so far, of those that stand once at most.
#[derive(Clone, Copy)]
pub struct ProblemGiven {
    pub requirements: bool,
    pub objects: bool,
    pub init: bool,
    pub goal: bool,
    pub constraints: bool,
    pub time_costs: bool,
    pub metric: bool,
}

/// What may still follow in a list of a domain.
#[derive(Clone, Copy)]
pub enum DomainRest {
    /// The heading, and then sections.
    Heading,
    Sections(DomainGiven),
    /// Declarations of functions.
    Functions,
    /// The same, behind a declaration.
    FunctionsMore,
    /// The word `number`, and then declarations of functions.
    FunctionType,
    /// The word `start` or `end`, and then one.
    Snap(Line),
    /// The word `all`, and then one.
    All(Line),
    /// The time `#t` and an expression, either of them first.
    Factors,
}

/// What may still follow in a list of a problem.
#[derive(Clone, Copy)]
pub enum ProblemRest {
    /// The heading, the domain's name, and then sections.
    Heading,
    /// The domain's name, and then sections.
    DomainName,
    Sections(ProblemGiven),
    /// A moment and a literal, or terms.
    AtInit,
    /// A formula, and then how the cost rises.
    CostFormula,
    /// Three numbers, or one or more pieces.
    CostCurve,
    /// A direction, and then an expression.
    Metric,
}

/// What may still follow in a list.
#[derive(Clone, Copy)]
pub enum Rest {
    Nothing,
    One(Line),
    Two(Line, Line),
    Many(Line),
    /// One, and then one or more.
    OneAndSome(Line),
    /// One or more.
    Some(Line),
    /// One, and then one or none.
    OneAndMaybe(Line),
    /// One or none.
    Maybe(Line),
    /// All that a list of the line may hold.
    Whole(Line),
    /// Anything: the list is left out.
    Skipped,
    /// A typed list, at its beginning or behind a type.
    Typed(Listed),
    /// A typed list, behind what it lists.
    TypedMore(Listed),
    /// The type behind a `-`.
    TypeName(Listed),
    /// The two sides of an `=`.
    Sides,
    /// The other side, which may be a variable where the first is a variable or a name.
    Side(bool),
    /// A name or none, and then one.
    OptionalName(Line),
    /// The word `end`, and then one.
    EndAnd(Line),
    /// The word `start` or `end`, and then a duration below the tag.
    Tag,
    /// A duration below a tag.
    OneUntagged,
    /// Durations below a tag.
    ManyUntagged,
    Action(ActionPlace),
    Domain(DomainRest),
    Problem(ProblemRest),
}

fn action_wanted(place: ActionPlace) -> Option<Line>
    ensures { result ≡ action_wanted place }
{
    match place {
        ActionPlace::Parameters(_) => Some(Line::VariableList),
        ActionPlace::Duration => Some(Line::Dur),
        ActionPlace::Condition(ActionSort::Instant) => Some(Line::Cond),
        ActionPlace::Condition(ActionSort::Durative) => Some(Line::Domain(DomainLine::TimedCond)),
        ActionPlace::Name(_)
        | ActionPlace::Head(_)
        | ActionPlace::Body(_)
        | ActionPlace::Timed
        | ActionPlace::Tail(_) => None,
    }
}

fn action_after(place: ActionPlace) -> Rest
    ensures { result ≡ action_after place }
{
    match place {
        ActionPlace::Parameters(sort) => Rest::Action(ActionPlace::Body(sort)),
        ActionPlace::Duration => Rest::Action(ActionPlace::Timed),
        ActionPlace::Condition(sort) => Rest::Action(ActionPlace::Tail(sort)),
        ActionPlace::Name(_)
        | ActionPlace::Head(_)
        | ActionPlace::Body(_)
        | ActionPlace::Timed
        | ActionPlace::Tail(_) => Rest::Nothing,
    }
}

pub(crate) fn domain_wanted(rest: DomainRest) -> Option<Line>
    ensures { result ≡ domain_wanted rest }
{
    match rest {
        DomainRest::Heading => Some(Line::Domain(DomainLine::Heading)),
        DomainRest::Functions => Some(Line::Domain(DomainLine::Declared)),
        DomainRest::FunctionsMore => Some(Line::Domain(DomainLine::Declared)),
        DomainRest::Factors => Some(Line::Expr),
        DomainRest::Sections(_)
        | DomainRest::FunctionType
        | DomainRest::Snap(_)
        | DomainRest::All(_) => None,
    }
}

/// No section of a domain so far.
fn no_domain_section() -> DomainGiven
    ensures { result ≡ no_domain_section }
{
    DomainGiven {
        requirements: false,
        types: false,
        constants: false,
        predicates: false,
        functions: false,
        constraints: false,
    }
}

pub(crate) fn domain_after(rest: DomainRest) -> Rest
    ensures { result ≡ domain_after rest }
{
    match rest {
        DomainRest::Heading => Rest::Domain(DomainRest::Sections(no_domain_section())),
        DomainRest::Functions => Rest::Domain(DomainRest::FunctionsMore),
        DomainRest::FunctionsMore => Rest::Domain(DomainRest::FunctionsMore),
        DomainRest::Factors => Rest::One(Line::Domain(DomainLine::Time)),
        DomainRest::Sections(_)
        | DomainRest::FunctionType
        | DomainRest::Snap(_)
        | DomainRest::All(_) => Rest::Nothing,
    }
}

pub(crate) fn problem_wanted(rest: ProblemRest) -> Option<Line>
    ensures { result ≡ problem_wanted rest }
{
    match rest {
        ProblemRest::Heading => Some(Line::Problem(ProblemLine::Heading)),
        ProblemRest::DomainName => Some(Line::Problem(ProblemLine::DomainName)),
        ProblemRest::CostFormula => Some(Line::Tree),
        ProblemRest::CostCurve => Some(Line::Problem(ProblemLine::Piece)),
        ProblemRest::Sections(_) | ProblemRest::AtInit | ProblemRest::Metric => None,
    }
}

/// No section of a problem so far.
fn no_problem_section() -> ProblemGiven
    ensures { result ≡ no_problem_section }
{
    ProblemGiven {
        requirements: false,
        objects: false,
        init: false,
        goal: false,
        constraints: false,
        time_costs: false,
        metric: false,
    }
}

pub(crate) fn problem_after(rest: ProblemRest) -> Rest
    ensures { result ≡ problem_after rest }
{
    match rest {
        ProblemRest::Heading => Rest::Problem(ProblemRest::DomainName),
        ProblemRest::DomainName => Rest::Problem(ProblemRest::Sections(no_problem_section())),
        ProblemRest::CostFormula => Rest::Problem(ProblemRest::CostCurve),
        ProblemRest::CostCurve => Rest::Many(Line::Problem(ProblemLine::Piece)),
        ProblemRest::Sections(_) | ProblemRest::AtInit | ProblemRest::Metric => Rest::Nothing,
    }
}

/// The line of what has to stand next, where one line says it.
pub(crate) fn wanted(rest: Rest) -> Option<Line>
    ensures { result ≡ wanted rest }
{
    match rest {
        Rest::One(line) => Some(line),
        Rest::Two(line, _) => Some(line),
        Rest::Many(line) => Some(line),
        Rest::OneAndSome(line) => Some(line),
        Rest::Some(line) => Some(line),
        Rest::OneAndMaybe(line) => Some(line),
        Rest::Maybe(line) => Some(line),
        Rest::OptionalName(line) => Some(line),
        Rest::Action(place) => action_wanted(place),
        Rest::Domain(rest) => domain_wanted(rest),
        Rest::Problem(rest) => problem_wanted(rest),
        Rest::Nothing
        | Rest::Whole(_)
        | Rest::Skipped
        | Rest::Typed(_)
        | Rest::TypedMore(_)
        | Rest::TypeName(_)
        | Rest::Sides
        | Rest::Side(_)
        | Rest::EndAnd(_)
        | Rest::Tag
        | Rest::OneUntagged
        | Rest::ManyUntagged => None,
    }
}

/// What may follow behind that.
pub(crate) fn after(rest: Rest) -> Rest
    ensures { result ≡ after rest }
{
    match rest {
        Rest::Two(_, line) => Rest::One(line),
        Rest::Many(line) => Rest::Many(line),
        Rest::OneAndSome(line) => Rest::Some(line),
        Rest::Some(line) => Rest::Many(line),
        Rest::OneAndMaybe(line) => Rest::Maybe(line),
        Rest::Action(place) => action_after(place),
        Rest::Domain(rest) => domain_after(rest),
        Rest::Problem(rest) => problem_after(rest),
        Rest::One(_)
        | Rest::Maybe(_)
        | Rest::OptionalName(_)
        | Rest::Nothing
        | Rest::Whole(_)
        | Rest::Skipped
        | Rest::Typed(_)
        | Rest::TypedMore(_)
        | Rest::TypeName(_)
        | Rest::Sides
        | Rest::Side(_)
        | Rest::EndAnd(_)
        | Rest::Tag
        | Rest::OneUntagged
        | Rest::ManyUntagged => Rest::Nothing,
    }
}

/// The rest, where the test says yes.
pub(crate) fn only_if(test: bool, rest: Rest) -> Option<Rest>
    ensures { result ≡ only_if test rest }
{
    if test { Some(rest) } else { None }
}
