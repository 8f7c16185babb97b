//! Small domains and problems.

use exact_lin::{Fraction, NoMemory, Scalar};
use pddl_terms::{
    ActionBody, ActionDef, Atom, Call, ChangeKind, ConForm, CondTree, CostCurve, Declared, Domain,
    DurTree, EffTree, ExprTree, FactForm, GoalTree, Group, InitEntry, Name, PieceDef, Problem,
    RateTree, TimeCost, TimedEff, TimedLiteral, Trend, TypeName,
};
use sqlite_items::Items;
use std::alloc::Global;

fn name(alloc: Global, at: u32, word: &[u8]) -> Result<Name, NoMemory> {
    Ok(Name {
        at,
        bytes: Items::from_slice(alloc, word)?,
    })
}

fn atom(alloc: Global, word: &[u8]) -> Result<Atom, NoMemory> {
    Ok(Atom {
        at: 0,
        name: name(alloc, 0, word)?,
        terms: Items::new(alloc),
    })
}

fn declared(alloc: Global, word: &[u8]) -> Result<Declared, NoMemory> {
    Ok(Declared::Named(0, name(alloc, 0, word)?, Items::new(alloc)))
}

/// `(increase (f) 1)`.
fn increase(alloc: Global) -> Result<EffTree, NoMemory> {
    Ok(EffTree::Change(
        0,
        ChangeKind::Increase,
        Call::Named(atom(alloc, b"f")?),
        ExprTree::Number(0, Fraction::of_int(1)),
    ))
}

fn action(alloc: Global, condition: CondTree) -> Result<ActionDef, NoMemory> {
    let effect = increase(alloc)?;
    Ok(ActionDef {
        at: 0,
        name: name(alloc, 0, b"go")?,
        parameters: Items::new(alloc),
        body: ActionBody::Instant(Some(condition), Some(effect)),
    })
}

fn empty_domain(alloc: Global) -> Result<Domain, NoMemory> {
    Ok(Domain {
        name: name(alloc, 0, b"d")?,
        requirements: Items::new(alloc),
        types: Items::new(alloc),
        constants: Items::new(alloc),
        predicates: Items::new(alloc),
        functions: Items::new(alloc),
        constraints: None,
        actions: Items::new(alloc),
        left_out: Items::new(alloc),
    })
}

fn functions(alloc: Global) -> Result<Items<Declared>, NoMemory> {
    let mut all = Items::new(alloc);
    all.push(declared(alloc, b"f")?)?;
    all.push(declared(alloc, b"g")?)?;
    Ok(all)
}

fn actions(alloc: Global, condition: CondTree) -> Result<Items<ActionDef>, NoMemory> {
    let mut all = Items::new(alloc);
    all.push(action(alloc, condition)?)?;
    Ok(all)
}

/// A domain with a function `f` that an action changes, a function `g` that nothing changes, and this condition.
pub(super) fn domain_with_condition(
    alloc: Global,
    condition: CondTree,
) -> Result<Domain, NoMemory> {
    let mut domain = empty_domain(alloc)?;
    domain.functions = functions(alloc)?;
    domain.actions = actions(alloc, condition)?;
    Ok(domain)
}

/// A domain with a function `f`, and a requirement at byte 7.
pub(super) fn domain_with_requirement(alloc: Global, flag: &[u8]) -> Result<Domain, NoMemory> {
    let mut domain = empty_domain(alloc)?;
    domain.functions = functions(alloc)?;
    domain.requirements.push(name(alloc, 7, flag)?)?;
    Ok(domain)
}

fn empty_problem(alloc: Global) -> Result<Problem, NoMemory> {
    let domain = name(alloc, 0, b"d")?;
    Ok(Problem {
        name: name(alloc, 0, b"p")?,
        domain,
        requirements: Items::new(alloc),
        objects: Items::new(alloc),
        init: Items::new(alloc),
        goal: GoalTree::And(0, Items::new(alloc)),
        constraints: None,
        time_costs: Items::new(alloc),
        metric: None,
        left_out: Items::new(alloc),
    })
}

pub(super) fn constrained_problem(alloc: Global, constraint: ConForm) -> Result<Problem, NoMemory> {
    let mut problem = empty_problem(alloc)?;
    problem.constraints = Some(constraint);
    Ok(problem)
}

/// `f` rises at the rate of this function.
fn rising(alloc: Global, function: &[u8]) -> Result<TimedEff, NoMemory> {
    let speed = ExprTree::Fluent(atom(alloc, function)?);
    let fluent = Call::Named(atom(alloc, b"f")?);
    Ok(TimedEff::Rate(0, Trend::Rises, fluent, RateTree::Times(9, speed)))
}

fn durative(alloc: Global, function: &[u8]) -> Result<ActionDef, NoMemory> {
    let effect = rising(alloc, function)?;
    Ok(ActionDef {
        at: 0,
        name: name(alloc, 0, b"fill")?,
        parameters: Items::new(alloc),
        body: ActionBody::Durative(DurTree::And(0, Items::new(alloc)), None, Some(effect)),
    })
}

/// A domain in which `f` rises at the rate of this function, where the list of the rate is at byte 9.
pub(super) fn domain_with_rate(alloc: Global, function: &[u8]) -> Result<Domain, NoMemory> {
    let mut domain = empty_domain(alloc)?;
    domain.functions = functions(alloc)?;
    domain.actions.push(durative(alloc, function)?)?;
    Ok(domain)
}

fn literal(
    alloc: Global,
    at: u32,
    moment_at: u32,
    told: (i32, bool),
) -> Result<InitEntry, NoMemory> {
    Ok(InitEntry::Timed(TimedLiteral {
        at,
        moment_at,
        moment: Fraction::of_int(told.0),
        holds: told.1,
        atom: Call::Named(atom(alloc, b"p")?),
    }))
}

/// Two timed literals of one fact at bytes 10 and 20, whose moments stand at bytes 14 and 24.
pub(super) fn problem_with_literals(
    alloc: Global,
    first: (i32, bool),
    second: (i32, bool),
) -> Result<Problem, NoMemory> {
    let mut problem = empty_problem(alloc)?;
    problem.init.push(literal(alloc, 10, 14, first)?)?;
    problem.init.push(literal(alloc, 20, 24, second)?)?;
    Ok(problem)
}

fn costly_problem(alloc: Global, curve: CostCurve) -> Result<Problem, NoMemory> {
    let cost = TimeCost::Named(30, name(alloc, 0, b"late")?, FactForm::Empty(0), curve);
    let mut problem = empty_problem(alloc)?;
    problem.time_costs.push(cost)?;
    Ok(problem)
}

/// A time cost in three numbers, at byte 30.
pub(super) fn problem_with_cost(
    alloc: Global,
    soft: i32,
    hard: i32,
    top: i32,
) -> Result<Problem, NoMemory> {
    let curve = CostCurve::Three {
        soft: Fraction::of_int(soft),
        hard: Fraction::of_int(hard),
        top: Fraction::of_int(top),
    };
    costly_problem(alloc, curve)
}

fn piece(at: u32, numbers: (i32, i32, i32)) -> PieceDef {
    PieceDef::Piece {
        at,
        until: Fraction::of_int(numbers.0),
        from: Fraction::of_int(numbers.1),
        to: Fraction::of_int(numbers.2),
    }
}

/// A time cost in two pieces, at bytes 40 and 50.
pub(super) fn problem_with_pieces(
    alloc: Global,
    first: (i32, i32, i32),
    second: (i32, i32, i32),
) -> Result<Problem, NoMemory> {
    let mut pieces = Items::new(alloc);
    pieces.push(piece(40, first))?;
    pieces.push(piece(50, second))?;
    costly_problem(alloc, CostCurve::Pieces(pieces))
}

/// A typed list of so many names, each at the byte of its number.
fn many(alloc: Global, count: u32) -> Result<Items<Group>, NoMemory> {
    let mut names = Items::new(alloc);
    for at in 0..count {
        names.push(name(alloc, at, b"x")?)?;
    }
    let mut groups = Items::new(alloc);
    groups.push(Group {
        names,
        of: TypeName::Object,
    })?;
    Ok(groups)
}

fn predicate(alloc: Global, parameters: u32) -> Result<Declared, NoMemory> {
    let parameters = many(alloc, parameters)?;
    Ok(Declared::Named(0, name(alloc, 0, b"p")?, parameters))
}

fn wide_action(alloc: Global, parameters: u32) -> Result<ActionDef, NoMemory> {
    let parameters = many(alloc, parameters)?;
    Ok(ActionDef {
        at: 0,
        name: name(alloc, 0, b"go")?,
        parameters,
        body: ActionBody::Instant(None, None),
    })
}

/// A domain with so many constants, and a predicate and an action with so many parameters.
pub(super) fn large_domain(
    alloc: Global,
    constants: u32,
    parameters: u32,
    action: u32,
) -> Result<Domain, NoMemory> {
    let mut domain = empty_domain(alloc)?;
    domain.constants = many(alloc, constants)?;
    domain.predicates.push(predicate(alloc, parameters)?)?;
    domain.actions.push(wide_action(alloc, action)?)?;
    Ok(domain)
}

/// A problem with so many objects, and a time cost in so many pieces, each at the byte of its number.
pub(super) fn large_problem(alloc: Global, objects: u32, count: u32) -> Result<Problem, NoMemory> {
    let mut pieces = Items::new(alloc);
    for at in 0..count {
        pieces.push(piece(at, (1, 0, 0)))?;
    }
    let mut problem = costly_problem(alloc, CostCurve::Pieces(pieces))?;
    problem.objects = many(alloc, objects)?;
    Ok(problem)
}
