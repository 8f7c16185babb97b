//! Plans of a small task, each with the verdict that was worked out by hand: every reason once, and a valid plan.

ghost use Rattle.std.specs.Prelude.{◌≡◌, ◌+◌, ◌<◌, ◌∷◌, [], length, IfOk, OnOk};
ghost use Rattle.task_types.specs.Examples.{always_true as always, nothing as no_effect, fact_holds, makes, ends_fact, schema as schema_of, instant as instant_of, unset as unset_of, at_start as starts, at_once as once, at_moment as moment};
ghost use Rattle.timed_meaning.specs.TimedPlans.{line_limit, IsBuiltFor};
ghost use Rattle.plan_validator.specs.ExampleTask.{by_time, gate, soon, stop};

use crate::{Verdict, validate};
use exact_lin::{ActionId, FactId, Form, Fraction, Id, NoMemory, Scalar, SnapId};
use sqlite_items::Items;
use std::alloc::Global;
use std::cmp::Ordering;
use task_types::{
    Action, Condition, Effect, Fact, FactTree, Literal, Metric, Reason, Rules, Schema, Snap,
    SnapKind, Task, TaskParts, Trail, TrailKind,
};
use timed_meaning::{MeaningFault, TimedPlan};

fn one<T: Drop>(alloc: Global, item: T) -> Result<Items<T>, NoMemory>
    ensures { IfOk result (λ items. items ≡ item ∷ []) }
{
    let mut items = Items::new(alloc);
    items.push(item)?;
    Ok(items)
}

// ---- conditions and effects

fn always_true(alloc: Global) -> Condition
    ensures { result ≡ always }
{
    Condition {
        literals: Items::new(alloc),
        comparisons: Items::new(alloc),
    }
}

fn is_open(alloc: Global) -> Result<Condition, NoMemory>
    ensures { IfOk result (λ c. c ≡ fact_holds 0) }
{
    let literal = Literal {
        fact: FactId::of(0),
        holds: true,
    };
    Ok(Condition {
        literals: one(alloc, literal)?,
        comparisons: Items::new(alloc),
    })
}

fn is_done(alloc: Global) -> Result<Condition, NoMemory>
    ensures { IfOk result (λ c. c ≡ fact_holds 1) }
{
    let literal = Literal {
        fact: FactId::of(1),
        holds: true,
    };
    Ok(Condition {
        literals: one(alloc, literal)?,
        comparisons: Items::new(alloc),
    })
}

fn changes(alloc: Global, adds: Items<FactId>, deletes: Items<FactId>) -> Effect
    ensures { result ≡ record { adds = adds; deletes = deletes; assigns = []; increases = [] } }
{
    Effect {
        adds,
        deletes,
        assigns: Items::new(alloc),
        increases: Items::new(alloc),
    }
}

// ---- actions

fn snap(
    alloc: Global,
    kind: SnapKind,
    action: Option<ActionId>,
    condition: Condition,
    effect: Effect,
) -> Snap
    ensures { result ≡ record {
      kind = kind;
      action = action;
      condition = condition;
      effect = effect;
      rates = [];
    } }
{
    Snap {
        kind,
        action,
        condition,
        effect,
        rates: Items::new(alloc),
    }
}

fn snaps(alloc: Global) -> Result<Items<Snap>, NoMemory>
    ensures { IfOk result (λ snaps. snaps ≡ gate.snaps) }
{
    let nothing = changes(alloc, Items::new(alloc), Items::new(alloc));
    let go = Some(ActionId::of(0));
    let mut snaps = one(
        alloc,
        snap(alloc, SnapKind::Start, go, always_true(alloc), nothing),
    )?;
    let nothing = changes(alloc, Items::new(alloc), Items::new(alloc));
    snaps.push(snap(alloc, SnapKind::End, go, is_open(alloc)?, nothing))?;
    let done = changes(alloc, one(alloc, FactId::of(1))?, Items::new(alloc));
    let finish = Some(ActionId::of(1));
    snaps.push(snap(alloc, SnapKind::Instant, finish, is_open(alloc)?, done))?;
    let closed = changes(alloc, Items::new(alloc), one(alloc, FactId::of(0))?);
    let close = Some(ActionId::of(2));
    snaps.push(snap(alloc, SnapKind::Instant, close, always_true(alloc), closed))?;
    let opened = changes(alloc, one(alloc, FactId::of(0))?, Items::new(alloc));
    snaps.push(snap(alloc, SnapKind::Timed, None, always_true(alloc), opened))?;
    Ok(snaps)
}

fn action(
    alloc: Global,
    name: &[u8],
    start: SnapId,
    end: Option<SnapId>,
    over_all: Condition,
) -> Result<Action, NoMemory>
    ensures { IfOk result (λ a. a ≡ record {
      name = name.now;
      args = [];
      start = start;
      end = end;
      bounds = [];
      over_all = over_all;
    }) }
{
    Ok(Action {
        name: Items::from_slice(alloc, name)?,
        args: Items::new(alloc),
        start,
        end,
        bounds: Items::new(alloc),
        over_all,
    })
}

fn actions(alloc: Global) -> Result<Items<Action>, NoMemory>
    ensures { IfOk result (λ actions. actions ≡ gate.actions) }
{
    let end = Some(SnapId::of(1));
    let go = action(alloc, b"go", SnapId::of(0), end, is_open(alloc)?)?;
    let mut actions = one(alloc, go)?;
    actions.push(action(alloc, b"finish", SnapId::of(2), None, always_true(alloc))?)?;
    actions.push(action(alloc, b"close", SnapId::of(3), None, always_true(alloc))?)?;
    Ok(actions)
}

fn schema(alloc: Global, name: &[u8], durative: bool) -> Result<Schema, NoMemory>
    ensures { IfOk result (λ s. s ≡ schema_of name.now durative) }
{
    Ok(Schema {
        name: Items::from_slice(alloc, name)?,
        durative,
        params: Items::new(alloc),
    })
}

fn schemas(alloc: Global) -> Result<Items<Schema>, NoMemory>
    ensures { IfOk result (λ schemas. schemas ≡ gate.schemas) }
{
    let mut schemas = one(alloc, schema(alloc, b"go", true)?)?;
    schemas.push(schema(alloc, b"finish", false)?)?;
    schemas.push(schema(alloc, b"close", false)?)?;
    Ok(schemas)
}

// ---- the task

fn unset(alloc: Global, name: &[u8]) -> Result<Fact, NoMemory>
    ensures { IfOk result (λ f. f ≡ unset_of name.now) }
{
    Ok(Fact {
        name: Items::from_slice(alloc, name)?,
        args: Items::new(alloc),
        holds: false,
    })
}

fn facts(alloc: Global) -> Result<Items<Fact>, NoMemory>
    ensures { IfOk result (λ facts. facts ≡ gate.facts) }
{
    let mut facts = one(alloc, unset(alloc, b"open")?)?;
    facts.push(unset(alloc, b"done")?)?;
    Ok(facts)
}

fn done_soon() -> Trail
    ensures { result ≡ soon }
{
    let literal = Literal {
        fact: FactId::of(1),
        holds: true,
    };
    Trail {
        kind: TrailKind::Within,
        first: FactTree::Is(literal),
        second: FactTree::True,
        moment: Fraction::of_int(8),
    }
}

fn metric(alloc: Global) -> Metric
    ensures { result ≡ by_time }
{
    Metric {
        constant: Fraction::of_int(0),
        last: Fraction::of_int(1),
        fluents: Form::zero(alloc),
    }
}

fn parts(alloc: Global) -> Result<TaskParts, NoMemory>
    ensures { IfOk result (λ parts. parts ≡ gate) }
{
    Ok(TaskParts {
        objects: Items::new(alloc),
        schemas: schemas(alloc)?,
        facts: facts(alloc)?,
        fluents: Items::new(alloc),
        actions: actions(alloc)?,
        snaps: snaps(alloc)?,
        timed: one(alloc, (Fraction::of_int(5), SnapId::of(4)))?,
        goal: is_done(alloc)?,
        hard: one(alloc, done_soon())?,
        soft: Items::new(alloc),
        metric: metric(alloc),
    })
}

fn task(alloc: Global) -> Result<Task, NoMemory>
    ensures { IfOk result (λ task. task.parts ≡ gate) }
{
    let parts = parts(alloc)?;
    Task::of_parts(alloc, parts)
}

// ---- plans

#[derive(Clone, Copy, Drop)]
enum Doing {
    Go(i32, i32),
    Finish(i32),
    Close(i32),
}

fn push(plan: &mut TimedPlan, task: &Task, doing: Doing, line: u32) -> Result<(), MeaningFault>
    requires few { length plan.old < line_limit }
    requires task { task.now.parts ≡ gate }
    ensures built { IsBuiltFor task.now.parts plan.old → IsBuiltFor task.now.parts plan.new }
    ensures more { OnOk result (length plan.new ≡ length plan.old + 1) }
{
    match doing {
        Doing::Go(at, duration) => {
            let duration = Some(Fraction::of_int(duration));
            plan.push_line(task, ActionId::of(0), Fraction::of_int(at), duration, line)
        }
        Doing::Finish(at) => {
            plan.push_line(task, ActionId::of(1), Fraction::of_int(at), None, line)
        }
        Doing::Close(at) => {
            plan.push_line(task, ActionId::of(2), Fraction::of_int(at), None, line)
        }
    }
}

fn plan_of(
    alloc: Global,
    task: &Task,
    first: Doing,
    second: Option<Doing>,
) -> Result<TimedPlan, MeaningFault>
    requires { task.now.parts ≡ gate }
    ensures { IfOk result (IsBuiltFor task.now.parts) }
{
    let mut plan = TimedPlan::new(alloc);
    push(&mut plan, task, first, 1)?;
    if let Some(second) = second {
        push(&mut plan, task, second, 2)?;
    }
    Ok(plan)
}

fn rules() -> Rules {
    Rules {
        epsilon: Fraction::of_int(1),
        horizon: Fraction::of_int(1000),
    }
}

fn is_equal(one: &Fraction, other: &Fraction) -> bool {
    match Scalar::cmp(*one, *other) {
        Ordering::Less => false,
        Ordering::Equal => true,
        Ordering::Greater => false,
    }
}

fn is_same(one: &Reason, other: &Reason) -> bool {
    match (one, other) {
        (Reason::Time(k), Reason::Time(l)) => *k == *l,
        (Reason::Duration(k), Reason::Duration(l)) => *k == *l,
        (Reason::Clash(k, m), Reason::Clash(l, n)) => *k == *l && *m == *n,
        (Reason::ClashTimed(k, t), Reason::ClashTimed(l, u)) => *k == *l && is_equal(t, u),
        (Reason::Start(k), Reason::Start(l)) => *k == *l,
        (Reason::End(k), Reason::End(l)) => *k == *l,
        (Reason::OverAll(k, t, u), Reason::OverAll(l, v, w)) => {
            *k == *l && is_equal(t, v) && is_equal(u, w)
        }
        (Reason::Goal, Reason::Goal) => true,
        (Reason::Constraint(k), Reason::Constraint(l)) => *k == *l,
        _ => false,
    }
}

// Whether a verdict is this reason.
fn is_reason(verdict: &Verdict, expected: &Reason) -> bool {
    match verdict {
        Verdict::Valid(_) => false,
        Verdict::Invalid(reason) => is_same(reason, expected),
    }
}

// Whether a verdict is this cost.
fn is_cost(verdict: &Verdict, expected: i32) -> bool {
    match verdict {
        Verdict::Valid(cost) => is_equal(cost, &Fraction::of_int(expected)),
        Verdict::Invalid(_) => false,
    }
}

// Whether a plan of one or two lines has a verdict.
fn has_reason(
    alloc: Global,
    task: &Task,
    first: Doing,
    second: Option<Doing>,
    expected: Reason,
) -> bool
    requires { task.now.parts ≡ gate }
{
    match plan_of(alloc, task, first, second) {
        Ok(plan) => match validate(alloc, task, &rules(), &plan) {
            Ok(verdict) => is_reason(&verdict, &expected),
            Err(_) => false,
        },
        Err(_) => false,
    }
}

fn has_cost(alloc: Global, task: &Task, doing: Doing, expected: i32) -> bool
    requires { task.now.parts ≡ gate }
{
    match plan_of(alloc, task, doing, None) {
        Ok(plan) => match validate(alloc, task, &rules(), &plan) {
            Ok(verdict) => is_cost(&verdict, expected),
            Err(_) => false,
        },
        Err(_) => false,
    }
}

fn has_early_reasons(alloc: Global, task: &Task) -> bool
    requires { task.now.parts ≡ gate }
{
    let five = Fraction::of_int(5);
    has_reason(alloc, task, Doing::Finish(-1), None, Reason::Time(1))
        && has_reason(
            alloc,
            task,
            Doing::Finish(6),
            Some(Doing::Go(6, 0)),
            Reason::Duration(2),
        )
        && has_reason(
            alloc,
            task,
            Doing::Finish(7),
            Some(Doing::Close(7)),
            Reason::Clash(1, 2),
        )
        && has_reason(
            alloc,
            task,
            Doing::Finish(5),
            None,
            Reason::ClashTimed(1, five),
        )
        && has_reason(alloc, task, Doing::Finish(4), None, Reason::Start(1))
}

fn has_late_reasons(alloc: Global, task: &Task) -> bool
    requires { task.now.parts ≡ gate }
{
    let shut = Reason::OverAll(1, Fraction::of_int(3), Fraction::of_int(5));
    has_reason(alloc, task, Doing::Go(1, 2), None, Reason::End(1))
        && has_reason(alloc, task, Doing::Go(3, 4), None, shut)
        && has_reason(alloc, task, Doing::Go(6, 2), None, Reason::Goal)
        && has_reason(alloc, task, Doing::Finish(9), None, Reason::Constraint(1))
        && has_cost(alloc, task, Doing::Finish(6), 6)
}

fn judged_as_worked(alloc: Global) -> bool {
    match task(alloc) {
        Ok(task) => has_early_reasons(alloc, &task) && has_late_reasons(alloc, &task),
        Err(_) => false,
    }
}

#[test]
fn plans_have_the_verdicts_that_were_worked_out(rt: HostRuntime) {
    assert!(&rt; judged_as_worked(rt.alloc()));
}
