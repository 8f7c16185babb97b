//! Small tasks built by hand, and their touches beside tables that were written from the rules.

ghost use Rattle.std.specs.Prelude.{◌≡◌, ◌+◌, ◌<◌, ◌∷◌, [], IfOk, true, false, codes};
ghost use Rattle.rational.specs.Rational.{whole};
ghost use Rattle.exact_lin.specs.Forms.{plus_term};
ghost use Rattle.task_types.specs.Examples.{n, flags, gate, tank, linear, schema as schema_of, instant as instant_of, durative as durative_of, exactly as exactly_of, unset as unset_of, at_once as at_once_of, at_start as at_start_of, at_end as at_end_of, at_moment as at_moment_of, always_true as always, asks as asks_of, fluent as fluent_of, nothing as no_effect, makes as makes_of, ends_fact as ends_of, fact_holds, by_time as by_last_time};

use crate::{
    Action, Bound, Condition, Effect, Fact, Fluent, Literal, Metric, Schema, Snap, SnapKind, Task,
    TaskParts, Touch,
};
use exact_lin::{
    ActionId, FactId, FluentId, Form, FormFault, Fraction, Id, NoMemory, Scalar, SnapId, TokenId,
    Wide,
};
use sqlite_items::Items;
use std::alloc::Global;

// ---- lists

fn one<T: Drop>(alloc: Global, item: T) -> Result<Items<T>, NoMemory>
    ensures { IfOk result (λ items. items ≡ item ∷ []) }
{
    let mut items = Items::new(alloc);
    items.push(item)?;
    Ok(items)
}

fn both<T: Drop>(alloc: Global, item: T, other: T) -> Result<Items<T>, NoMemory>
    ensures { IfOk result (λ items. items ≡ item ∷ other ∷ []) }
{
    let mut items = Items::new(alloc);
    items.push(item)?;
    items.push(other)?;
    Ok(items)
}

fn text(alloc: Global, bytes: &[u8]) -> Result<Items<u8>, NoMemory>
    ensures { IfOk result (λ items. items ≡ bytes.now) }
{
    Ok(Items::from_slice(alloc, bytes)?)
}

// ---- parts of tasks

fn schema(alloc: Global, name: &[u8], durative: bool) -> Result<Schema, NoMemory>
    ensures { IfOk result (λ schema. schema ≡ schema_of name.now durative) }
{
    Ok(Schema {
        name: Items::from_slice(alloc, name)?,
        durative,
        params: Items::new(alloc),
    })
}

fn unset(alloc: Global, name: &[u8]) -> Result<Fact, NoMemory>
    ensures { IfOk result (λ fact. fact ≡ unset_of name.now) }
{
    Ok(Fact {
        name: Items::from_slice(alloc, name)?,
        args: Items::new(alloc),
        holds: false,
    })
}

fn always_true(alloc: Global) -> Condition
    ensures { result ≡ always }
{
    Condition {
        literals: Items::new(alloc),
        comparisons: Items::new(alloc),
    }
}

fn asks(alloc: Global, fact: FactId) -> Result<Condition, NoMemory>
    ensures { IfOk result (λ condition. condition ≡ fact_holds fact) }
{
    Ok(Condition {
        literals: one(alloc, Literal { fact, holds: true })?,
        comparisons: Items::new(alloc),
    })
}

fn instant(alloc: Global, name: &[u8], start: SnapId) -> Result<Action, NoMemory>
    ensures { IfOk result (λ action. action ≡ instant_of name.now start) }
{
    Ok(Action {
        name: Items::from_slice(alloc, name)?,
        args: Items::new(alloc),
        start,
        end: None,
        bounds: Items::new(alloc),
        over_all: always_true(alloc),
    })
}

fn durative(
    alloc: Global,
    name: Items<u8>,
    start: SnapId,
    end: SnapId,
    bounds: Items<Bound>,
    over_all: Condition,
) -> Action
    ensures { result ≡ durative_of name start end bounds over_all }
{
    Action {
        name,
        args: Items::new(alloc),
        start,
        end: Some(end),
        bounds,
        over_all,
    }
}

fn nothing(alloc: Global) -> Effect
    ensures { result ≡ no_effect }
{
    Effect {
        adds: Items::new(alloc),
        deletes: Items::new(alloc),
        assigns: Items::new(alloc),
        increases: Items::new(alloc),
    }
}

fn makes(alloc: Global, fact: FactId) -> Result<Effect, NoMemory>
    ensures { IfOk result (λ effect. effect ≡ makes_of fact) }
{
    Ok(Effect {
        adds: one(alloc, fact)?,
        deletes: Items::new(alloc),
        assigns: Items::new(alloc),
        increases: Items::new(alloc),
    })
}

fn ends_fact(alloc: Global, fact: FactId) -> Result<Effect, NoMemory>
    ensures { IfOk result (λ effect. effect ≡ ends_of fact) }
{
    Ok(Effect {
        adds: Items::new(alloc),
        deletes: one(alloc, fact)?,
        assigns: Items::new(alloc),
        increases: Items::new(alloc),
    })
}

fn at_once(alloc: Global, action: ActionId, condition: Condition, effect: Effect) -> Snap
    ensures { result ≡ at_once_of action condition effect }
{
    Snap {
        kind: SnapKind::Instant,
        action: Some(action),
        condition,
        effect,
        rates: Items::new(alloc),
    }
}

fn at_start(alloc: Global, action: ActionId, rates: Items<(FluentId, Fraction)>) -> Snap
    ensures { result ≡ at_start_of action rates }
{
    Snap {
        kind: SnapKind::Start,
        action: Some(action),
        condition: always_true(alloc),
        effect: nothing(alloc),
        rates,
    }
}

fn at_end(alloc: Global, action: ActionId, effect: Effect) -> Snap
    ensures { result ≡ at_end_of action effect }
{
    Snap {
        kind: SnapKind::End,
        action: Some(action),
        condition: always_true(alloc),
        effect,
        rates: Items::new(alloc),
    }
}

fn at_moment(alloc: Global, effect: Effect) -> Snap
    ensures { result ≡ at_moment_of effect }
{
    Snap {
        kind: SnapKind::Timed,
        action: None,
        condition: always_true(alloc),
        effect,
        rates: Items::new(alloc),
    }
}

fn by_time(alloc: Global) -> Metric
    ensures { result ≡ by_last_time }
{
    Metric {
        constant: Fraction::of_int(0),
        last: Fraction::of_int(1),
        fluents: Form::zero(alloc),
    }
}

fn constant(alloc: Global, number: i32) -> Result<Form<FluentId, Fraction>, Wide>
    ensures { IfOk result (λ form. form ≡ linear (whole number) []) }
{
    let mut form = Form::zero(alloc);
    form.add_constant(Fraction::of_int(number))?;
    Ok(form)
}

fn exactly(alloc: Global, number: i32) -> Result<Items<Bound>, FormFault>
    ensures { IfOk result (λ bounds. bounds ≡ exactly_of (whole number)) }
{
    let least = Bound {
        at_least: true,
        at_end: false,
        form: constant(alloc, number)?,
    };
    let most = Bound {
        at_least: false,
        at_end: false,
        form: constant(alloc, number)?,
    };
    Ok(both(alloc, least, most)?)
}

// ---- a fact that one action sets and another uses

fn flags_schemas(alloc: Global) -> Result<Items<Schema>, NoMemory>
    ensures { IfOk result (λ schemas. schemas ≡ flags.schemas) }
{
    both(
        alloc,
        schema(alloc, b"set", false)?,
        schema(alloc, b"use", false)?,
    )
}

fn flags_facts(alloc: Global) -> Result<Items<Fact>, NoMemory>
    ensures { IfOk result (λ facts. facts ≡ flags.facts) }
{
    both(alloc, unset(alloc, b"p")?, unset(alloc, b"q")?)
}

fn flags_actions(alloc: Global) -> Result<Items<Action>, NoMemory>
    ensures { IfOk result (λ actions. actions ≡ flags.actions) }
{
    let set = instant(alloc, b"set", SnapId::of(0))?;
    both(alloc, set, instant(alloc, b"use", SnapId::of(1))?)
}

fn flags_snaps(alloc: Global) -> Result<Items<Snap>, NoMemory>
    ensures { IfOk result (λ snaps. snaps ≡ flags.snaps) }
{
    let set = at_once(
        alloc,
        ActionId::of(0),
        always_true(alloc),
        makes(alloc, FactId::of(0))?,
    );
    let asked = asks(alloc, FactId::of(0))?;
    let used = at_once(alloc, ActionId::of(1), asked, makes(alloc, FactId::of(1))?);
    both(alloc, set, used)
}

fn flags_parts(alloc: Global) -> Result<TaskParts, NoMemory>
    ensures { IfOk result (λ parts. parts ≡ flags) }
{
    Ok(TaskParts {
        objects: Items::new(alloc),
        schemas: flags_schemas(alloc)?,
        facts: flags_facts(alloc)?,
        fluents: Items::new(alloc),
        actions: flags_actions(alloc)?,
        snaps: flags_snaps(alloc)?,
        timed: Items::new(alloc),
        goal: asks(alloc, FactId::of(1))?,
        hard: Items::new(alloc),
        soft: Items::new(alloc),
        metric: by_time(alloc),
    })
}

// ---- a gate that is open from 5 to 10, and a pass that needs it open

fn gate_facts(alloc: Global) -> Result<Items<Fact>, NoMemory>
    ensures { IfOk result (λ facts. facts ≡ gate.facts) }
{
    both(alloc, unset(alloc, b"open")?, unset(alloc, b"through")?)
}

fn gate_actions(alloc: Global) -> Result<Items<Action>, FormFault>
    ensures { IfOk result (λ actions. actions ≡ gate.actions) }
{
    let name = text(alloc, b"pass")?;
    let bounds = exactly(alloc, 4)?;
    let open = asks(alloc, FactId::of(0))?;
    let pass = durative(alloc, name, SnapId::of(0), SnapId::of(1), bounds, open);
    Ok(one(alloc, pass)?)
}

fn gate_passes(alloc: Global) -> Result<Items<Snap>, NoMemory>
    ensures { IfOk result (λ snaps. snaps ≡ at_start_of 0 [] ∷ at_end_of 0 (makes_of 1) ∷ []) }
{
    let through = makes(alloc, FactId::of(1))?;
    let start = at_start(alloc, ActionId::of(0), Items::new(alloc));
    both(alloc, start, at_end(alloc, ActionId::of(0), through))
}

fn gate_moments(alloc: Global) -> Result<Items<Snap>, NoMemory>
    ensures { IfOk result
        (λ snaps. snaps ≡ at_moment_of (makes_of 0) ∷ at_moment_of (ends_of 0) ∷ []) }
{
    let opens = at_moment(alloc, makes(alloc, FactId::of(0))?);
    both(
        alloc,
        opens,
        at_moment(alloc, ends_fact(alloc, FactId::of(0))?),
    )
}

fn gate_snaps(alloc: Global) -> Result<Items<Snap>, NoMemory>
    ensures { IfOk result (λ snaps. snaps ≡ gate.snaps) }
{
    let mut snaps = gate_passes(alloc)?;
    snaps.append(gate_moments(alloc)?)?;
    Ok(snaps)
}

fn gate_times(alloc: Global) -> Result<Items<(Fraction, SnapId)>, NoMemory>
    ensures { IfOk result (λ timed. timed ≡ gate.timed) }
{
    both(
        alloc,
        (Fraction::of_int(5), SnapId::of(2)),
        (Fraction::of_int(10), SnapId::of(3)),
    )
}

fn gate_parts(alloc: Global) -> Result<TaskParts, FormFault>
    ensures { IfOk result (λ parts. parts ≡ gate) }
{
    Ok(TaskParts {
        objects: Items::new(alloc),
        schemas: one(alloc, schema(alloc, b"pass", true)?)?,
        facts: gate_facts(alloc)?,
        fluents: Items::new(alloc),
        actions: gate_actions(alloc)?,
        snaps: gate_snaps(alloc)?,
        timed: gate_times(alloc)?,
        goal: asks(alloc, FactId::of(1))?,
        hard: Items::new(alloc),
        soft: Items::new(alloc),
        metric: by_time(alloc),
    })
}

// ---- a tank that fills and leaks

fn level(alloc: Global) -> Result<Fluent, NoMemory>
    ensures { IfOk result (λ fluent. fluent ≡ fluent_of (codes "level") (n 0)) }
{
    Ok(Fluent {
        name: Items::from_slice(alloc, b"level")?,
        args: Items::new(alloc),
        value: Fraction::of_int(0),
    })
}

fn with_level(
    alloc: Global,
    number: i32,
    coefficient: i32,
) -> Result<Form<FluentId, Fraction>, FormFault>
    ensures { IfOk result
        (λ form. form ≡ plus_term (linear (whole number) []) 0 (whole coefficient)) }
{
    let mut form = constant(alloc, number)?;
    form.add_term(FluentId::of(0), Fraction::of_int(coefficient))?;
    Ok(form)
}

fn asks_level(alloc: Global, number: i32, coefficient: i32) -> Result<Condition, FormFault>
    ensures { IfOk result
        (λ condition. condition ≡ asks_of (plus_term (linear (whole number) []) 0 (whole
        coefficient) ∷ [])) }
{
    Ok(Condition {
        literals: Items::new(alloc),
        comparisons: one(alloc, with_level(alloc, number, coefficient)?)?,
    })
}

fn tank_action(
    alloc: Global,
    name: Items<u8>,
    start: u32,
    over_all: Condition,
) -> Result<Action, FormFault>
    requires { start < 3 }
    ensures { IfOk result
        (λ action. action ≡ durative_of name start (start + 1) (exactly_of (n 5)) over_all) }
{
    let bounds = exactly(alloc, 5)?;
    Ok(durative(
        alloc,
        name,
        SnapId::of(start),
        SnapId::of(start + 1),
        bounds,
        over_all,
    ))
}

fn tank_actions(alloc: Global) -> Result<Items<Action>, FormFault>
    ensures { IfOk result (λ actions. actions ≡ (tank (n 0)).actions) }
{
    let level_fits = asks_level(alloc, 10, -1)?;
    let fill = tank_action(alloc, text(alloc, b"fill")?, 0, level_fits)?;
    let leak = tank_action(alloc, text(alloc, b"leak")?, 2, always_true(alloc))?;
    Ok(both(alloc, fill, leak)?)
}

fn tank_pair(alloc: Global, action: u32, rate: i32) -> Result<Items<Snap>, NoMemory>
    ensures { IfOk result
        (λ snaps. snaps ≡ at_start_of action ((0, whole rate) ∷ []) ∷ at_end_of action
        no_effect ∷ []) }
{
    let rates = one(alloc, (FluentId::of(0), Fraction::of_int(rate)))?;
    let start = at_start(alloc, ActionId::of(action), rates);
    both(
        alloc,
        start,
        at_end(alloc, ActionId::of(action), nothing(alloc)),
    )
}

fn tank_snaps(alloc: Global) -> Result<Items<Snap>, NoMemory>
    ensures { IfOk result (λ snaps. snaps ≡ (tank (n 0)).snaps) }
{
    let mut snaps = tank_pair(alloc, 0, 2)?;
    snaps.append(tank_pair(alloc, 1, -1)?)?;
    Ok(snaps)
}

fn tank_schemas(alloc: Global) -> Result<Items<Schema>, NoMemory>
    ensures { IfOk result (λ schemas. schemas ≡ (tank (n 0)).schemas) }
{
    both(
        alloc,
        schema(alloc, b"fill", true)?,
        schema(alloc, b"leak", true)?,
    )
}

fn tank_parts(alloc: Global) -> Result<TaskParts, FormFault>
    ensures { IfOk result (λ parts. parts ≡ tank (n 0)) }
{
    Ok(TaskParts {
        objects: Items::new(alloc),
        schemas: tank_schemas(alloc)?,
        facts: Items::new(alloc),
        fluents: one(alloc, level(alloc)?)?,
        actions: tank_actions(alloc)?,
        snaps: tank_snaps(alloc)?,
        timed: Items::new(alloc),
        goal: asks_level(alloc, -10, 1)?,
        hard: Items::new(alloc),
        soft: Items::new(alloc),
        metric: by_time(alloc),
    })
}

// ---- what a task tells

fn has_lengths(task: &Task) -> bool {
    task.objects().len() == 0
        && task.schemas().len() == 2
        && task.facts().len() == 2
        && task.fluents().len() == 0
        && task.actions().len() == 2
}

fn has_more_lengths(task: &Task) -> bool {
    task.snaps().len() == 2
        && task.timed().len() == 0
        && task.goal().literals.len() == 1
        && task.hard().len() == 0
        && task.soft().len() == 0
}

fn has_touches(task: &Task, snap: u32, table: &[(u32, Touch)]) -> bool {
    if snap as usize >= task.snaps().len() {
        return false;
    }
    are_touches(task.touches(SnapId::of(snap)), table)
}

fn are_touches(touches: &[(TokenId, Touch)], table: &[(u32, Touch)]) -> bool {
    if touches.len() != table.len() {
        return false;
    }
    for place in 0..table.len() {
        if touches[place].0.number() != table[place].0 || touches[place].1 != table[place].1 {
            return false;
        }
    }
    true
}

fn flags_task(alloc: Global) -> Result<Task, NoMemory> {
    let parts = flags_parts(alloc)?;
    Task::of_parts(alloc, parts)
}

fn gate_task(alloc: Global) -> Result<Task, FormFault> {
    let parts = gate_parts(alloc)?;
    Ok(Task::of_parts(alloc, parts)?)
}

fn tank_task(alloc: Global) -> Result<Task, FormFault> {
    let parts = tank_parts(alloc)?;
    Ok(Task::of_parts(alloc, parts)?)
}

// Whether the task of the flags tells its parts.
fn flags_are_told(alloc: Global) -> bool {
    match flags_task(alloc) {
        Ok(task) => has_lengths(&task) && has_more_lengths(&task),
        Err(_) => false,
    }
}

// Whether setting and using touch tokens 0 and 1, the flags, and nothing else.
fn flags_touch_as_told(alloc: Global) -> bool {
    let used = [(0, Touch::Look), (1, Touch::Mark)];
    match flags_task(alloc) {
        Ok(task) => has_touches(&task, 0, &[(0, Touch::Mark)]) && has_touches(&task, 1, &used),
        Err(_) => false,
    }
}

fn has_gate_touches(task: &Task) -> bool {
    let start = [(0, Touch::Look), (2, Touch::Mark)];
    let end = [(0, Touch::Look), (1, Touch::Mark), (2, Touch::Mark)];
    let moment = [(0, Touch::Mark)];
    has_touches(task, 0, &start)
        && has_touches(task, 1, &end)
        && has_touches(task, 2, &moment)
        && has_touches(task, 3, &moment)
}

// Whether the pass watches the open gate: tokens 0 (open), 1 (through) and 2 (the pass).
fn gate_touches_as_told(alloc: Global) -> bool {
    match gate_task(alloc) {
        Ok(task) => has_gate_touches(&task),
        Err(_) => false,
    }
}

fn has_tank_touches(task: &Task) -> bool {
    let fill = [(0, Touch::Look), (0, Touch::Bend), (1, Touch::Mark)];
    let leak = [(0, Touch::Bend), (2, Touch::Mark)];
    has_touches(task, 0, &fill)
        && has_touches(task, 1, &fill)
        && has_touches(task, 2, &leak)
        && has_touches(task, 3, &leak)
}

// Whether filling watches the level, and both actions have rates on it: tokens 0 (the level), 1 (filling), 2 (leaking).
fn tank_touches_as_told(alloc: Global) -> bool {
    match tank_task(alloc) {
        Ok(task) => has_tank_touches(&task),
        Err(_) => false,
    }
}

#[test]
fn a_task_tells_its_parts(rt: HostRuntime) {
    assert!(&rt; flags_are_told(rt.alloc()));
}

#[test]
fn flags_are_touched(rt: HostRuntime) {
    assert!(&rt; flags_touch_as_told(rt.alloc()));
}

#[test]
fn gate_is_touched(rt: HostRuntime) {
    assert!(&rt; gate_touches_as_told(rt.alloc()));
}

#[test]
fn tank_is_touched(rt: HostRuntime) {
    assert!(&rt; tank_touches_as_told(rt.alloc()));
}
