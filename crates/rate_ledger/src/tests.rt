//! The value forms of a small task, reckoned by hand: a level that is filled at a rate and set to 10 meanwhile, and work
//! that goes by durations and by the level.

ghost use Rattle.std.specs.Prelude.{◌≡◌, ◌∷◌, [], ◌≤◌, IfOk, Some, length};
ghost use Rattle.task_types.specs.Examples.{always_true as always};
ghost use Rattle.rate_ledger.specs.ExampleTask.{filling, starts, ends as ending, sets, while_filling, when_filled, ten, works, levels as levelling};
ghost use Rattle.rate_ledger.specs.Ledgers.{Keeps, IsLedgerOf};

use crate::forms::StepForm;
use crate::{Ledger, ListLedger, When};
use exact_lin::{
    ActionId, FluentId, Form, FormFault, Fraction, Id, NoMemory, Scalar, SnapId, StepId, VarId,
};
use sqlite_items::Items;
use std::alloc::Global;
use task_types::{
    Action, Amount, Condition, Effect, Fluent, Metric, Schema, Snap, SnapKind, Task, TaskParts,
};

fn always_true(alloc: Global) -> Condition
    ensures { result ≡ always }
{
    Condition {
        literals: Items::new(alloc),
        comparisons: Items::new(alloc),
    }
}

fn while_filling(alloc: Global) -> Amount
    ensures { result ≡ while_filling }
{
    Amount {
        form: Form::zero(alloc),
        duration: Fraction::of_int(7),
    }
}

fn when_filled(alloc: Global) -> Result<Amount, FormFault>
    ensures { IfOk result (λ amount. amount ≡ when_filled) }
{
    let mut form = Form::zero(alloc);
    form.add_term(FluentId::of(0), Fraction::of_int(1))?;
    Ok(Amount {
        form,
        duration: Fraction::of_int(3),
    })
}

fn ten(alloc: Global) -> Result<Amount, FormFault>
    ensures { IfOk result (λ amount. amount ≡ ten) }
{
    let mut form = Form::zero(alloc);
    form.add_constant(Fraction::of_int(10))?;
    Ok(Amount {
        form,
        duration: Fraction::of_int(0),
    })
}

fn works(alloc: Global, amount: Amount) -> Result<Effect, NoMemory>
    ensures { IfOk result (λ effect. effect ≡ works amount) }
{
    let mut increases = Items::new(alloc);
    increases.push((FluentId::of(1), amount))?;
    Ok(Effect {
        adds: Items::new(alloc),
        deletes: Items::new(alloc),
        assigns: Items::new(alloc),
        increases,
    })
}

fn levels(alloc: Global) -> Result<Effect, FormFault>
    ensures { IfOk result (λ effect. effect ≡ levelling) }
{
    let amount = ten(alloc)?;
    let assigns = named(alloc, amount)?;
    Ok(Effect {
        adds: Items::new(alloc),
        deletes: Items::new(alloc),
        assigns,
        increases: Items::new(alloc),
    })
}

fn named(alloc: Global, amount: Amount) -> Result<Items<(FluentId, Amount)>, NoMemory>
    ensures { IfOk result (λ assigns. assigns ≡ (0, amount) ∷ []) }
{
    let mut assigns = Items::new(alloc);
    assigns.push((FluentId::of(0), amount))?;
    Ok(assigns)
}

fn starts(alloc: Global) -> Result<Snap, NoMemory>
    ensures { IfOk result (λ snap. snap ≡ starts) }
{
    let effect = works(alloc, while_filling(alloc))?;
    let mut rates = Items::new(alloc);
    rates.push((FluentId::of(0), Fraction::of_int(2)))?;
    Ok(Snap {
        kind: SnapKind::Start,
        action: Some(ActionId::of(0)),
        condition: always_true(alloc),
        effect,
        rates,
    })
}

fn ends(alloc: Global) -> Result<Snap, FormFault>
    ensures { IfOk result (λ snap. snap ≡ ending) }
{
    let amount = when_filled(alloc)?;
    let effect = works(alloc, amount)?;
    Ok(Snap {
        kind: SnapKind::End,
        action: Some(ActionId::of(0)),
        condition: always_true(alloc),
        effect,
        rates: Items::new(alloc),
    })
}

fn sets(alloc: Global) -> Result<Snap, FormFault>
    ensures { IfOk result (λ snap. snap ≡ sets) }
{
    let effect = levels(alloc)?;
    Ok(Snap {
        kind: SnapKind::Instant,
        action: Some(ActionId::of(1)),
        condition: always_true(alloc),
        effect,
        rates: Items::new(alloc),
    })
}

fn snaps(alloc: Global) -> Result<Items<Snap>, FormFault>
    ensures { IfOk result (λ snaps. snaps ≡ filling.snaps) }
{
    let start = starts(alloc)?;
    let end = ends(alloc)?;
    let set = sets(alloc)?;
    let snaps = three(alloc, start, end, set)?;
    Ok(snaps)
}

fn three(alloc: Global, start: Snap, end: Snap, set: Snap) -> Result<Items<Snap>, NoMemory>
    ensures { IfOk result (λ snaps. snaps ≡ start ∷ end ∷ set ∷ []) }
{
    let mut snaps = Items::new(alloc);
    snaps.push(start)?;
    snaps.push(end)?;
    snaps.push(set)?;
    Ok(snaps)
}

fn schema(alloc: Global, name: &[u8], durative: bool) -> Result<Schema, NoMemory>
    ensures { IfOk result (λ schema. schema ≡ record { name = name.now; durative = durative; params = [] }) }
{
    let name = Items::from_slice(alloc, name)?;
    Ok(Schema {
        name,
        durative,
        params: Items::new(alloc),
    })
}

fn schemas(alloc: Global) -> Result<Items<Schema>, NoMemory>
    ensures { IfOk result (λ schemas. schemas ≡ filling.schemas) }
{
    let mut schemas = Items::new(alloc);
    schemas.push(schema(alloc, b"fill", true)?)?;
    schemas.push(schema(alloc, b"set", false)?)?;
    Ok(schemas)
}

fn fluent(alloc: Global, name: &[u8], value: Fraction) -> Result<Fluent, NoMemory>
    ensures { IfOk result (λ fluent. fluent ≡ record { name = name.now; args = []; value = value }) }
{
    let name = Items::from_slice(alloc, name)?;
    Ok(Fluent {
        name,
        args: Items::new(alloc),
        value,
    })
}

fn fluents(alloc: Global) -> Result<Items<Fluent>, NoMemory>
    ensures { IfOk result (λ fluents. fluents ≡ filling.fluents) }
{
    let mut fluents = Items::new(alloc);
    fluents.push(fluent(alloc, b"level", Fraction::of_int(3))?)?;
    fluents.push(fluent(alloc, b"work", Fraction::of_int(0))?)?;
    Ok(fluents)
}

fn action(
    alloc: Global,
    name: &[u8],
    start: SnapId,
    end: Option<SnapId>,
) -> Result<Action, NoMemory>
    ensures { IfOk result (λ action. action ≡ record { name = name.now; args = []; start = start; end = end; bounds = []; over_all = always }) }
{
    let name = Items::from_slice(alloc, name)?;
    Ok(Action {
        name,
        args: Items::new(alloc),
        start,
        end,
        bounds: Items::new(alloc),
        over_all: always_true(alloc),
    })
}

fn actions(alloc: Global) -> Result<Items<Action>, NoMemory>
    ensures { IfOk result (λ actions. actions ≡ filling.actions) }
{
    let mut actions = Items::new(alloc);
    actions.push(action(alloc, b"fill", SnapId::of(0), Some(SnapId::of(1)))?)?;
    actions.push(action(alloc, b"set", SnapId::of(2), None)?)?;
    Ok(actions)
}

fn metric(alloc: Global) -> Metric
    ensures { result ≡ filling.metric }
{
    Metric {
        constant: Fraction::of_int(0),
        last: Fraction::of_int(0),
        fluents: Form::zero(alloc),
    }
}

fn parts(alloc: Global) -> Result<TaskParts, FormFault>
    ensures { IfOk result (λ parts. parts ≡ filling) }
{
    let snaps = snaps(alloc)?;
    let schemas = schemas(alloc)?;
    let fluents = fluents(alloc)?;
    let actions = actions(alloc)?;
    Ok(TaskParts {
        objects: Items::new(alloc),
        schemas,
        facts: Items::new(alloc),
        fluents,
        actions,
        snaps,
        timed: Items::new(alloc),
        goal: always_true(alloc),
        hard: Items::new(alloc),
        soft: Items::new(alloc),
        metric: metric(alloc),
    })
}

fn task(alloc: Global) -> Result<Task, FormFault>
    ensures { IfOk result (λ task. task.parts ≡ filling) }
{
    let parts = parts(alloc)?;
    let task = Task::of_parts(alloc, parts)?;
    Ok(task)
}

// The fill with the set between its ends, all steps taken.
fn filled(alloc: Global, task: &Task) -> Result<ListLedger, FormFault>
    requires { task.now.parts ≡ filling }
    ensures keeps { IfOk result (λ l. Keeps task.now.parts l) }
    ensures taken { IfOk result (λ l. (length l.steps ≡ 3) × (length l.changes ≡ 3)) }
{
    let mut ledger = begun(alloc, task)?;
    ledger.push(alloc, task)?;
    ledger.push(alloc, task)?;
    Ok(ledger)
}

fn begun(alloc: Global, task: &Task) -> Result<ListLedger, FormFault>
    requires { task.now.parts ≡ filling }
    ensures keeps { IfOk result (λ l. Keeps task.now.parts l) }
    ensures taken { IfOk result (λ l. (length l.steps ≡ 3) × (length l.changes ≡ 1)) }
{
    let steps = [SnapId::of(0), SnapId::of(2), SnapId::of(1)];
    let mut ledger = ListLedger::new(alloc, task, &steps)?;
    ledger.push(alloc, task)?;
    Ok(ledger)
}

// The fill begun, and the set, pushed one by one.
fn grown(alloc: Global, task: &Task) -> Result<Ledger, FormFault>
    requires { task.now.parts ≡ filling }
    ensures ledger { IfOk result (λ l. IsLedgerOf task.now.parts l) }
    ensures steps { IfOk result (λ l. l.taken.steps ≡ 0 ∷ 2 ∷ []) }
{
    let mut ledger = Ledger::new(alloc, task)?;
    ledger.push(task, SnapId::of(0))?;
    ledger.push(task, SnapId::of(2))?;
    Ok(ledger)
}

fn is_form(form: &StepForm, constant: i32, factors: [i32; 3]) -> bool {
    form.constant() == Fraction::of_int(constant)
        && form.coefficient(VarId::of(0)) == Fraction::of_int(factors[0])
        && form.coefficient(VarId::of(1)) == Fraction::of_int(factors[1])
        && form.coefficient(VarId::of(2)) == Fraction::of_int(factors[2])
}

#[test]
fn a_rate_goes_while_its_action_runs(rt: HostRuntime) {
    let task = task(rt.alloc()).expect(&rt, "a task");
    let level = FluentId::of(0);
    let begun = begun(rt.alloc(), &task).expect(&rt, "a ledger");
    assert!(&rt; begun.rate(level) == Fraction::of_int(2));
    let filled = filled(rt.alloc(), &task).expect(&rt, "a ledger");
    assert!(&rt; filled.rate(level) == Fraction::of_int(0));
    let set = filled.snap(&task, StepId::of(1));
    assert!(&rt; matches!(set.kind, SnapKind::Instant));
}

#[test]
fn the_level_moves_and_is_set(rt: HostRuntime) {
    let task = task(rt.alloc()).expect(&rt, "a task");
    let level = FluentId::of(0);
    let filled = filled(rt.alloc(), &task).expect(&rt, "a ledger");
    let first = filled
        .value_before(rt.alloc(), &task, level, StepId::of(0))
        .expect(&rt, "a form");
    assert!(&rt; is_form(&first, 3, [0, 0, 0]));
    let moved = filled
        .value_before(rt.alloc(), &task, level, StepId::of(1))
        .expect(&rt, "a form");
    assert!(&rt; is_form(&moved, 3, [-2, 2, 0]));
    let set = filled
        .value_after(rt.alloc(), &task, level, StepId::of(1))
        .expect(&rt, "a form");
    assert!(&rt; is_form(&set, 10, [0, 0, 0]));
    let last = filled
        .value_end(rt.alloc(), &task, level)
        .expect(&rt, "a form");
    assert!(&rt; is_form(&last, 10, [0, -2, 2]));
}

#[test]
fn work_goes_by_durations_and_the_level(rt: HostRuntime) {
    let task = task(rt.alloc()).expect(&rt, "a task");
    let work = FluentId::of(1);
    let filled = filled(rt.alloc(), &task).expect(&rt, "a ledger");
    let started = filled
        .value(rt.alloc(), &task, work, &When::After(StepId::of(0)))
        .expect(&rt, "a form");
    assert!(&rt; is_form(&started, 0, [-7, 0, 7]));
    let ended = filled
        .value(rt.alloc(), &task, work, &When::After(StepId::of(2)))
        .expect(&rt, "a form");
    assert!(&rt; is_form(&ended, 10, [-10, -2, 12]));
}

#[test]
fn a_form_is_put_into_values(rt: HostRuntime) {
    let task = task(rt.alloc()).expect(&rt, "a task");
    let filled = filled(rt.alloc(), &task).expect(&rt, "a ledger");
    let mut form = Form::zero(rt.alloc());
    form.add_term(FluentId::of(1), Fraction::of_int(2))
        .expect(&rt, "a term");
    form.add_term(FluentId::of(0), Fraction::of_int(-1))
        .expect(&rt, "a term");
    let last = filled
        .put(rt.alloc(), &task, &form, &When::AtEnd)
        .expect(&rt, "a form");
    assert!(&rt; is_form(&last, 10, [-20, -2, 22]));
}

#[test]
fn an_end_to_come_has_the_last_number(rt: HostRuntime) {
    let task = task(rt.alloc()).expect(&rt, "a task");
    let level = FluentId::of(0);
    let work = FluentId::of(1);
    let mut ledger = grown(rt.alloc(), &task).expect(&rt, "a ledger");
    let started = ledger
        .value_after(work, StepId::of(0))
        .expect(&rt, "a form");
    assert!(&rt; is_form(&started, 0, [-7, 0, 7]));
    let moved = ledger
        .value_before(level, StepId::of(1))
        .expect(&rt, "a form");
    assert!(&rt; is_form(&moved, 3, [-2, 2, 0]));
    assert!(&rt; ledger.rate(level) == Fraction::of_int(2));
    ledger.push(&task, SnapId::of(1)).expect(&rt, "a step");
    let last = ledger.value_end(work).expect(&rt, "a form");
    assert!(&rt; is_form(&last, 10, [-10, -2, 12]));
    assert!(&rt; ledger.rate(level) == Fraction::of_int(0));
}
