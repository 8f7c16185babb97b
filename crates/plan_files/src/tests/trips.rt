//! Plan files and ordering files of a small task: `go` takes time and one of two objects, of which grounding kept the first; `stop` takes
//! neither.

ghost use Rattle.std.specs.Prelude.{◌≡◌, ◌∷◌, [], ◌<◌, ◌-◌, ◌^◌, length, IfOk};
ghost use Rattle.task_types.specs.Examples.{always_true as always, nothing as no_effect, at_end, at_once, at_start, no_metric};
ghost use Rattle.plan_files.specs.ExampleTask.{go_somewhere, go_to_a, trip};

use crate::{LineFault, LineKind, read_order, read_plan};
use exact_lin::{ActionId, Form, Fraction, Id, NoMemory, Scalar, SnapId};
use ordering::OrderFault;
use sqlite_items::Items;
use std::alloc::Global;
use task_types::{Action, Condition, Effect, Metric, Schema, Snap, SnapKind, Task, TaskParts};

fn one<T: Drop>(alloc: Global, item: T) -> Result<Items<T>, NoMemory>
    ensures { IfOk result (λ items. items ≡ item ∷ []) }
{
    let mut items = Items::new(alloc);
    items.push(item)?;
    Ok(items)
}

fn two<T: Drop>(alloc: Global, first: T, second: T) -> Result<Items<T>, NoMemory>
    ensures { IfOk result (λ items. items ≡ first ∷ second ∷ []) }
{
    let mut items = Items::new(alloc);
    items.push(first)?;
    items.push(second)?;
    Ok(items)
}

fn always_true(alloc: Global) -> Condition
    ensures { result ≡ always }
{
    Condition {
        literals: Items::new(alloc),
        comparisons: Items::new(alloc),
    }
}

fn nothing(alloc: Global) -> Effect
    ensures { result ≡ no_effect }
{
    Effect {
        adds: Items::new(alloc),
        deletes: Items::new(alloc),
        assigns: Items::new(alloc),
        increases: Items::new(alloc),
    }
}

fn snap(alloc: Global, kind: SnapKind, action: u32) -> Snap
    ensures { result ≡ record { kind = kind; action = Some action; condition = always; effect = no_effect; rates = [] } }
{
    Snap {
        kind,
        action: Some(ActionId::of(action)),
        condition: always_true(alloc),
        effect: nothing(alloc),
        rates: Items::new(alloc),
    }
}

fn go_schema(alloc: Global) -> Result<Schema, NoMemory>
    ensures { IfOk result (λ schema. schema ≡ go_somewhere) }
{
    let name = Items::from_slice(alloc, b"go")?;
    let objects = two(alloc, 0, 1)?;
    let params = one(alloc, objects)?;
    Ok(Schema {
        name,
        durative: true,
        params,
    })
}

fn schemas(alloc: Global) -> Result<Items<Schema>, NoMemory>
    ensures { IfOk result (λ schemas. schemas ≡ trip.schemas) }
{
    let go = go_schema(alloc)?;
    let name = Items::from_slice(alloc, b"stop")?;
    let stop = Schema {
        name,
        durative: false,
        params: Items::new(alloc),
    };
    two(alloc, go, stop)
}

fn go_action(alloc: Global) -> Result<Action, NoMemory>
    ensures { IfOk result (λ action. action ≡ go_to_a) }
{
    let name = Items::from_slice(alloc, b"go")?;
    let args = one(alloc, 0)?;
    Ok(Action {
        name,
        args,
        start: SnapId::of(0),
        end: Some(SnapId::of(1)),
        bounds: Items::new(alloc),
        over_all: always_true(alloc),
    })
}

fn actions(alloc: Global) -> Result<Items<Action>, NoMemory>
    ensures { IfOk result (λ actions. actions ≡ trip.actions) }
{
    let go = go_action(alloc)?;
    let name = Items::from_slice(alloc, b"stop")?;
    let stop = Action {
        name,
        args: Items::new(alloc),
        start: SnapId::of(2),
        end: None,
        bounds: Items::new(alloc),
        over_all: always_true(alloc),
    };
    two(alloc, go, stop)
}

fn snaps(alloc: Global) -> Result<Items<Snap>, NoMemory>
    ensures { IfOk result (λ snaps. snaps ≡ trip.snaps) }
{
    let mut snaps = two(
        alloc,
        snap(alloc, SnapKind::Start, 0),
        snap(alloc, SnapKind::End, 0),
    )?;
    snaps.push(snap(alloc, SnapKind::Instant, 1))?;
    Ok(snaps)
}

fn objects(alloc: Global) -> Result<Items<Items<u8>>, NoMemory>
    ensures { IfOk result (λ objects. objects ≡ trip.objects) }
{
    let a = Items::from_slice(alloc, b"a")?;
    let b = Items::from_slice(alloc, b"b")?;
    two(alloc, a, b)
}

fn metric(alloc: Global) -> Metric
    ensures { result ≡ no_metric }
{
    Metric {
        constant: Fraction::of_int(0),
        last: Fraction::of_int(0),
        fluents: Form::zero(alloc),
    }
}

fn parts(alloc: Global) -> Result<TaskParts, NoMemory>
    ensures { IfOk result (λ parts. parts ≡ trip) }
{
    Ok(TaskParts {
        objects: objects(alloc)?,
        schemas: schemas(alloc)?,
        facts: Items::new(alloc),
        fluents: Items::new(alloc),
        actions: actions(alloc)?,
        snaps: snaps(alloc)?,
        timed: Items::new(alloc),
        goal: always_true(alloc),
        hard: Items::new(alloc),
        soft: Items::new(alloc),
        metric: metric(alloc),
    })
}

fn task(alloc: Global) -> Result<Task, NoMemory>
    ensures { IfOk result (λ task. task.parts ≡ trip) }
{
    let parts = parts(alloc)?;
    Task::of_parts(alloc, parts)
}

// Whether a text is refused so.
fn is_refused(alloc: Global, task: &Task, text: &[u8], fault: LineFault) -> bool {
    if text.len() > 1048576 {
        return false;
    }
    match read_plan(alloc, task, text) {
        Ok(_) => false,
        Err(found) => found == fault,
    }
}

// Whether a text is read as a plan of so many lines.
fn has_lines(alloc: Global, task: &Task, text: &[u8], count: usize) -> bool {
    if text.len() > 1048576 {
        return false;
    }
    match read_plan(alloc, task, text) {
        Ok(plan) => plan.lines().len() == count,
        Err(_) => false,
    }
}

fn reads_plans(alloc: Global, task: &Task) -> bool {
    let cases: [(&[u8], usize); 8] = [
        (b"", 0),
        (b"; nothing\n\n", 0),
        (b"0.000: (go a) [5.000]", 1),
        (b"0: (stop)", 1),
        (
            b"1/3 : ( STOP )\t[ 7 ] ; a bracket that is not used\r\n2:(Go A)[1/2]",
            2,
        ),
        (b"3: (stop)\n1: (stop)\n2: (stop)", 3),
        (b"-1: (go a) [-2]", 1),
        (b"170141183460469231731687303715884105727: (go a) [0]", 1),
    ];
    for (text, count) in cases {
        if !has_lines(alloc, task, text, count) {
            return false;
        }
    }
    true
}

fn refuses_shapes(alloc: Global, task: &Task) -> bool {
    let cases: [&[u8]; 9] = [
        b"0: (go a)",
        b"x: (GO z)",
        b"0: go a [1]",
        b"0 (go a) [1]",
        b"0: (go a) [1",
        b"0: (go a) [1] 2",
        b"0: (go a) []",
        b"0: () [1]",
        b"0: (go (a)) [1]",
    ];
    for text in cases {
        if !is_refused(alloc, task, text, LineFault::At(1, LineKind::Shape)) {
            return false;
        }
    }
    true
}

fn refuses_kinds(alloc: Global, task: &Task) -> bool {
    let cases: [(&[u8], u32, LineKind); 14] = [
        (b"x: (fly z) [1]", 1, LineKind::Number),
        (b"0: (stop) [x]", 1, LineKind::Number),
        (b"1/0: (stop)", 1, LineKind::Number),
        (b".5: (stop)", 1, LineKind::Number),
        (b"0: (fly)", 1, LineKind::Name),
        (b"0: (go c) [1]", 1, LineKind::Name),
        (b"0: (go) [1]", 1, LineKind::Name),
        (b"0: (go a a) [1]", 1, LineKind::Name),
        (b"0: (stop a)", 1, LineKind::Name),
        (b"0: (go b) [1]", 1, LineKind::Unground),
        (
            b"170141183460469231731687303715884105727: (go a) [1]",
            1,
            LineKind::Wide,
        ),
        (b"\n0: (stop)\n;\n0: (stop) 1\n0: (fly)", 4, LineKind::Shape),
        (b"0: (stop)\n0: (go b) [1]\n0: (fly)", 2, LineKind::Unground),
        (b"0: (stop)\n0: (stop)\n0: (fly)", 3, LineKind::Name),
    ];
    for (text, line, kind) in cases {
        if !is_refused(alloc, task, text, LineFault::At(line, kind)) {
            return false;
        }
    }
    true
}

// So many lines that stop, and one more that is told.
fn stops(alloc: Global, count: usize, last: &[u8]) -> Result<Vec<u8>, NoMemory> {
    let mut text = Vec::new(alloc);
    for _ in 0..count {
        text.extend_from_slice(b"0: (stop)\n")?;
    }
    text.extend_from_slice(last)?;
    Ok(text)
}

fn counts_lines(alloc: Global, task: &Task) -> bool {
    let cases: [(&[u8], LineFault); 4] = [
        (b"0: (stop)", LineFault::At(4097, LineKind::Limit)),
        (b";\n0: (stop)", LineFault::At(4098, LineKind::Limit)),
        (b"0: (go b) [1]", LineFault::At(4097, LineKind::Unground)),
        (
            b"170141183460469231731687303715884105727: (go a) [1]",
            LineFault::At(4097, LineKind::Limit),
        ),
    ];
    for (last, fault) in cases {
        match stops(alloc, 4096, last) {
            Ok(text) => {
                if !is_refused(alloc, task, text.as_slice(), fault) {
                    return false;
                }
            }
            Err(_) => return false,
        }
    }
    match stops(alloc, 4096, b"; the last") {
        Ok(text) => has_lines(alloc, task, text.as_slice(), 4096),
        Err(_) => false,
    }
}

// Whether a text is read as an ordering of so many steps and extra pairs.
fn has_steps(alloc: Global, task: &Task, text: &[u8], steps: usize, pairs: usize) -> bool {
    if text.len() > 1048576 {
        return false;
    }
    match read_order(alloc, task, text) {
        Ok(order) => order.steps().len() == steps && order.extra().len() == pairs,
        Err(_) => false,
    }
}

// Whether a text is refused so as an ordering.
fn is_no_order(alloc: Global, task: &Task, text: &[u8], fault: LineFault) -> bool {
    if text.len() > 1048576 {
        return false;
    }
    match read_order(alloc, task, text) {
        Ok(_) => false,
        Err(found) => found == fault,
    }
}

fn reads_orders(alloc: Global, task: &Task) -> bool {
    let cases: [(&[u8], usize, usize); 5] = [
        (b"", 0, 0),
        (b"start (go a)\n\n end(GO A) ; here", 2, 0),
        (b"do (stop)\ndo (Stop)", 2, 0),
        (b"do (stop)\ndo (stop)\npair 1 2\npair 01 2", 2, 2),
        (b"start (go a)\ndo (stop)\nend (go a)\npair 1 3", 3, 1),
    ];
    for (text, steps, pairs) in cases {
        if !has_steps(alloc, task, text, steps, pairs) {
            return false;
        }
    }
    true
}

fn refuses_words(alloc: Global, task: &Task) -> bool {
    let cases: [(&[u8], u32, LineKind); 14] = [
        (b"Start (go a)", 1, LineKind::Shape),
        (b"start go a", 1, LineKind::Shape),
        (b"do (stop) 1", 1, LineKind::Shape),
        (b"timed", 1, LineKind::Shape),
        (b"pair 1", 1, LineKind::Shape),
        (b"timed x", 1, LineKind::Number),
        (b"pair 1 -2", 1, LineKind::Number),
        (b"pair 1 4294967296", 1, LineKind::Number),
        (b"pair 4294967295 1.0", 1, LineKind::Number),
        (b"do (fly)", 1, LineKind::Name),
        (b"start (go)", 1, LineKind::Name),
        (b"do (stop)\nend (go c)", 2, LineKind::Name),
        (b"start (go b)", 1, LineKind::Unground),
        (b"\n\ndo (stop\nstart (go b)", 3, LineKind::Shape),
    ];
    for (text, line, kind) in cases {
        if !is_no_order(alloc, task, text, LineFault::At(line, kind)) {
            return false;
        }
    }
    true
}

fn refuses_orders(alloc: Global, task: &Task) -> bool {
    let cases: [(&[u8], u32, OrderFault); 12] = [
        (b"do (go a)", 1, OrderFault::UnknownStep),
        (b"start (stop)", 1, OrderFault::UnknownStep),
        (b"end (stop)", 1, OrderFault::UnknownStep),
        (b"timed 5", 1, OrderFault::UnknownStep),
        (b"end (go a)", 1, OrderFault::EndWithoutStart),
        (b"start (go a)\nstart (go a)", 2, OrderFault::Running),
        (b"do (stop)\npair 1 2", 2, OrderFault::UnknownStep),
        (b"pair 0 0", 1, OrderFault::UnknownStep),
        (b"do (stop)\ndo (stop)\npair 2 1", 3, OrderFault::Cycle),
        (b"do (stop)\npair 1 1", 2, OrderFault::Cycle),
        (b"\ndo (stop)\n\nstart (go a)", 4, OrderFault::OpenAction(2)),
        (b"start (go a)\ndo (stop)", 1, OrderFault::OpenAction(1)),
    ];
    for (text, line, fault) in cases {
        if !is_no_order(
            alloc,
            task,
            text,
            LineFault::At(line, LineKind::Order(fault)),
        ) {
            return false;
        }
    }
    true
}

// So many lines that do the same.
fn repeated(alloc: Global, count: usize) -> Result<Vec<u8>, NoMemory> {
    let mut text = Vec::new(alloc);
    for _ in 0..count {
        text.extend_from_slice(b"do (stop)\n")?;
    }
    Ok(text)
}

fn counts_steps(alloc: Global, task: &Task) -> bool {
    let fault = LineFault::At(129, LineKind::Order(OrderFault::Limit));
    let most = match repeated(alloc, 128) {
        Ok(text) => text,
        Err(_) => return false,
    };
    let more = match repeated(alloc, 129) {
        Ok(text) => text,
        Err(_) => return false,
    };
    has_steps(alloc, task, most.as_slice(), 128, 0)
        && is_no_order(alloc, task, more.as_slice(), fault)
}

#[test]
fn orderings_are_read(rt: HostRuntime) {
    match task(rt.alloc()) {
        Ok(task) => assert!(&rt;
            reads_orders(rt.alloc(), &task) && counts_steps(rt.alloc(), &task)
        ),
        Err(_) => assert!(&rt; false),
    }
}

#[test]
fn wrong_orderings_are_refused(rt: HostRuntime) {
    match task(rt.alloc()) {
        Ok(task) => {
            assert!(&rt; refuses_words(rt.alloc(), &task) && refuses_orders(rt.alloc(), &task))
        }
        Err(_) => assert!(&rt; false),
    }
}

#[test]
fn plans_are_read(rt: HostRuntime) {
    match task(rt.alloc()) {
        Ok(task) => assert!(&rt; reads_plans(rt.alloc(), &task)),
        Err(_) => assert!(&rt; false),
    }
}

#[test]
fn wrong_lines_are_refused(rt: HostRuntime) {
    match task(rt.alloc()) {
        Ok(task) => {
            assert!(&rt; refuses_shapes(rt.alloc(), &task) && refuses_kinds(rt.alloc(), &task))
        }
        Err(_) => assert!(&rt; false),
    }
}

#[test]
fn lines_are_counted(rt: HostRuntime) {
    match task(rt.alloc()) {
        Ok(task) => assert!(&rt; counts_lines(rt.alloc(), &task)),
        Err(_) => assert!(&rt; false),
    }
}
