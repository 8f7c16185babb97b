//! Ordering files.

ghost use Rattle.std.specs.Prelude.{◌≡◌, ◌<◌, ◌-◌, ◌^◌, length, option_map, Some, IfOk};
ghost use Rattle.ordering.specs.Orderings.{BuiltOver};
ghost use Rattle.plan_files.specs.Known.{AreNames};
ghost use Rattle.plan_files.specs.OrderFiles.{Step, Apart, line_of_fault, ReadsOrder};
ghost use Rattle.plan_files.specs.OrderParts.{put_seen, IsKnown, PutsIn, TakesOrder};
ghost use Rattle.plan_files.specs.BegunOrders.{begun_seen, fault_told, Begins, Closes};

use crate::faults::{LineFault, LineKind};
use crate::lines::next_written;
use crate::names::{Names, names_of};
use crate::order_lines::{Put, read_put};
use exact_lin::{Id, SnapId};
use ordering::{OrderFault, StepOrdering};
use std::alloc::Global;
use task_types::Task;

/// An ordering so far, and the number of the line of each of its steps.
#[derive(Drop)]
pub struct Begun {
    order: StepOrdering,
    lines: Vec<u32>,
}

fn put_step(begun: &mut Begun, task: &Task, number: u32, snap: u32) -> Result<(), OrderFault>
    requires over { BuiltOver task.now.parts begun.old.order }
    requires known { snap < length task.now.parts.snaps }
    ensures put { PutsIn task.now.parts (begun_seen begun.old) (begun_seen begun.new) number (Some (Step snap)) result }
    ensures over { BuiltOver task.now.parts begun.new.order }
{
    match begun.order.push(task, SnapId::of(snap)) {
        Ok(_) => {}
        Err(fault) => return Err(fault),
    }
    match begun.lines.push(number) {
        Ok(()) => Ok(()),
        Err(_) => Err(OrderFault::Memory),
    }
}

fn put_apart(
    begun: &mut Begun,
    task: &Task,
    number: u32,
    first: u32,
    second: u32,
) -> Result<(), OrderFault>
    requires { BuiltOver task.now.parts begun.old.order }
    ensures put { PutsIn task.now.parts (begun_seen begun.old) (begun_seen begun.new) number (Some (Apart first second)) result }
    ensures over { BuiltOver task.now.parts begun.new.order }
{
    begun.order.push_pair(first, second)
}

fn put_in(begun: &mut Begun, task: &Task, number: u32, put: Option<Put>) -> Result<(), OrderFault>
    requires over { BuiltOver task.now.parts begun.old.order }
    requires known { IsKnown task.now.parts (option_map put_seen put) }
    ensures put { PutsIn task.now.parts (begun_seen begun.old) (begun_seen begun.new) number (option_map put_seen put) result }
    ensures over { BuiltOver task.now.parts begun.new.order }
{
    match put {
        Some(Put::Step(snap)) => put_step(begun, task, number, snap),
        Some(Put::Apart(first, second)) => put_apart(begun, task, number, first, second),
        None => Err(OrderFault::UnknownStep),
    }
}

fn fault_at(number: u32, fault: OrderFault) -> LineFault
    ensures { result ≡ fault_told number fault }
{
    match fault {
        OrderFault::Memory => LineFault::Memory,
        OrderFault::UnknownStep => LineFault::At(number, LineKind::Order(fault)),
        OrderFault::Running => LineFault::At(number, LineKind::Order(fault)),
        OrderFault::EndWithoutStart => LineFault::At(number, LineKind::Order(fault)),
        OrderFault::OpenAction(_) => LineFault::At(number, LineKind::Order(fault)),
        OrderFault::TilMissing => LineFault::At(number, LineKind::Order(fault)),
        OrderFault::TilOrder => LineFault::At(number, LineKind::Order(fault)),
        OrderFault::Cycle => LineFault::At(number, LineKind::Order(fault)),
        OrderFault::Limit => LineFault::At(number, LineKind::Order(fault)),
    }
}

// Reads one line and puts what it tells.
fn take_order(
    alloc: Global,
    names: &Names<'_>,
    begun: &mut Begun,
    number: u32,
    line: &[u8],
) -> Result<(), LineFault>
    requires names { AreNames names.now }
    requires over { BuiltOver names.now.task.now.parts begun.old.order }
    ensures taken { TakesOrder names.now.task.now.parts (begun_seen begun.old) (begun_seen begun.new) (number, line.now) result }
    ensures over { BuiltOver names.now.task.now.parts begun.new.order }
{
    let put = match read_put(alloc, names, number, line) {
        Ok(put) => put,
        Err(fault) => return Err(fault),
    };
    match put_in(begun, names.task, number, put) {
        Ok(()) => Ok(()),
        Err(fault) => Err(fault_at(number, fault)),
    }
}

// Reads the lines of a text.
fn order_from(alloc: Global, names: &Names<'_>, text: &[u8]) -> Result<Begun, LineFault>
    requires names { AreNames names.now }
    requires length { length text.now < 2 ^ 32 - 1 }
    ensures begun { Begins names.now.task.now.parts text.now result }
    ensures over { IfOk result (λ b. BuiltOver names.now.task.now.parts b.order) }
{
    let mut begun = Begun {
        order: StepOrdering::new(alloc),
        lines: Vec::new(alloc),
    };
    let mut rest = text;
    let mut number = 1;
    while let Some(written) = next_written(rest, number) {
        match take_order(alloc, names, &mut begun, written.number, written.line) {
            Ok(()) => {}
            Err(fault) => return Err(fault),
        }
        rest = written.rest;
        number = written.number + 1;
    }
    Ok(begun)
}

// The line of the start that has no end, else 0.
fn line_of_fault(lines: &[u32], fault: OrderFault) -> u32
    ensures { result ≡ line_of_fault lines.now fault }
{
    match fault {
        OrderFault::OpenAction(k) => match lines.get(k.saturating_sub(1) as usize) {
            Some(line) => *line,
            None => 0,
        },
        OrderFault::UnknownStep => 0,
        OrderFault::Running => 0,
        OrderFault::EndWithoutStart => 0,
        OrderFault::TilMissing => 0,
        OrderFault::TilOrder => 0,
        OrderFault::Cycle => 0,
        OrderFault::Limit => 0,
        OrderFault::Memory => 0,
    }
}

// The ordering that was begun, where it is closed.
fn closed(task: &Task, begun: Begun) -> Result<StepOrdering, LineFault>
    requires { BuiltOver task.now.parts begun.order }
    ensures closed { Closes task.now.parts (begun_seen begun) result }
    ensures built { IfOk result (BuiltOver task.now.parts) }
{
    let Begun { order, lines } = begun;
    match order.closed(task) {
        Ok(()) => Ok(order),
        Err(fault) => {
            let line = line_of_fault(lines.as_slice(), fault);
            Err(LineFault::At(line, LineKind::Order(fault)))
        }
    }
}

fn order_of(alloc: Global, names: &Names<'_>, text: &[u8]) -> Result<StepOrdering, LineFault>
    requires names { AreNames names.now }
    requires length { length text.now < 2 ^ 32 - 1 }
    ensures order { ReadsOrder names.now.task.now.parts text.now result }
    ensures built { IfOk result (BuiltOver names.now.task.now.parts) }
{
    match order_from(alloc, names, text) {
        Ok(begun) => closed(names.task, begun),
        Err(fault) => Err(fault),
    }
}

/// Reads an ordering file of a task: lines `start (name args)`, `end (name args)`, `do (name args)`, `timed t` and
/// `pair i j`, with comments and blanks. It is refused at the least line that is wrong, with the first kind of
/// `LineKind` that fits; and last where it isn't closed, at the line of the first start without an end, or at line 0
/// where a timed step isn't there.
pub fn read_order(alloc: Global, task: &Task, text: &[u8]) -> Result<StepOrdering, LineFault>
    requires { length text.now < 2 ^ 32 - 1 }
    ensures order { ReadsOrder task.now.parts text.now result }
    ensures built { IfOk result (BuiltOver task.now.parts) }
{
    match names_of(alloc, task) {
        Ok(names) => order_of(alloc, &names, text),
        Err(_) => Err(LineFault::Memory),
    }
}
