//! The actions that run after the steps of a list, in the order of their starts.

ghost use Rattle.std.specs.Prelude.{◌≡◌, ◌<◌, ◌++◌, ◌∷◌, [], not, length, IfOk, OnOk, option_to_list};
ghost use Rattle.std.specs.List.{filter, AllByRecursion};
ghost use Rattle.task_types.specs.Order.{run_on, running};
ghost use Rattle.task_types.specs.Sets.{is_in};

use crate::snaps::snap_of;
use exact_lin::{ActionId, NoMemory, SnapId};
use sqlite_items::Items;
use std::alloc::Global;
use task_types::{Snap, SnapKind, Task};

fn push_other(out: &mut Items<ActionId>, action: ActionId, own: ActionId) -> Result<(), NoMemory>
    ensures { OnOk result (out.new ≡ out.old ++ filter (λ a. not (is_in a (own ∷ []))) (action ∷ [])) }
{
    if action != own {
        out.push(action)?;
    }
    Ok(())
}

// The actions that run without one of them.
fn without(alloc: Global, running: &[ActionId], own: ActionId) -> Result<Items<ActionId>, NoMemory>
    ensures { IfOk result (λ out. out ≡ filter (λ a. not (is_in a (own ∷ []))) running.now) }
{
    let mut out = Items::new(alloc);
    for action in running {
        push_other(&mut out, *action, own)?;
    }
    Ok(out)
}

// The actions that run with one more.
fn with(alloc: Global, running: &[ActionId], own: ActionId) -> Result<Items<ActionId>, NoMemory>
    ensures { IfOk result (λ out. out ≡ running.now ++ own ∷ []) }
{
    let mut out = Items::from_slice(alloc, running)?;
    out.push(own)?;
    Ok(out)
}

fn same(alloc: Global, running: &[ActionId]) -> Result<Items<ActionId>, NoMemory>
    ensures { IfOk result (λ out. out ≡ running.now) }
{
    let out = Items::from_slice(alloc, running)?;
    Ok(out)
}

// The actions that run after one more step of an action.
fn run_own(
    alloc: Global,
    running: &[ActionId],
    kind: SnapKind,
    own: ActionId,
) -> Result<Items<ActionId>, NoMemory>
    ensures { IfOk result (λ out. out ≡ run_on kind (own ∷ []) running.now) }
{
    match kind {
        SnapKind::Start => with(alloc, running, own),
        SnapKind::End => without(alloc, running, own),
        SnapKind::Instant => same(alloc, running),
        SnapKind::Timed => same(alloc, running),
    }
}

/// The actions that run after one more step.
#[tactic(auto, using(crate::proofs::Lists::runs_same))]
pub fn run_on(alloc: Global, running: &[ActionId], step: &Snap) -> Result<Items<ActionId>, NoMemory>
    ensures { IfOk result (λ out. out ≡ run_on step.now.kind (option_to_list step.now.action) running.now) }
{
    match step.action {
        Some(own) => run_own(alloc, running, step.kind, own),
        None => same(alloc, running),
    }
}

/// The actions that run after all of some steps.
pub fn running_after(
    alloc: Global,
    task: &Task,
    steps: &[SnapId],
) -> Result<Items<ActionId>, NoMemory>
    requires { AllByRecursion (λ s. s < length task.now.parts.snaps) steps.now }
    ensures { IfOk result (λ out. out ≡ running task.now.parts steps.now) }
{
    let mut running = Items::new(alloc);
    for step in steps {
        running = run_on(alloc, running.as_slice(), snap_of(task, *step))?;
    }
    Ok(running)
}
