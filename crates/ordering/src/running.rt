//! The actions that run after a list of steps, in the order of their starts.

ghost use Rattle.std.specs.Prelude.{◌≡◌, true, false, not, [], ◌∷◌, slice_get, MatchOption, OnOk, OnErr, option_to_list};
ghost use Rattle.std.specs.List.{filter};
ghost use Rattle.task_types.specs.Order.{run_on};
ghost use Rattle.task_types.specs.Sets.{is_in, meet, are_distinct};

use exact_lin::{ActionId, NoMemory};
use sqlite_items::Items;
use task_types::{Snap, SnapKind};

/// Whether the action of a snap action runs.
pub fn runs(running: &[ActionId], step: &Snap) -> bool
    ensures { result ≡ meet (option_to_list step.now.action) running.now }
{
    match step.action {
        Some(action) => place_of(running, action).is_some(),
        None => false,
    }
}

/// Lets the actions run that do so after one more step.
pub fn run_step(running: &mut Items<ActionId>, step: &Snap) -> Result<(), NoMemory>
    requires { are_distinct running.old ≡ true }
    ensures ok { OnOk result
        (running.new ≡ run_on step.now.kind (option_to_list step.now.action) running.old) }
    ensures err { OnErr result (running.new ≡ running.old) }
{
    let action = match step.action {
        Some(action) => action,
        None => return Ok(()),
    };
    match step.kind {
        SnapKind::Start => running.push(action)?,
        SnapKind::End => remove_action(running, action),
        SnapKind::Instant | SnapKind::Timed => {}
    }
    Ok(())
}

fn remove_action(running: &mut Items<ActionId>, action: ActionId)
    requires { are_distinct running.old ≡ true }
    ensures { running.new ≡ filter (λ a. not (is_in a (action ∷ []))) running.old }
{
    if let Some(place) = place_of(running.as_slice(), action) {
        running.remove(place);
    }
}

fn place_of(running: &[ActionId], action: ActionId) -> Option<usize>
    ensures { MatchOption result
        (is_in action running.now ≡ false)
        (λ place. slice_get running.now place ≡ Some action) }
{
    for (place, other) in running.iter().enumerate() {
        if *other == action {
            return Some(place);
        }
    }
    None
}
