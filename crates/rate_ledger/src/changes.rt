//! What steps change: of each fluent the last form and rate.

ghost use Rattle.std.specs.Prelude.{◌≡◌, ◌≤◌, ◌==◌, length};
ghost use Rattle.std.specs.List.{find};
ghost use Rattle.std.specs.Option.{option_copied};
ghost use Rattle.rate_ledger.specs.Ledgers.{latest};

use exact_lin::{FluentId, Form, Fraction, StepId, VarId};
use sqlite_items::Items;

/// What a step made of a fluent: its form after the step, and its rate from then on.
#[derive(Drop)]
pub struct Change {
    pub fluent: FluentId,
    pub step: StepId,
    pub form: Form<VarId, Fraction>,
    pub rate: Fraction,
}

fn of_fluent(changes: &[Change], fluent: FluentId) -> Option<&Change>
    ensures { option_copied result ≡ find (λ c. c.fluent == fluent) changes.now }
{
    changes.iter().find(|change| change.fluent == fluent)
}

/// The last change of a fluent by the first `count` steps.
pub fn latest(rows: &[Items<Change>], fluent: FluentId, count: usize) -> Option<&Change>
    requires { count ≤ length rows.now }
    ensures { option_copied result ≡ latest fluent rows.now count }
{
    let mut left = count;
    while left > 0 {
        left -= 1;
        if let Some(change) = of_fluent(rows[left].as_slice(), fluent) {
            return Some(change);
        }
    }
    None
}
