//! The facts and fluents of conditions, forms and changes, put at the end of a list of numbers.

ghost use Rattle.std.specs.Prelude.{◌≡◌, ◌++◌, map, OnOk};
ghost use Rattle.std.specs.List.{flat_map};
ghost use Rattle.task_types.specs.Clash.{form_fluents, condition_facts, condition_fluents};

use crate::conditions::{Amount, Condition};
use exact_lin::{FactId, FluentId, Form, Fraction, Id, NoMemory};
use sqlite_items::Items;

/// The fluents of a form.
pub fn push_form(out: &mut Items<u32>, form: &Form<FluentId, Fraction>) -> Result<(), NoMemory>
    ensures { OnOk result (out.new ≡ out.old ++ form_fluents form.now) }
{
    for term in form.terms() {
        out.push(term.0.number())?;
    }
    Ok(())
}

/// The fluents of some forms.
pub fn push_forms(out: &mut Items<u32>, forms: &[Form<FluentId, Fraction>]) -> Result<(), NoMemory>
    ensures { OnOk result (out.new ≡ out.old ++ flat_map form_fluents forms.now) }
{
    for form in forms {
        push_form(out, form)?;
    }
    Ok(())
}

/// The facts of a condition.
pub fn push_facts(out: &mut Items<u32>, condition: &Condition) -> Result<(), NoMemory>
    ensures { OnOk result (out.new ≡ out.old ++ condition_facts condition.now) }
{
    for literal in condition.literals.as_slice() {
        out.push(literal.fact.number())?;
    }
    Ok(())
}

/// The fluents of a condition.
pub fn push_fluents(out: &mut Items<u32>, condition: &Condition) -> Result<(), NoMemory>
    ensures { OnOk result (out.new ≡ out.old ++ condition_fluents condition.now) }
{
    push_forms(out, condition.comparisons.as_slice())
}

/// The fluents in the amounts of some changes.
pub fn push_amounts(out: &mut Items<u32>, changes: &[(FluentId, Amount)]) -> Result<(), NoMemory>
    ensures { OnOk result (out.new ≡ out.old ++ flat_map (λ e. form_fluents e.1.form) changes.now) }
{
    for change in changes {
        push_form(out, &change.1.form)?;
    }
    Ok(())
}

/// The fluents that some changes change.
pub fn push_changed(out: &mut Items<u32>, changes: &[(FluentId, Amount)]) -> Result<(), NoMemory>
    ensures { OnOk result (out.new ≡ out.old ++ map (λ e. e.0) changes.now) }
{
    for change in changes {
        out.push(change.0.number())?;
    }
    Ok(())
}

/// The fluents that have rates.
pub fn push_rates(out: &mut Items<u32>, rates: &[(FluentId, Fraction)]) -> Result<(), NoMemory>
    ensures { OnOk result (out.new ≡ out.old ++ map (λ r. r.0) rates.now) }
{
    for rate in rates {
        out.push(rate.0.number())?;
    }
    Ok(())
}

/// The numbers of some facts.
pub fn push_ids(out: &mut Items<u32>, facts: &[FactId]) -> Result<(), NoMemory>
    ensures { OnOk result (out.new ≡ out.old ++ facts.now) }
{
    for fact in facts {
        out.push(fact.number())?;
    }
    Ok(())
}
