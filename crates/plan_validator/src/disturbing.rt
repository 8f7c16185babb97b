//! Whether two snap actions clash.

ghost use Rattle.std.specs.Prelude.{◌≡◌, ◌++◌, ◌==◌};
ghost use Rattle.std.specs.List.{flat_map, list_any};
ghost use Rattle.task_types.specs.Sets.{is_in, meet};
ghost use Rattle.task_types.specs.Clash.{form_fluents, condition_fluents, read_bounds, read_facts, changed_facts, read_fluents, assigned_fluents, written_fluents, disturbs, clash};
ghost use Rattle.plan_validator.specs.Clashes.{bound_written};

use crate::conditions::either;
use crate::readings::{is_read_at, own_bounds};
use exact_lin::{FactId, FluentId, Form, Fraction, Id};
use task_types::{Amount, Bound, Literal, Snap, SnapKind, TaskParts};

fn has_fact(facts: &[FactId], fact: FactId) -> bool
    ensures { result ≡ is_in fact facts.now }
{
    facts.iter().any(|other| other.number() == fact.number())
}

fn has_entry(entries: &[(FluentId, Amount)], fluent: FluentId) -> bool
    ensures { result ≡ list_any (λ e. e.0 == fluent) entries.now }
{
    entries
        .iter()
        .any(|entry| entry.0.number() == fluent.number())
}

fn changes(snap: &Snap, fact: FactId) -> bool
    ensures { result ≡ is_in fact (changed_facts snap.now) }
{
    has_fact(snap.effect.adds.as_slice(), fact) || has_fact(snap.effect.deletes.as_slice(), fact)
}

fn writes(snap: &Snap, fluent: FluentId) -> bool
    ensures { result ≡ is_in fluent (written_fluents snap.now) }
{
    let assigns = has_entry(snap.effect.assigns.as_slice(), fluent);
    either(assigns, has_entry(snap.effect.increases.as_slice(), fluent))
}

// ---- facts

fn literals_changed(literals: &[Literal], by: &Snap) -> bool
    ensures { result ≡ list_any (λ l. is_in l.fact (changed_facts by.now)) literals.now }
{
    literals.iter().any(|literal| changes(by, literal.fact))
}

// Whether the first reads a fact that the second changes.
fn reads_changed(one: &Snap, other: &Snap) -> bool
    ensures { result ≡ meet (read_facts one.now) (changed_facts other.now) }
{
    literals_changed(one.condition.literals.as_slice(), other)
}

fn facts_meet(facts: &[FactId], others: &[FactId]) -> bool
    ensures { result ≡ meet facts.now others.now }
{
    facts.iter().any(|fact| has_fact(others, *fact))
}

// Whether the first adds a fact that the second deletes.
fn adds_deleted(one: &Snap, other: &Snap) -> bool
    ensures { result ≡ meet one.now.effect.adds other.now.effect.deletes }
{
    facts_meet(one.effect.adds.as_slice(), other.effect.deletes.as_slice())
}

// ---- fluents

fn terms_written(terms: &[(FluentId, Fraction)], by: &Snap) -> bool
    ensures { result ≡ list_any (λ t. is_in t.0 (written_fluents by.now)) terms.now }
{
    terms.iter().any(|term| writes(by, term.0))
}

fn form_written(form: &Form<FluentId, Fraction>, by: &Snap) -> bool
    ensures { result ≡ meet (form_fluents form.now) (written_fluents by.now) }
{
    terms_written(form.terms(), by)
}

fn forms_written(forms: &[Form<FluentId, Fraction>], by: &Snap) -> bool
    ensures { result ≡ list_any (λ e. meet (form_fluents e) (written_fluents by.now)) forms.now }
{
    forms.iter().any(|form| form_written(form, by))
}

fn condition_written(snap: &Snap, by: &Snap) -> bool
    ensures { result ≡ meet (condition_fluents snap.now.condition) (written_fluents by.now) }
{
    forms_written(snap.condition.comparisons.as_slice(), by)
}

fn amounts_written(amounts: &[(FluentId, Amount)], by: &Snap) -> bool
    ensures { result ≡ list_any (λ e. meet (form_fluents e.1.form) (written_fluents by.now)) amounts.now }
{
    amounts
        .iter()
        .any(|amount| form_written(&amount.1.form, by))
}

fn effects_written(snap: &Snap, by: &Snap) -> bool
    ensures { result ≡ meet (flat_map (λ e. form_fluents e.1.form)
        (snap.now.effect.assigns ++ snap.now.effect.increases)) (written_fluents by.now) }
{
    let assigns = amounts_written(snap.effect.assigns.as_slice(), by);
    either(
        assigns,
        amounts_written(snap.effect.increases.as_slice(), by),
    )
}

fn bound_written(kind: SnapKind, bound: &Bound, by: &Snap) -> bool
    ensures { result ≡ bound_written kind (written_fluents by.now) bound.now }
{
    is_read_at(kind, bound) && form_written(&bound.form, by)
}

fn each_bound_written(kind: SnapKind, bounds: &[Bound], by: &Snap) -> bool
    ensures { result ≡ list_any (bound_written kind (written_fluents by.now)) bounds.now }
{
    bounds.iter().any(|bound| bound_written(kind, bound, by))
}

fn bounds_written(parts: &TaskParts, snap: &Snap, by: &Snap) -> bool
    ensures { result ≡ meet (flat_map (λ b. form_fluents b.form) (read_bounds parts.now snap.now))
        (written_fluents by.now) }
{
    each_bound_written(snap.kind, own_bounds(parts, snap), by)
}

// Whether the first reads a fluent that the second writes.
fn reads_written(parts: &TaskParts, one: &Snap, other: &Snap) -> bool
    ensures { result ≡ meet (read_fluents parts.now one.now) (written_fluents other.now) }
{
    let own = either(condition_written(one, other), effects_written(one, other));
    either(own, bounds_written(parts, one, other))
}

fn entries_written(entries: &[(FluentId, Amount)], by: &Snap) -> bool
    ensures { result ≡ list_any (λ e. is_in e.0 (written_fluents by.now)) entries.now }
{
    entries.iter().any(|entry| writes(by, entry.0))
}

// Whether the first assigns a fluent that the second writes.
fn assigns_written(one: &Snap, other: &Snap) -> bool
    ensures { result ≡ meet (assigned_fluents one.now) (written_fluents other.now) }
{
    entries_written(one.effect.assigns.as_slice(), other)
}

fn disturbs(parts: &TaskParts, one: &Snap, other: &Snap) -> bool
    ensures { result ≡ disturbs parts.now one.now other.now }
{
    reads_changed(other, one)
        || adds_deleted(other, one)
        || reads_written(parts, other, one)
        || assigns_written(other, one)
}

/// Whether two snap actions clash.
pub fn clash(parts: &TaskParts, one: &Snap, other: &Snap) -> bool
    ensures { result ≡ clash parts.now one.now other.now }
{
    either(disturbs(parts, other, one), disturbs(parts, one, other))
}
