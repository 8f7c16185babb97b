//! The entries of `:init`: timed literals above 0, of which no two make a fact true and false at one moment.

ghost use Rattle.std.specs.Prelude.{◌≡◌, ◌∷◌, [], not, OnOk, IfOk};
ghost use Rattle.std.specs.List.{flat_map};
ghost use Rattle.pddl_names.specs.Declarations.{with_new};
ghost use Rattle.pddl_terms.specs.declared.faults.Kind.TheVariants.{TilClash};
ghost use Rattle.pddl_forms.specs.Offences.{least_with, unless};
ghost use Rattle.pddl_forms.specs.TimedLiterals.{timed_literals, entry_offences, init_offences};
ghost use Rattle.pddl_forms.specs.Keys.{keys_of, is_seen, clashes_seen};

use crate::effects::least_of_call;
use crate::expressions::met_unless;
use crate::keys::key;
use crate::offences::met;
use crate::time_costs::is_below;
use exact_lin::{Fraction, NoMemory, Scalar};
use pddl_names::{Names, Offence};
use pddl_terms::{Call, InitEntry, Kind, TimedLiteral};
use std::alloc::Global;

#[tactic(auto, using(crate::proofs::Least::least_of))]
fn least_of_entry(entry: &InitEntry, found: Option<Offence>) -> Option<Offence>
    ensures { result ≡ least_with found (entry_offences entry.now) }
{
    match entry {
        InitEntry::Holds(_) => found,
        InitEntry::Not(_, fact) => least_of_call(fact, found),
        InitEntry::Value(_, fluent, _) => least_of_call(fluent, found),
        InitEntry::Timed(literal) => {
            let is_later = is_below(Fraction::of_int(0), literal.moment);
            let found = met_unless(found, is_later, Kind::TilClash, literal.moment_at);
            least_of_call(&literal.atom, found)
        }
        InitEntry::LeftOut(at) => met(found, Kind::LeftOut, *at),
    }
}

/// The least of what was found before and of this literal, where one that contradicts it was seen.
fn met_clash(
    alloc: Global,
    seen: &mut Names,
    literal: &TimedLiteral,
    found: Option<Offence>,
) -> Result<Option<Offence>, NoMemory>
    ensures found { IfOk result (λ r. r ≡ least_with found
        (unless (not (is_seen seen.old literal.now)) TilClash literal.now.at)) }
    ensures seen { OnOk result (seen.new ≡ with_new seen.old (keys_of literal.now)) }
{
    match &literal.atom {
        Call::Named(fact) => {
            let other = key(alloc, !literal.holds, literal.moment, fact)?;
            let own = key(alloc, literal.holds, literal.moment, fact)?;
            let is_new = !seen.has(other.as_slice());
            seen.add(alloc, own.as_slice())?;
            Ok(met_unless(found, is_new, Kind::TilClash, literal.at))
        }
        Call::LeftOut(_) => Ok(found),
    }
}

#[tactic(auto, using(crate::proofs::Clashes::clashes_of))]
fn least_of_clashes(
    alloc: Global,
    entries: &[InitEntry],
    found: Option<Offence>,
) -> Result<Option<Offence>, NoMemory>
    ensures { IfOk result (λ r. r ≡ least_with found (clashes_seen [] (timed_literals entries.now))) }
{
    let mut seen = Names::new(alloc);
    let mut found = found;
    let mut left = entries;
    while let Some((entry, more)) = left.split_first() {
        if let InitEntry::Timed(literal) = entry {
            found = met_clash(alloc, &mut seen, literal, found)?;
        }
        left = more;
    }
    Ok(found)
}

#[tactic(auto, using(crate::proofs::Least::least_of))]
fn least_of_entries(entries: &[InitEntry], found: Option<Offence>) -> Option<Offence>
    ensures { result ≡ least_with found (flat_map entry_offences entries.now) }
{
    let mut found = found;
    for entry in entries {
        found = least_of_entry(entry, found);
    }
    found
}

/// The least of what was found before and in the entries of `:init`.
#[tactic(auto, using(crate::proofs::Clashes::clashes_found))]
pub(crate) fn least_of_init(
    alloc: Global,
    entries: &[InitEntry],
    found: Option<Offence>,
) -> Result<Option<Offence>, NoMemory>
    ensures { IfOk result (λ r. r ≡ least_with found (init_offences entries.now)) }
{
    let found = least_of_entries(entries, found);
    least_of_clashes(alloc, entries, found)
}
