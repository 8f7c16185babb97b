//! What is wrong at a place of a text, and which of two offences comes first.

ghost use Rattle.std.specs.Prelude.{◌≡◌};
ghost use Rattle.pddl_names.specs.Offences.{earlier, offence};

use pddl_terms::Kind;

/// What is wrong at a byte of a text.
#[derive(Clone, Copy, Debug, PartialEq, Eq)]
pub struct Offence {
    pub kind: Kind,
    pub place: u32,
}

/// Which offences are looked for: names that aren't declared or are declared twice, or terms whose type or number
/// doesn't fit.
#[derive(Clone, Copy, Debug, PartialEq, Eq)]
pub enum Phase {
    Names,
    Types,
}

/// Of two offences the one of lesser place; of two at one place the former. Phases that are judged apart, and parts of
/// one phase, are joined by it.
pub fn earlier(one: Option<Offence>, other: Option<Offence>) -> Option<Offence>
    ensures { result ≡ earlier one other }
{
    let Some(first) = one else {
        return other;
    };
    let Some(second) = other else {
        return Some(first);
    };
    if first.place <= second.place {
        Some(first)
    } else {
        Some(second)
    }
}
