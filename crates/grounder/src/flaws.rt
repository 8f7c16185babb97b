//! The least of the places at which something is undefined or lacks a value.

ghost use Rattle.std.specs.Prelude.{◌≡◌, min, Some};
ghost use Rattle.ground_world.specs.World.{either};
ghost use Rattle.ground_world.specs.Expressions.{wide_places, zero_divisors};
ghost use Rattle.grounder.specs.Answer.{least};
ghost use Rattle.grounder.specs.Bindings.{lower};

use ground_world::Flaw;

// The lesser of a place and the least one so far.
fn lesser(found: &Option<u32>, place: u32) -> Option<u32>
    ensures { result ≡ Some (either place (min place) found.now) }
{
    match found {
        Some(least) => Some(place.min(*least)),
        None => Some(place),
    }
}

/// The lesser of two places, where there are any.
pub fn lower(one: &Option<u32>, other: &Option<u32>) -> Option<u32>
    ensures { result ≡ lower one.now other.now }
{
    match one {
        Some(place) => lesser(other, *place),
        None => *other,
    }
}

/// The least of some places.
pub fn least_place(places: &[u32]) -> Option<u32>
    ensures { result ≡ least places.now }
{
    let mut found = None;
    for place in places {
        found = lesser(&found, *place);
    }
    found
}

/// The least place of an undefined reckoning that counts: none behind a divisor of value 0 does.
pub fn least_wide(flaws: &[Flaw]) -> Option<u32>
    ensures { result ≡ least (wide_places flaws.now) }
{
    let mut found = None;
    for flaw in flaws {
        match flaw {
            Flaw::TooWide(place) => found = lesser(&found, *place),
            Flaw::ZeroDivisor(_) => return found,
        }
    }
    found
}

/// The least place of a divisor of value 0.
pub fn least_zero_divisor(flaws: &[Flaw]) -> Option<u32>
    ensures { result ≡ least (zero_divisors flaws.now) }
{
    let mut found = None;
    for flaw in flaws {
        match flaw {
            Flaw::TooWide(_) => (),
            Flaw::ZeroDivisor(place) => found = lesser(&found, *place),
        }
    }
    found
}
