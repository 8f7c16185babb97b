//! The least of several offences, as it is met on a walk.

ghost use Rattle.std.specs.Prelude.{◌≡◌};
ghost use Rattle.pddl_forms.specs.Offences.{offence, lesser};

use pddl_names::Offence;
use pddl_terms::Kind;

/// The least of what was found before and this: the former stays where the places are the same.
#[tactic(auto, unfolding(crate::specs::Offences::lesser))]
pub(crate) fn met(found: Option<Offence>, kind: Kind, place: u32) -> Option<Offence>
    ensures { result ≡ lesser found (offence kind place) }
{
    let this = Offence { kind, place };
    match found {
        None => Some(this),
        Some(before) => {
            if before.place <= place {
                Some(before)
            } else {
                Some(this)
            }
        }
    }
}
