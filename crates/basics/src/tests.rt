//! The laws at a list of duties.

ghost use Rattle.basics.specs.Duties.{Duty, duty};

use crate::duty_laws::{Asks, all_met_or_one_unmet, answers_are_one};

struct TwoDuties;

impl Asks<u8> for TwoDuties {
    ghost use Rattle.std.specs.Prelude.{List, [], ◌∷◌, true, false};
    ghost use Rattle.basics.specs.Duties.{Duty, duty};

    ghost duties = { duty 1 true ∷ duty 2 false ∷ [] };
}

#[test]
fn laws_hold_at_two_duties() {
    all_met_or_one_unmet::<u8, TwoDuties>();
    answers_are_one::<u8, TwoDuties>();
}
