//! Duties that are asked in turn have one answer: all are met, or one is the first that isn't.

ghost use Rattle.std.specs.Prelude.{◌≡◌, ◌⊎◌, List};
ghost use Rattle.basics.specs.Duties.{Duty, AllMet, IsFirstUnmet, AllDecided};

/// Duties for a law to speak of. `F` are the faults that they name.
pub trait Asks<F> {
    // the duties, in the order in which they are asked
    ghost duties: { List (Duty F) };
}

/// Where each duty is met or isn't, all are met or some fault is that of the first that isn't.
pub fn all_met_or_one_unmet<F, A: Asks<F>>()
    ensures { AllDecided A.duties → AllMet A.duties ⊎ ((f : F) × IsFirstUnmet A.duties f) }
{}

/// Duties that are all met have no first that isn't, and no duties have two.
pub fn answers_are_one<F, A: Asks<F>>()
    ensures apart { AllMet A.duties → (f : F) → ¬ (IsFirstUnmet A.duties f) }
    ensures one { (f g : F) → IsFirstUnmet A.duties f → IsFirstUnmet A.duties g → f ≡ g }
{}
