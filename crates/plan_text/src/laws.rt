//! What holds of the texts of numbers.

ghost use Rattle.std.specs.Prelude.{◌≡◌, ℕ, List, true};
ghost use Rattle.basics.specs.Texts.{is_number};
ghost use Rattle.rational.specs.Rational.{ℚ};
ghost use Rattle.rational.specs.Decimals.{number_value};
ghost use Rattle.exact_lin.specs.Reckoning.{wide_limit, Fits};
ghost use Rattle.plan_text.specs.Numbers.{Spells, number_text};

/// Each text stands for one number at most.
pub fn numbers_are_one()
    ensures { (text : List ℕ) (q r : ℚ) → Spells text q → Spells text r → q ≡ r }
{}

/// The text in which a number is printed stands for it, so that `read_number` gives back what `print_number` printed.
pub fn numbers_read_back()
    ensures { (q : ℚ) → Fits wide_limit q → Spells (number_text q) q }
{}

/// A text that is a number of PDDL as well stands for the same number there.
pub fn decimals_agree()
    ensures { (text : List ℕ) (q : ℚ)
        → is_number text ≡ true → Spells text q → q ≡ number_value text }
{}
