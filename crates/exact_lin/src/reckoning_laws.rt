//! What is reckoned place by place is defined everywhere, or there is one first place where it isn't.

ghost use Rattle.std.specs.Prelude.{◌≡◌, ◌⊎◌, ℕ, List};
ghost use Rattle.exact_lin.specs.Reckonings.{Reckoning, AllDefined, IsFirstUndefined};

/// Under any limit, all reckonings at a list of places are defined, or some place is the first where one isn't; never
/// both, and there are never two first places.
pub fn places_have_one_answer<P>()
    ensures some { (limit : ℕ) (places : List (P × List Reckoning)) →
        AllDefined limit places ⊎ ((p : P) × IsFirstUndefined limit places p) }
    ensures apart { (limit : ℕ) (places : List (P × List Reckoning)) →
        AllDefined limit places → (p : P) → ¬ (IsFirstUndefined limit places p) }
    ensures one { (limit : ℕ) (places : List (P × List Reckoning)) (p q : P) →
        IsFirstUndefined limit places p → IsFirstUndefined limit places q → p ≡ q }
{}
