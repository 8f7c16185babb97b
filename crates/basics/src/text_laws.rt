//! Laws of texts.

ghost use Rattle.std.specs.Prelude.{◌≡◌, ℕ, ◌++◌, List, length, true};
ghost use Rattle.std.specs.List.{list_all};
ghost use Rattle.std.specs.Char.{is_ascii_digit};
ghost use Rattle.basics.specs.Texts.{digit_count, is_decimal, before_point, behind_point};

/// A decimal is made of the digits before its first point and of those behind it, and has no others.
pub fn decimals_are_digits()
    ensures digits { (text : List ℕ) → is_decimal text ≡ true
        → list_all is_ascii_digit (before_point text ++ behind_point text) ≡ true }
    ensures all { (text : List ℕ) → is_decimal text ≡ true
        → length (before_point text ++ behind_point text) ≡ digit_count text }
{}
