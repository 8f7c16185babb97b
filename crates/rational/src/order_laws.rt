//! The order of the rational numbers.

ghost use Rattle.rational.specs.Laws.{OrderIsTotal, OrderIsTransitive, OrderIsAntisymmetric, BelowIsStrict, ComparisonsTell, SumsKeepOrder, ProductsKeepSign};

/// Of two numbers one is at most the other, and both ways only where they are equal; `≤` goes through from number to
/// number; `<` is `≤` without equality; and a comparison tells which of `<`, equality and `>` holds.
pub fn numbers_are_ordered()
    ensures total { OrderIsTotal }
    ensures transitive { OrderIsTransitive }
    ensures antisymmetric { OrderIsAntisymmetric }
    ensures strict { BelowIsStrict }
    ensures comparison { ComparisonsTell }
{}

/// A sum doesn't fall where one of its parts grows, and the product of two numbers of at least 0 is at least 0.
pub fn order_is_kept()
    ensures sums { SumsKeepOrder }
    ensures products { ProductsKeepSign }
{}
