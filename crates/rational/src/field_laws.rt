//! The rational numbers are a field, and they are the fractions.

ghost use Rattle.rational.specs.Laws.{FractionsAreEqual, NumbersAreFractions, SumsAssociate, SumsCommute, ZeroIsNeutral, NegativesCancel, ProductsAssociate, ProductsCommute, OneIsNeutral, ProductsDistribute, InversesCancel, OneIsNotZero};

/// Two fractions are one number exactly where they are equal when multiplied out, and each number is the fraction of
/// its own numerator and denominator.
pub fn fractions_are_numbers()
    ensures equal { FractionsAreEqual }
    ensures every { NumbersAreFractions }
{}

/// Sums and products follow the laws of a commutative ring: both may be reckoned in any order, 0 adds nothing, each
/// number has a negative, times 1 changes nothing, and a multiple of a sum is the sum of the multiples.
pub fn numbers_are_a_ring()
    ensures sums_associate { SumsAssociate }
    ensures sums_commute { SumsCommute }
    ensures zero { ZeroIsNeutral }
    ensures negatives { NegativesCancel }
    ensures products_associate { ProductsAssociate }
    ensures products_commute { ProductsCommute }
    ensures one { OneIsNeutral }
    ensures distribute { ProductsDistribute }
{}

/// Each number but 0 has a reciprocal, and 1 is not 0.
pub fn numbers_are_a_field()
    ensures inverses { InversesCancel }
    ensures distinct { OneIsNotZero }
{}
