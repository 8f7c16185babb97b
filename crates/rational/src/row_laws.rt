//! Systems of linear inequalities and their multipliers (Schrijver 1986, section 7).

ghost use Rattle.rational.specs.Laws.{FarkasRefutes, DualBounds};

/// Rows `A x ≤ b`, each times a multiplier of at least 0, add up to a row that every solution meets. So multipliers
/// prove that no x ≥ 0 meets the rows (Farkas's easy direction), or that none that meets them costs less than a
/// bound (weak duality).
pub fn multipliers_prove()
    ensures empty { FarkasRefutes }
    ensures bound { DualBounds }
{}
