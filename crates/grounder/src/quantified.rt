//! Variables of quantifiers with their bindings, which are made one by one from their numbers.

ghost use Rattle.std.specs.Prelude.{◌≡◌};
ghost use Rattle.ground_world.specs.Bindings.{choice_count};
ghost use Rattle.ground_world.specs.Shown.{columns_of};

use ground_world::Variable;
use sqlite_items::Items;

/// Variables, one list inside the other, and how many bindings they have.
#[derive(Drop)]
pub struct Quantified<'a> {
    pub variables: Items<Variable<'a>>,
    pub count: usize,
    pub ghost counted: { count ≡ choice_count (columns_of variables) },
}
