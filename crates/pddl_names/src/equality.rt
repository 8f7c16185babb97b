//! Which `=` is an equality of terms, and which a comparison of numbers.

ghost use Rattle.std.specs.Prelude.{◌≡◌, ◌&&◌, ◌||◌};
ghost use Rattle.pddl_names.specs.Equalities.{is_word, is_term, is_equality};

use crate::names::Names;
use pddl_terms::Side;

fn is_word(side: &Side) -> bool
    ensures { result ≡ is_word side.now }
{
    match side {
        Side::Variable(_) => true,
        Side::Bare(_) => true,
        Side::Expression(_) => false,
    }
}

fn is_term(functions: &Names, side: &Side) -> bool
    ensures { result ≡ is_term functions.now side.now }
{
    match side {
        Side::Variable(_) => true,
        Side::Bare(name) => !functions.has(name.bytes.as_slice()),
        Side::Expression(_) => false,
    }
}

/// Whether an `=` with these sides is an equality of terms, where these are the names of the declared functions: each
/// side is a variable or a name, and one of them at least is a variable or the name of no function. Else it compares
/// numbers.
pub fn is_equality(functions: &Names, left: &Side, right: &Side) -> bool
    ensures { result ≡ is_equality functions.now left.now right.now }
{
    is_word(left) && is_word(right) && (is_term(functions, left) || is_term(functions, right))
}
