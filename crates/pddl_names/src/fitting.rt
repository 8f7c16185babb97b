//! Which type is below which.

ghost use Rattle.std.specs.Prelude.{◌≡◌, is_some};
ghost use Rattle.std.specs.Option.{option_copied};
ghost use Rattle.pddl_names.specs.Fitting.{above, is_below, fits};

use crate::tables::Table;
use sqlite_items::Items;

fn above<'a>(types: &'a Table<Items<u8>>, name: &[u8]) -> Option<&'a Items<u8>>
    ensures { option_copied result ≡ above types.now name.now }
{
    if name == b"object".as_slice() {
        return None;
    }
    types.get(name)
}

fn is_below(types: &Table<Items<u8>>, sub: &[u8], sup: &[u8]) -> bool
    ensures { result ≡ is_below types.now sub.now sup.now }
{
    let mut at = sub;
    for step in 0..types.len() {
        if sup == at {
            return true;
        }
        let Some(next) = above(types, at) else {
            return false;
        };
        at = next.as_slice();
    }
    sup == at
}

/// Whether what is of the type `sub` is of the type `sup`, where these types are declared, each with the one above it:
/// a type fits itself, those above it and `object`. Rings of types are taken. A type without a name, as one that is
/// left out has, fits each type, and each fits it.
#[tactic(auto, unfolding(crate::specs::Fitting::fits))]
pub fn fits(types: &Table<Items<u8>>, sub: &[u8], sup: &[u8]) -> bool
    ensures { result ≡ fits types.now sub.now sup.now }
{
    sub.is_empty() || sup.is_empty() || sup == b"object".as_slice() || is_below(types, sub, sup)
}
