//! The variables that may be used at a place.

ghost use Rattle.std.specs.Prelude.{◌≡◌, Some, None};
ghost use Rattle.std.specs.Option.{option_copied};
ghost use Rattle.pddl_names.specs.Declarations.{value_of};
ghost use Rattle.pddl_names.specs.Scopes.{variables_of};

use crate::tables::Table;
use sqlite_items::Items;

/// The variables of the innermost list with their types, and those of the lists around it.
#[derive(Clone, Copy)]
pub(crate) enum Scope<'a> {
    Top,
    Inner(&'a Table<Items<u8>>, &'a Scope<'a>),
}

/// The type of a variable in scope. An inner variable hides an outer one.
pub(crate) fn sort_in<'a>(scope: &'a Scope<'a>, name: &[u8]) -> Option<&'a Items<u8>>
    ensures { option_copied result ≡ value_of (variables_of scope.now) name.now }
{
    match scope {
        Scope::Top => None,
        Scope::Inner(variables, outer) => match variables.get(name) {
            Some(sort) => Some(sort),
            None => sort_in(outer, name),
        },
    }
}
