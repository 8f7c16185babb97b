//! Looking up names, atoms, fluents and types in the tables.

ghost use Rattle.std.specs.Prelude.{◌≡◌};
ghost use Rattle.ground_world.specs.World.{place_in};
ghost use Rattle.ground_world.specs.Shown.{world_of};

use crate::tables::Tables;
use exact_lin::Fraction;

impl Tables {
    /// The place of an object by its name.
    pub fn object(&self, name: &[u8]) -> u32
        ensures { result ≡ place_in (world_of self.now).objects name.now }
    {
        self.objects.place_or_len(name) as u32
    }

    /// The place of a predicate by its name.
    pub fn predicate(&self, name: &[u8]) -> u32
        ensures { result ≡ place_in (world_of self.now).predicates name.now }
    {
        self.predicates.place_or_len(name) as u32
    }

    /// The place of a function by its name.
    pub fn function(&self, name: &[u8]) -> u32
        ensures { result ≡ place_in (world_of self.now).functions name.now }
    {
        self.functions.place_or_len(name) as u32
    }

    /// Whether no effect and no timed literal has the predicate.
    pub fn is_static(&self, predicate: u32) -> bool
        ensures { result ≡ (world_of self.now).is_static predicate }
    {
        !self.changed_predicates.has(predicate)
    }

    /// Whether no effect changes the function.
    pub fn is_static_function(&self, function: u32) -> bool
        ensures { result ≡ (world_of self.now).is_static_function function }
    {
        !self.changed_functions.has(function)
    }

    /// Whether a ground atom holds at first.
    pub fn is_held(&self, atom: &[u32]) -> bool
        ensures { result ≡ (world_of self.now).is_held atom.now }
    {
        self.held.has(atom)
    }

    /// The first value of a ground fluent.
    pub fn value(&self, fluent: &[u32]) -> Option<Fraction>
        ensures { result ≡ (world_of self.now).value_of fluent.now }
    {
        self.values.get(self.given.place_or_len(fluent)).copied()
    }

    /// The objects that fit a type.
    pub fn column(&self, sort: &[u8]) -> &[u32]
        ensures { result.now ≡ (world_of self.now).fitting sort.now }
    {
        match self.columns.get(self.sorts.place_or_len(sort)) {
            Some(column) => column.as_slice(),
            None => self.others.as_slice(),
        }
    }
}
