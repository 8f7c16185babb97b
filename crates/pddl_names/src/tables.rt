//! What is declared of names, found by their bytes in constant time.

ghost use Rattle.std.specs.Prelude.{◌≡◌, [], OnOk, length};
ghost use Rattle.std.specs.Option.{option_copied};
ghost use Rattle.pddl_names.specs.Declarations.{value_of, with_first};

use exact_lin::NoMemory;
use indexmap::IndexMap;
use std::alloc::Global;
use std::marker::Model;

/// Names, each with what is declared of it where it first came.
#[derive(Drop)]
pub struct Table<V> {
    entries: IndexMap<Vec<u8>, V>,
}

impl<V> Model for Table<V> {
    ghost use Rattle.std.specs.Prelude.{List, ℕ, map};

    ghost Value = { List (List ℕ × V) };

    ghost view = { λ t. map {B = List ℕ × V} (λ e. (e.0.items, e.1)) t.entries.entries };
}

impl<V: Drop> Table<V> {
    /// No names.
    pub fn new(alloc: Global) -> Table<V>
        ensures { result ≡ [] }
    {
        Table {
            entries: IndexMap::new(alloc),
        }
    }

    /// Puts a name with its value at the end, unless the name is there.
    pub fn add(&mut self, alloc: Global, name: &[u8], value: V) -> Result<(), NoMemory>
        ensures { OnOk result (self.new ≡ with_first self.old (name.now, value)) }
    {
        if self.entries.contains_key(name) {
            return Ok(());
        }
        self.entries.insert(Vec::from_slice(alloc, name)?, value)?;
        Ok(())
    }

    /// How many names there are.
    pub fn len(&self) -> usize
        ensures { result ≡ length self.now }
    {
        self.entries.len()
    }

    /// The value of a name.
    pub fn get(&self, name: &[u8]) -> Option<&V>
        ensures { option_copied result ≡ value_of self.now name.now }
    {
        self.entries.get(name)
    }
}
