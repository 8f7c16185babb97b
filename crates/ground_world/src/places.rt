//! Sets of places.

ghost use Rattle.std.specs.Prelude.{◌≡◌, [], ◌∷◌, ◌++◌, if◌then◌else◌, nat_eq, OnOk};
ghost use Rattle.std.specs.List.{list_any};

use exact_lin::NoMemory;
use indexmap::IndexSet;
use std::alloc::Global;
use std::marker::Model;

/// Places, each found in constant time.
#[derive(Drop)]
pub struct Places {
    keys: IndexSet<u32>,
}

impl Model for Places {
    ghost use Rattle.std.specs.Prelude.{List, ℕ};

    ghost Value = { List ℕ };

    ghost view = { λ p. p.keys.keys };
}

impl Places {
    /// No places.
    pub fn new(alloc: Global) -> Places
        ensures { result ≡ [] }
    {
        Places {
            keys: IndexSet::new(alloc),
        }
    }

    /// Adds a place.
    pub fn add(&mut self, place: u32) -> Result<(), NoMemory>
        ensures { OnOk result (self.new
            ≡ (if list_any (nat_eq place) self.old then self.old else self.old ++ (place ∷ []))) }
    {
        self.keys.insert(place)?;
        Ok(())
    }

    /// Whether the place is there.
    pub fn has(&self, place: u32) -> bool
        ensures { result ≡ list_any (nat_eq place) self.now }
    {
        self.keys.contains(&place)
    }
}
