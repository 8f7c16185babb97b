//! Names that are numbered in the order in which they first came.

ghost use Rattle.std.specs.Prelude.{◌≡◌, [], ◌∷◌, position, OnOk, IfSome, ◌<◌, ◌≤◌, length};
ghost use Rattle.std.specs.Str.{bytes_eq};
ghost use Rattle.std.specs.List.{list_any, position_or_len};
ghost use Rattle.pddl_names.specs.Declarations.{with_new};

use exact_lin::NoMemory;
use indexmap::IndexSet;
use std::alloc::Global;
use std::marker::Model;

/// Names in the order in which they first came. Each is found by its bytes in constant time.
#[derive(Drop)]
pub struct Names {
    keys: IndexSet<Vec<u8>>,
}

impl Model for Names {
    ghost use Rattle.std.specs.Prelude.{List, ℕ, map};

    ghost Value = { List (List ℕ) };

    ghost view = { λ n. map (λ k. k.items) n.keys.keys };
}

impl Names {
    /// No names.
    pub fn new(alloc: Global) -> Names
        ensures { result ≡ [] }
    {
        Names {
            keys: IndexSet::new(alloc),
        }
    }

    /// Puts a name at the end, unless it is there.
    pub fn add(&mut self, alloc: Global, name: &[u8]) -> Result<(), NoMemory>
        ensures { OnOk result (self.new ≡ with_new self.old (name.now ∷ [])) }
    {
        self.keys.insert(Vec::from_slice(alloc, name)?)?;
        Ok(())
    }

    /// The number of a name, or how many there are where it isn't there.
    pub fn place_or_len(&self, name: &[u8]) -> usize
        ensures value { result ≡ position_or_len (bytes_eq name.now) self.now }
        ensures within { result ≤ length self.now }
    {
        match self.place(name) {
            Some(place) => place,
            None => self.keys.len(),
        }
    }

    /// The number of a name.
    pub fn place(&self, name: &[u8]) -> Option<usize>
        ensures value { result ≡ position (bytes_eq name.now) self.now }
        ensures within { IfSome result (λ n. n < length self.now) }
    {
        self.keys.get_index_of(name)
    }

    /// Whether there is such a name.
    pub fn has(&self, name: &[u8]) -> bool
        ensures { result ≡ list_any (bytes_eq name.now) self.now }
    {
        self.keys.contains(name)
    }
}
