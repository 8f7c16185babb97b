//! Ground atoms and fluents that are numbered in the order in which they first came.

ghost use Rattle.std.specs.Prelude.{◌≡◌, [], ◌∷◌, List, ℕ, map, position, OnOk, IfSome, ◌<◌, ◌≤◌, length};
ghost use Rattle.std.specs.Cmp.Lexicographic.{slice_cmp};
ghost use Rattle.std.specs.List.Sorted.{IsStrictlySortedBy};
ghost use Rattle.std.specs.Ordering.{nat_cmp};
ghost use Rattle.std.specs.Str.{bytes_eq};
ghost use Rattle.std.specs.List.{list_any, position_or_len};
ghost use Rattle.pddl_names.specs.Declarations.{with_new};

use exact_lin::NoMemory;
use indexmap::IndexSet;
use std::alloc::Global;
use std::marker::Model;

/// Ground atoms or fluents, each a list of numbers, in the order in which they first came. Each is found in constant
/// time.
#[derive(Drop)]
pub struct Numbering {
    keys: IndexSet<Vec<u32>>,
}

impl Model for Numbering {
    ghost use Rattle.std.specs.Prelude.{List, ℕ, map};

    ghost Value = { List (List ℕ) };

    ghost view = { λ n. map (λ k. k.items) n.keys.keys };
}

impl Numbering {
    /// No entries.
    pub fn new(alloc: Global) -> Numbering
        ensures { result ≡ [] }
    {
        Numbering {
            keys: IndexSet::new(alloc),
        }
    }

    /// How many entries there are.
    pub fn len(&self) -> usize
        ensures { result ≡ length self.now }
    {
        self.keys.len()
    }

    /// The entries, in their order.
    pub fn keys(&self) -> &[Vec<u32>]
        ensures { map (λ k. k.items) result.now ≡ self.now }
    {
        self.keys.as_slice()
    }

    /// Puts the entries in ascending order.
    pub(crate) fn sort(&mut self) -> Result<(), NoMemory>
        ensures sorted { OnOk result (IsStrictlySortedBy (slice_cmp nat_cmp) self.new) }
        ensures members { OnOk result ((a : List ℕ) → list_any (bytes_eq a) self.new ≡ list_any (bytes_eq a) self.old) }
    {
        self.keys.sort()?;
        Ok(())
    }

    /// Puts an entry at the end, unless it is there.
    pub fn add(&mut self, key: Vec<u32>) -> Result<(), NoMemory>
        ensures { OnOk result (self.new ≡ with_new self.old (key.items ∷ [])) }
    {
        self.keys.insert(key)?;
        Ok(())
    }

    /// The number of an entry, or how many there are where it isn't there.
    pub fn place_or_len(&self, key: &[u32]) -> usize
        ensures value { result ≡ position_or_len (bytes_eq key.now) self.now }
        ensures within { result ≤ length self.now }
    {
        match self.place(key) {
            Some(place) => place,
            None => self.keys.len(),
        }
    }

    /// The number of an entry.
    pub fn place(&self, key: &[u32]) -> Option<usize>
        ensures value { result ≡ position (bytes_eq key.now) self.now }
        ensures within { IfSome result (λ n. n < length self.now) }
    {
        self.keys.get_index_of(key)
    }

    /// Whether there is such an entry.
    pub fn has(&self, key: &[u32]) -> bool
        ensures { result ≡ list_any (bytes_eq key.now) self.now }
    {
        self.keys.contains(key)
    }
}
