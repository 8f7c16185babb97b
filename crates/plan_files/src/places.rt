//! Where entries of a list stand first, found in constant time.

ghost use Rattle.std.specs.Prelude.{◌≡◌, ◌<◌, ◌^◌, List, map, length, position, IfOk};
ghost use Rattle.std.specs.Str.{str_to_ascii_lowercase};
ghost use Rattle.plan_files.specs.Entries.{Entry, same_entry, entry_of};
ghost use Rattle.plan_files.specs.Places.{HasPlaces};

use exact_lin::NoMemory;
use std::alloc::Global;
use std::collections::HashMap;

/// A name in lower case, and the numbers of some objects.
pub type Key = (Vec<u8>, Vec<u32>);

/// Where each of some entries stands first among them.
#[derive(Drop)]
pub struct Places {
    places: HashMap<Key, u32>,
}

/// The key of a name in any case with some objects.
pub fn key_of(alloc: Global, name: &[u8], objects: Vec<u32>) -> Result<Key, NoMemory>
    ensures { IfOk result (λ k. entry_of k ≡ (str_to_ascii_lowercase name.now, objects.items)) }
{
    Ok((name.to_ascii_lowercase(alloc)?, objects))
}

/// A number of a list of a task.
pub fn number_of(i: usize) -> u32
    requires { i < 2 ^ 32 }
    ensures { result ≡ i }
{
    i as u32
}

/// The places of some keys.
pub fn places_of(alloc: Global, keys: Vec<Key>) -> Result<Places, NoMemory>
    requires { length keys.items < 2 ^ 32 }
    ensures { IfOk result (λ p. HasPlaces p (map {B = Entry} entry_of keys.items)) }
{
    let mut keys = keys;
    let mut places = HashMap::new(alloc);
    while let Some(key) = keys.pop() {
        places.insert(key, number_of(keys.len()))?;
    }
    Ok(Places { places })
}

impl Places {
    /// The first place of an entry.
    pub fn find(&self, key: &Key) -> Option<u32>
        ensures { (es : List Entry) → HasPlaces self.now es → result ≡ position (same_entry (entry_of key.now)) es }
    {
        self.places.get(key).copied()
    }
}
