//! Lists whose places are ids.

ghost use Rattle.std.specs.Prelude.{◌≡◌, ℕ, ◌+◌, ◌<◌, ◌≤◌, ◌^◌, List, [], ◌∷◌, ◌++◌, length, slice_get, option_copied, ◌↔◌, IsTrue, OnOk, IfOk, OnErr, IfErr};

use crate::ids::Id;
use std::alloc::Global;
use std::marker::{Model, PhantomData};

/// A list in which the value at place n belongs to the id of number n.
#[derive(Drop)]
pub struct IdVec<I, T> {
    items: Vec<T>,
    ids: PhantomData<I>,
}

impl<I, T> Model for IdVec<I, T> {
    ghost use Rattle.std.specs.Prelude.{List, ◌<◌, ◌^◌, length};

    ghost Value = { List T };

    ghost view = { λ v. v.items.items };

    ghost invariant = { λ v. length v.items.items < 2 ^ 32 };
}

impl<I: Id, T> IdVec<I, T> {
    /// The empty list.
    pub fn new(alloc: Global) -> IdVec<I, T>
        ensures { result ≡ [] }
    {
        IdVec {
            items: Vec::new(alloc),
            ids: PhantomData,
        }
    }

    /// Puts a value at the end and answers its id. The value comes back for want of memory.
    pub fn push(&mut self, value: T) -> Result<I, T>
        requires { length self.old + 1 < 2 ^ 32 }
        ensures id { IfOk result (λ id. I.number_of id ≡ length self.old) }
        ensures pushed { OnOk result (self.new ≡ self.old ++ value ∷ []) }
        ensures returned { IfErr result (λ back. back ≡ value) }
        ensures unchanged { OnErr result (self.new ≡ self.old) }
    {
        let id = I::of(self.items.len() as u32);
        match self.items.push(value) {
            Ok(()) => Ok(id),
            Err(failed) => Err(failed.value),
        }
    }

    /// The value of an id, or None where the list has none.
    pub fn get(&self, id: I) -> Option<&T>
        ensures { option_copied result ≡ slice_get self.now (I.number_of id) }
    {
        self.items.get(id.number() as usize)
    }

    /// How many values the list has.
    pub fn len(&self) -> u32
        ensures value { result ≡ length self.now }
    {
        self.items.len() as u32
    }

    /// Whether the list has no value.
    pub fn is_empty(&self) -> bool
        ensures { IsTrue result ↔ (self.now ≡ []) }
    {
        self.items.is_empty()
    }

    /// The values, each at the place of its id.
    pub fn as_slice(&self) -> &[T]
        ensures { result.now ≡ self.now }
    {
        self.items.as_slice()
    }
}
